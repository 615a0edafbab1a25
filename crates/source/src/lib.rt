// Sources of events, and filters that pile up on any source.
#![tactic(auto)]

pub mod filter;
pub mod lent;
pub mod list;
pub mod picker;
pub mod recorded;
pub mod refusal;
pub mod sampler;
pub mod sieve;
pub mod source;

pub use filter::Filter;
pub use list::{EventList, ListEvents};
pub use picker::Picker;
pub use refusal::Refusal;
pub use sampler::Sampler;
pub use sieve::Sieve;
pub use source::{Measured, Source};
