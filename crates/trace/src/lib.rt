// Reads trace files: bytes, sections, events and the rules of threads and mutexes. The faults stand in the crate `format`.
#![tactic(auto)]

pub mod bytes;
pub mod entries;
pub mod entry;
pub mod event_bytes;
pub mod events;
pub mod file;
pub mod layout;
pub mod names;
pub mod rules;
pub mod section;
pub mod sections;
pub mod trace;

pub use entries::Entries;
pub use entry::Entry;
pub use events::Events;
pub use file::read;
pub use section::Section;
pub use trace::Trace;
