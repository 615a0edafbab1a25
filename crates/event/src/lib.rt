// The words of a trace: events, what they acquire and release, how many threads, objects and variables there are, and the faults of a caller.
#![tactic(auto)]

pub mod access;
pub mod code;
pub mod counts;
pub mod fault;
pub mod filed;
pub mod intake;
pub mod letter;
pub mod object;
pub mod record;
pub mod table;

pub use counts::Counts;
pub use fault::CallerFault;
pub use filed::{Fault, Filed};
pub use intake::Intake;
pub use letter::{Letter, UnknownLetter};
pub use object::Object;
pub use record::Event;
