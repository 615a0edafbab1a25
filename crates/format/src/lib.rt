// What the bytes of a trace file mean: which contents they encode, which are lawful, and what is wrong with a file that encodes none.
#![tactic(auto)]

pub mod exact;
pub mod fault;
pub mod kinds;

pub use exact::files_are_read_exactly;
pub use fault::{ByteFault, EventFault, OrderFault, SectionFault};
pub use kinds::{ObjectKind, SectionKind, Stage, UnknownKind};
