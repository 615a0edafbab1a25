// Findings that are owed, and the runs that make them.
#![tactic(auto)]

pub mod finding;
pub mod latest;
pub mod overlaps;
pub mod run;
pub mod totals;
pub mod whole;

pub use finding::Finding;
pub use overlaps::report;
pub use run::{Run, Step};
pub use totals::Totals;
pub use whole::run_all;
