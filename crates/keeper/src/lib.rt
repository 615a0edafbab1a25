// Keepers of the order of events: the clocks, and a walk backwards over the events themselves.
#![tactic(auto)]

pub mod admit;
pub mod clocks;
pub mod keeper;
pub mod plain;
pub mod walk;

pub use clocks::Clocks;
pub use keeper::Keeper;
pub use walk::Walk;
