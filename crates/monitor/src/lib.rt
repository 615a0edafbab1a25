// Monitors that an instrumenting compiler set: their levels, whether they are placed rightly, and where they overlap.
#![tactic(auto)]

pub mod fault;
pub mod level;
pub mod look;
pub mod overlap;
pub mod placement;
pub mod table;
pub mod theorems;

pub use fault::PlacementFault;
pub use level::Level;
pub use placement::check;
