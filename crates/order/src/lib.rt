// The mathematics of the order of events: each theorem is the contract of a small function.
#![tactic(auto)]

pub mod chains;
pub mod races;
pub mod regions;
