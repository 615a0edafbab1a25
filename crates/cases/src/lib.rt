#![tactic(auto)]

// Tests by table: trace files written as short scripts, and what must come of them.
#[cfg(test)]
mod callers;
#[cfg(test)]
mod keepers;
#[cfg(test)]
mod monitors;
#[cfg(test)]
mod overlaps;
#[cfg(test)]
mod programs;
#[cfg(test)]
mod reader;
#[cfg(test)]
mod runs;
mod script;
#[cfg(test)]
mod sources;
pub mod worked;
