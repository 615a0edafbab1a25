// What takes findings: lines of text, and a tally of each variable.
#![tactic(auto)]

pub mod histories;
pub mod lent;
pub mod line;
pub mod lines;
pub mod pair;
pub mod sink;
pub mod tally;

pub use lines::Lines;
pub use pair::Pair;
pub use sink::Sink;
pub use tally::Tally;
