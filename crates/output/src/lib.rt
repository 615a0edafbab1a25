// What the programs print.
#![tactic(auto)]

pub mod answer;
pub mod answering;
pub mod failure;
pub mod lines;
pub mod listing;
pub mod monitors;
pub mod program;
pub mod races;

pub use answer::{Answer, LONGEST, answer_of};
pub use answering::{Answering, ListOverlaps, ListRaces};
pub use failure::Failure;
pub use lines::{refusal_line, totals_line};
pub use listing::Listing;
pub use monitors::{Overlaps, list_overlaps};
pub use program::{respond, respond_or};
pub use races::{Races, list_races};
