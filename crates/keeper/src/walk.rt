// A keeper of the order that stores the events in a list that it is lent, and walks back over them when it is asked.
use crate::plain::PlainCounts;
use event::{Event, Intake};

pub mod back;
pub mod keeping;

// What was told, and the events of it at the list's front. The list is the caller's, lent as all tables are, and no `Vec`.
#[derive(Drop)]
pub struct Walk<'a> {
    plain: PlainCounts,
    told: Intake,
    events: &'a mut [Event],
}
