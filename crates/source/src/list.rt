// A list of events in memory, over a table that the caller lends.
ghost use Rattle.std.specs.Prelude.{◌≤◌, length, take};
ghost use Rattle.event.specs.Thins.{Sound};

use event::{Counts, Event};

pub mod copying;
pub mod events;
pub mod making;

// The list's events stand at the table's front. What stands behind them is never read.
// The table is the caller's, lent by the rule that tables are: so it is a slice with a length beside it, and no `Vec`.
#[derive(Drop)]
pub struct EventList<'a> {
    counts: Counts,
    table: &'a mut [Event],
    len: usize,
    ghost fits: { len ≤ length table.now },
    ghost sound: { ∥ Sound counts (take len table.now) ∥₁ },
}

// The events of a list that are still to come.
#[derive(Drop)]
pub struct ListEvents<'a> {
    counts: Counts,
    events: &'a [Event],
    ghost sound: { ∥ Sound counts events.now ∥₁ },
}
