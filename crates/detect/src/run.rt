// A run: a source, a keeper, a table of latest accesses and a sink, which are lent to it till it ends.
use event::{CallerFault, Event};

pub mod report;
pub mod start;
pub mod steps;

pub use crate::totals::Totals;

// A run is not copied, and only this library makes one.
#[derive(Drop)]
pub struct Run<'s, 'k, 'l, 'o, S, K, O> {
    source: &'s mut S,
    keeper: &'k mut K,
    latest: &'l mut [Option<Event>],
    sink: &'o mut O,
    totals: Totals,
    // Stays a flag, since an ended run may still be asked for a step: it answers that it has ended, and `totals` requires that it has.
    ended: bool,
}

// What a step did.
#[derive(Clone, Copy, PartialEq, Eq, Debug)]
pub enum Step {
    // an event was told, and what it gave was reported
    Told,
    // the run has ended
    Ended,
    // the keeper refused an event, and the run has ended
    Refused(CallerFault),
}
