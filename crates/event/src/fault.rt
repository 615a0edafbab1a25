// What a caller did wrong.
ghost use Rattle.event.specs.Faults.{caller_filed};

use crate::filed::{Fault, Filed};

// Each fault carries the place that is reported with it.
#[derive(Clone, Copy, PartialEq, Eq, Debug)]
pub enum CallerFault {
    // a count outside its limits, by that count
    Counts { count: usize },
    // an event's thread or number out of range, by the place offered
    Range { place: usize },
    // a table that is too small, by the size needed
    Table { size: usize },
    // a place that is not above the last, or above 999,999, by the place offered
    Place { place: usize },
    // a thread that is not declared, by that thread
    Thread { thread: usize },
    // a keeper or a list that is full, by its capacity
    Full { capacity: usize },
    // a sink that is full, by its capacity
    Sink { capacity: usize },
    // a burst or a period outside its limits
    Sampling,
}

impl Fault for CallerFault {
    ghost filing = { caller_filed };

    fn filed(&self) -> Filed {
        let (number, place) = match self {
            CallerFault::Counts { count } => (3, *count),
            CallerFault::Range { place } => (7, *place),
            CallerFault::Table { size } => (12, *size),
            CallerFault::Place { place } => (13, *place),
            CallerFault::Thread { thread } => (14, *thread),
            CallerFault::Full { capacity } => (15, *capacity),
            CallerFault::Sink { capacity } => (16, *capacity),
            CallerFault::Sampling => (17, 0),
        };
        Filed {
            number,
            layer: 6,
            place,
        }
    }
}
