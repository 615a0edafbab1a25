// The answer of the program `monitors`.
ghost use Rattle.std.specs.Prelude.{IfOk, vec_items};
ghost use Rattle.source.specs.Listed.{listed};
ghost use Rattle.monitor.specs.Placement.{lowest};
ghost use Rattle.output.specs.Listings.{Says};
ghost use Rattle.output.specs.Said.{said};
ghost use Rattle.output.specs.Monitors.{ByPlacement, ByContents, AnswersMonitors};

use crate::answer::{Answer, answer_of};
use crate::failure::Failure;
use crate::listing::Listing;
use crate::races::told;
use detect::report;
use event::{Event, Letter};
use monitor::Level;
use sink::Lines;
use source::EventList;
use std::alloc::{AllocError, Global};
use trace::Trace;

// Checks the monitors of a list, and reports their overlaps with room for 3,000 lines. The table has a level for each thread and variable that counts
// can declare: it is lent, as all tables are, and takes no heap.
fn overlaps_of(heap: Global, list: &EventList<'_>) -> Result<Vec<u8>, Failure>
    ensures { Says vec_items (ByPlacement list.now.counts (listed list.now) (lowest list.now.counts (listed list.now))) result }
{
    let mut levels = [Level::None; 4096];
    let mut lines = [0; 63000];
    let mut sink = Lines::new(&mut lines);
    let totals = report(list, &mut levels, &mut sink)?;
    told(heap, sink.back(), totals)
}

// The overlaps of a trace's monitors. There is room for 4,096 events.
pub struct Overlaps;

impl Listing for Overlaps {
    ghost lists = { ByContents };

    fn list(heap: Global, t: &Trace<'_>) -> Result<Vec<u8>, Failure> {
        // What the table holds before it is used; it is lent to the list, and takes no heap.
        let unused = Event {
            place: 0,
            thread: 0,
            letter: Letter::Read,
            number: 0,
            region: 0,
        };
        let mut table = [unused; 4096];
        let mut list = EventList::new(t.counts(), &mut table);
        list.copy_from(&mut t.events())?;
        overlaps_of(heap, &list)
    }
}

// The overlaps of the monitors in the trace file in `input`, or why it is refused.
pub fn list_overlaps(heap: Global, input: &[u8]) -> Result<Answer, AllocError>
    ensures { IfOk result (λ a. AnswersMonitors input.now (said a)) }
{
    answer_of::<Overlaps>(heap, input)
}
