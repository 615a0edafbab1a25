// What a program answers to its input.
ghost use Rattle.std.specs.Prelude.{IfOk};
ghost use Rattle.format.specs.Trace.{Contents};
ghost use Rattle.output.specs.Inputs.{Answers};
ghost use Rattle.output.specs.Monitors.{ByContents};
ghost use Rattle.output.specs.Races.{RacesListed};
ghost use Rattle.output.specs.Said.{said};
ghost use Rattle.output.specs.Words.{Said};

use crate::answer::{Answer, answer_of};
use crate::listing::Listing;
use crate::monitors::list_overlaps;
use crate::races::list_races;
use std::alloc::{AllocError, Global};

pub trait Answering {
    // What may be said of a trace file with these contents.
    ghost lists: { Contents → Said → Type 0 };

    // The list of the trace file in an input, or why it is refused.
    fn answer(heap: Global, input: &[u8]) -> Result<Answer, AllocError>
        ensures { IfOk result (λ a. Answers lists input.now (said a)) };
}

// Whatever lists a trace answers with its list.
impl<L: Listing> Answering for L {
    ghost lists = { L.Listing.lists };

    fn answer(heap: Global, input: &[u8]) -> Result<Answer, AllocError> {
        answer_of::<L>(heap, input)
    }
}

// The program `races` answers what `list_races` does.
pub struct ListRaces;

impl Answering for ListRaces {
    ghost lists = { λ c. RacesListed c.events };

    fn answer(heap: Global, input: &[u8]) -> Result<Answer, AllocError> {
        list_races(heap, input)
    }
}

// The program `monitors` answers what `list_overlaps` does.
pub struct ListOverlaps;

impl Answering for ListOverlaps {
    ghost lists = { ByContents };

    fn answer(heap: Global, input: &[u8]) -> Result<Answer, AllocError> {
        list_overlaps(heap, input)
    }
}
