// A program's whole answer to its input.
ghost use Rattle.std.specs.Prelude.{◌≡◌, IfOk, vec_items};
ghost use Rattle.output.specs.Inputs.{Answers};
ghost use Rattle.output.specs.Listings.{Says};
ghost use Rattle.output.specs.Said.{said};
ghost use Rattle.output.specs.Words.{refusing};

use crate::failure::Failure;
use crate::lines::refusal_line;
use crate::listing::Listing;
use event::{CallerFault, Filed};
use std::alloc::{AllocError, Global};
use trace::read;

// The text to print: a list, or the line of a refusal.
// No `Result`: both are answers, printed alike, and neither is a failure of the call. That fails where memory runs out.
#[derive(Drop)]
pub enum Answer {
    Listed(Vec<u8>),
    Refused(String),
}

// The longest input that a program takes.
pub const LONGEST: usize = 65536;

impl Answer {
    // The line of a refusal.
    pub fn refusal(heap: Global, filed: Filed) -> Result<Answer, AllocError>
        ensures { IfOk result (λ a. said a ≡ refusing filed) }
    {
        Ok(Answer::Refused(refusal_line(heap, filed)?))
    }

    pub fn text(&self) -> &[u8]
        ensures { result.now ≡ (said self.now).text }
    {
        match self {
            Answer::Listed(text) => text,
            Answer::Refused(line) => line.as_bytes(),
        }
    }

    pub fn is_refused(&self) -> bool
        ensures { result ≡ (said self.now).refused }
    {
        matches!(self, Answer::Refused(_))
    }
}

// The list of the trace file in an input. An input that is too long is refused, and then one that is no trace file.
fn listed<L: Listing>(heap: Global, input: &[u8]) -> Result<Vec<u8>, Failure>
    ensures { Says vec_items (Answers L.Listing.lists input.now) result }
{
    if input.len() > LONGEST {
        return Err(Failure::from(CallerFault::Table { size: LONGEST + 1 }));
    }
    let t = read(input)?;
    L::list(heap, &t)
}

// The list of the trace file in an input, or why it is refused.
pub fn answer_of<L: Listing>(heap: Global, input: &[u8]) -> Result<Answer, AllocError>
    ensures { IfOk result (λ a. Answers L.Listing.lists input.now (said a)) }
{
    match listed::<L>(heap, input) {
        Ok(text) => Ok(Answer::Listed(text)),
        Err(Failure::Refused(filed)) => Answer::refusal(heap, filed),
        Err(Failure::Memory) => Err(AllocError),
    }
}
