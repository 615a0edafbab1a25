// The answer of the program `races`.
ghost use Rattle.std.specs.Prelude.{◌≡◌, ◌*◌, ◌≤◌, ◌++◌, length, take, IfOk, vec_items};
ghost use Rattle.output.specs.Lines.{totals_text};
ghost use Rattle.output.specs.Said.{said};
ghost use Rattle.output.specs.Listings.{Says};
ghost use Rattle.output.specs.Words.{telling};
ghost use Rattle.output.specs.Races.{RacesListed, AnswersRaces};

use crate::answer::{Answer, answer_of};
use crate::failure::Failure;
use crate::lines::totals_line;
use crate::listing::Listing;
use detect::{Totals, run_all};
use keeper::Clocks;
use sink::Lines;
use stamp::{Clock, Stamp};
use std::alloc::{AllocError, Global};
use trace::Trace;

// The lines that were written, and the totals.
fn text_of(heap: Global, lines: &[u8], totals: Totals) -> Result<Vec<u8>, AllocError>
    requires { 21 * totals.written ≤ length lines.now }
    ensures { IfOk result (λ text. vec_items text ≡ take (21 * totals.written) lines.now ++ totals_text totals.found totals.written totals.dropped) }
{
    let line = totals_line(heap, totals)?;
    let mut text = Vec::new(heap);
    text.extend_from_slice(&lines[..21 * totals.written as usize])?;
    text.extend_from_slice(line.as_bytes())?;
    Ok(text)
}

// What is told of lines and totals. It is no refusal.
pub(crate) fn told(heap: Global, lines: &[u8], totals: Totals) -> Result<Vec<u8>, Failure>
    requires { 21 * totals.written ≤ length lines.now }
    ensures { Says vec_items (λ s. s ≡ telling (take (21 * totals.written) lines.now ++ totals_text totals.found totals.written totals.dropped)) result }
{
    text_of(heap, lines, totals).map_err(|_| Failure::Memory)
}

// The races of a trace's events, by a run with clocks, no filter and room for 3,000 lines.
pub struct Races;

impl Listing for Races {
    ghost lists = { λ c. RacesListed c.events };

    // The tables have the sizes that are enough for the counts of every trace. They are lent, as all tables are, and take no heap.
    fn list(heap: Global, t: &Trace<'_>) -> Result<Vec<u8>, Failure> {
        let mut threads = [Clock::LEAST; 16];
        let mut objects = [Clock::LEAST; 544];
        let mut latest = [None; 8192];
        let mut lines = [0; 63000];
        let mut keeper = Clocks::new(t.counts(), &mut threads, &mut objects)?;
        let mut sink = Lines::new(&mut lines);
        let totals = run_all(
            &mut t.events(),
            &mut keeper,
            &mut latest,
            &mut sink,
            1_000_000,
        )?;
        told(heap, sink.back(), totals)
    }
}

// The races of the trace file in `input`, or why it is refused.
pub fn list_races(heap: Global, input: &[u8]) -> Result<Answer, AllocError>
    ensures { IfOk result (λ a. AnswersRaces input.now (said a)) }
{
    answer_of::<Races>(heap, input)
}
