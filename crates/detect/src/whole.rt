// A whole run.
ghost use Rattle.std.specs.Prelude.{◌≡◌, length, drop, IfOk, OnErr};
ghost use Rattle.event.specs.Answers.{answered};
ghost use Rattle.detect.specs.Table.{size, starting};
ghost use Rattle.detect.specs.Whole.{Whole};

use crate::run::Run;
use crate::run::start::clear_for;
use crate::totals::Totals;
use event::{CallerFault, Event};
use keeper::Keeper;
use sink::Sink;
use source::Source;

// Runs over a source's events, at most `budget` of them, and offers what it finds to a sink.
// Refused where the table of latest accesses is too small, and then where the keeper refuses to be cleared; a refusal changes nothing.
// What the entries of the table that the counts use hold afterwards is left open; the others stay.
pub fn run_all<S: Source, K: Keeper, O: Sink>(
    source: &mut S,
    keeper: &mut K,
    latest: &mut [Option<Event>],
    sink: &mut O,
    budget: usize,
) -> Result<Totals, CallerFault>
    ensures answer { answered result ≡ starting (S.Source.counts source.old) (length latest.old) (K.Keeper.lacks keeper.old (S.Source.counts source.old)) }
    ensures ran { IfOk result (λ t. Whole S.Source K.Keeper O.Sink budget source.old source.new keeper.old keeper.new sink.old sink.new t) }
    ensures spare { drop (size (S.Source.counts source.old)) latest.new ≡ drop (size (S.Source.counts source.old)) latest.old }
    ensures kept { OnErr result ((source.new ≡ source.old) × (keeper.new ≡ keeper.old) × (latest.new ≡ latest.old) × (sink.new ≡ sink.old)) }
{
    let counts = source.counts();
    clear_for(counts, keeper, latest)?;
    let mut run = Run::new(source, keeper, latest, sink);
    run.go(budget);
    run.end();
    Ok(run.totals())
}
