// The start of a run.
ghost use Rattle.std.specs.Prelude.{◌≡◌, false, [], length, IfOk, None, OnErr, OnOk};
ghost use Rattle.event.specs.declared.counts.Counts.{Counts};
ghost use Rattle.event.specs.Answers.{answered};
ghost use Rattle.detect.specs.Offers.{none};
ghost use Rattle.detect.specs.Steps.{Going};
ghost use Rattle.event.specs.Tables.{cleared};
ghost use Rattle.detect.specs.Table.{size, starting};
ghost use Rattle.detect.specs.Whole.{ClearsFor};

use super::{Run, Totals};
use crate::latest;
use event::{CallerFault, Counts, Event, table};
use keeper::Keeper;
use sink::Sink;
use source::Source;

// Clears a keeper, and the entries of a table that the counts use. The table is tested, by three lines as at each other table, before the keeper is cleared,
// and a refusal changes nothing.
pub(crate) fn clear_for<K: Keeper>(
    counts: Counts,
    keeper: &mut K,
    latest: &mut [Option<Event>],
) -> Result<(), CallerFault>
    ensures answer { result ≡ starting counts (length latest.old) (K.Keeper.lacks keeper.old counts) }
    ensures cleared { OnOk result (ClearsFor K.Keeper counts keeper.old keeper.new latest.old latest.new) }
    ensures kept { OnErr result ((keeper.new ≡ keeper.old) × (latest.new ≡ latest.old)) }
{
    let size = latest::size(counts);
    if latest.len() < size {
        return Err(CallerFault::Table { size });
    }
    keeper.clear(counts)?;
    table::clear(latest, size, None);
    Ok(())
}

impl<'s, 'k, 'l, 'o, S: Source, K: Keeper, O: Sink> Run<'s, 'k, 'l, 'o, S, K, O> {
    // A run that has found nothing yet.
    pub(crate) fn new(
        source: &'s mut S,
        keeper: &'k mut K,
        latest: &'l mut [Option<Event>],
        sink: &'o mut O,
    ) -> Run<'s, 'k, 'l, 'o, S, K, O>
        ensures lent { (result.source ≡ source.entry) × (result.keeper ≡ keeper.entry) × (result.latest ≡ latest.entry) × (result.sink ≡ sink.entry) }
        ensures nothing { (result.totals ≡ none) × (result.ended ≡ false) }
    {
        Run {
            source,
            keeper,
            latest,
            sink,
            totals: Totals::none(),
            ended: false,
        }
    }

    // Clears the keeper with the source's counts, and the table of latest accesses. Refused where the table is too small, and then where the keeper refuses.
    pub fn start(
        source: &'s mut S,
        keeper: &'k mut K,
        latest: &'l mut [Option<Event>],
        sink: &'o mut O,
    ) -> Result<Run<'s, 'k, 'l, 'o, S, K, O>, CallerFault>
        ensures answer { answered result ≡ starting (S.Source.counts source.old) (length latest.old) (K.Keeper.lacks keeper.old (S.Source.counts source.old)) }
        ensures going { IfOk result (λ x. Going S.Source K.Keeper x []) }
        ensures keeper { IfOk result (λ x. (K.Keeper.capacity x.keeper.now ≡ K.Keeper.capacity keeper.old) × ((c : Counts) → K.Keeper.lacks x.keeper.now c ≡ K.Keeper.lacks keeper.old c)) }
        ensures latest { IfOk result (λ x. x.latest.now ≡ cleared (size (S.Source.counts source.old)) None latest.old) }
        ensures lent { IfOk result (λ x. (x.source.now ≡ source.old) × (x.sink.now ≡ sink.old)) }
        ensures nothing { IfOk result (λ x. (x.totals ≡ none) × (x.ended ≡ false)) }
    {
        let counts = source.counts();
        clear_for(counts, keeper, latest)?;
        Ok(Run::new(source, keeper, latest, sink))
    }
}
