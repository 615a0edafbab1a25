// The overlaps of monitors, as findings.
ghost use Rattle.std.specs.Prelude.{◌≡◌, ◌<◌, [], length, IfOk, OnErr};
ghost use Rattle.event.specs.Thins.{Sound};
ghost use Rattle.source.specs.Listed.{listed};
ghost use Rattle.monitor.specs.Checks.{checked, Judged, left};
ghost use Rattle.monitor.specs.Overlaps.{event_at, reported};
ghost use Rattle.monitor.specs.Lent.{LeftWith};
ghost use Rattle.monitor.specs.Tables.{stepped, tabled};
ghost use Rattle.event.specs.Answers.{answered};
ghost use Rattle.detect.specs.Meetings.{if_named, named_by, if_raised, Reports};
ghost use Rattle.detect.specs.Offers.{none, Offering};

use crate::totals::Totals;
use event::Event;
use monitor::overlap::named;
use monitor::table::Levels;
use monitor::{Level, PlacementFault, check};
use sink::Sink;
use source::EventList;

// Offers two accesses, where they are named and can be a finding. The sink is the caller's and the totals are the report's own, so no struct has both.
fn offer_named<O: Sink>(two: Option<(Event, Event)>, sink: &mut O, totals: &mut Totals)
    ensures { Offering O.Sink sink.old totals.old (if_named two) sink.new totals.new }
{
    if let Some((earlier, later)) = two {
        totals.find(sink, earlier, later);
    }
}

// Offers what the event at an index and each other thread name, in rising order, with the levels of the moment just after the event.
fn against_all<O: Sink>(
    levels: &Levels<'_>,
    events: &[Event],
    index: usize,
    sink: &mut O,
    totals: &mut Totals,
)
    ensures { Offering O.Sink sink.old totals.old (named_by levels.now.counts events.now index levels.now.table.now levels.now.counts.threads) sink.new totals.new }
{
    // A thread is its number: there is no list of them to go over.
    let threads = levels.counts.threads() as u8;
    for other in 0..threads {
        let two = named(levels.counts, events, index, other, levels.table);
        offer_named(two, sink, totals);
    }
}

// Follows the levels over the event at an index, and offers what it gives if it is a rise.
fn over<O: Sink>(
    levels: &mut Levels<'_>,
    events: &[Event],
    index: usize,
    sink: &mut O,
    totals: &mut Totals,
)
    requires { index < length events.now }
    ensures levels { LeftWith levels.old levels.new (stepped levels.old.counts levels.old.table.now (event_at events.now index)) }
    ensures offers { Offering O.Sink sink.old totals.old (if_raised levels.old.counts events.now index levels.old.table.now levels.new.table.now) sink.new totals.new }
{
    if levels.step_up(events[index]) {
        against_all(levels, events, index, sink, totals);
    }
}

// Follows the levels from event to event, and offers what each rise gives. The levels are left as they are after the last event.
fn each_rise<O: Sink>(levels: &mut Levels<'_>, events: &[Event], sink: &mut O) -> Totals
    requires sound { Sound levels.old.counts events.now }
    requires clear { levels.old.table.now ≡ tabled levels.old.counts [] levels.old.table.now }
    ensures levels { LeftWith levels.old levels.new (tabled levels.old.counts events.now levels.old.table.now) }
    ensures offers { Offering O.Sink sink.old none (reported levels.old.counts events.now) sink.new result }
{
    let mut totals = Totals::none();
    // By index: what a rise gives is looked for at its index, among all events.
    for i in 0..events.len() {
        over(levels, events, i, sink, &mut totals);
    }
    totals
}

// Checks the placement of the monitors, refused like the check itself, and then offers their overlaps to a sink: each rise of a level that meets the
// level of another thread. A refusal gives the sink nothing.
pub fn report<O: Sink>(
    list: &EventList<'_>,
    levels: &mut [Level],
    sink: &mut O,
) -> Result<Totals, PlacementFault>
    ensures answer { answered result ≡ checked list.now.counts (listed list.now) (length levels.old) }
    ensures exact { Judged list.now.counts (listed list.now) (length levels.old) (answered result) }
    ensures levels { levels.new ≡ left list.now.counts (listed list.now) levels.old }
    ensures reports { IfOk result (λ t. Reports O.Sink list.now.counts (listed list.now) sink.old sink.new t) }
    ensures kept { OnErr result (sink.new ≡ sink.old) }
{
    check(list, levels)?;
    let counts = list.counts();
    let mut lent = Levels {
        counts,
        table: levels,
    };
    lent.clear();
    Ok(each_rise(&mut lent, list.as_slice(), sink))
}
