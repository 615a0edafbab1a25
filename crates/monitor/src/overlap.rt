// What two monitors that overlap name: on each side the lowest access that its level fits.
ghost use Rattle.std.specs.Prelude.{◌≡◌};
ghost use Rattle.monitor.specs.Overlaps.{fitting_access_of, by_place, paired, meeting_on, named};
ghost use Rattle.monitor.specs.Placement.{fits};

use crate::level::Level;
use crate::look::Look;
use crate::table::get;
use event::{Counts, Event};

// Whether the event is an access of the thread to the variable that fits the level.
fn fits(e: Event, thread: u8, variable: u16, level: Level) -> bool
    ensures { result ≡ fits e thread variable level }
{
    e.thread == thread && e.number == variable && level.suits(e.letter)
}

impl Look<'_> {
    // The lowest access of the thread to the variable that fits the level and has the moment in its region.
    fn fitting(self, variable: u16, level: Level) -> Option<Event>
        ensures { result ≡ fitting_access_of self.entry.events.now self.entry.moment self.entry.thread variable level }
    {
        self.span()
            .iter()
            .find(|e| fits(**e, self.thread, variable, level))
            .copied()
    }
}

// The same, and none behind the last moment. A caller has the events, the moment and the thread by themselves: a `Look` holds only what it can look at.
pub fn fitting_access(
    events: &[Event],
    moment: usize,
    thread: u8,
    variable: u16,
    level: Level,
) -> Option<Event>
    ensures { result ≡ fitting_access_of events.now moment thread variable level }
{
    if moment > events.len() {
        return None;
    }
    let look = Look {
        events,
        moment,
        thread,
    };
    look.fitting(variable, level)
}

// Two accesses, the earlier by place first.
fn by_place(a: Event, b: Event) -> (Event, Event)
    ensures { result ≡ by_place a b }
{
    if a.place < b.place { (a, b) } else { (b, a) }
}

// Two accesses, where there are two.
fn paired(a: Option<Event>, b: Option<Event>) -> Option<(Event, Event)>
    ensures { result ≡ paired a b }
{
    a.zip(b).map(|(a, b)| by_place(a, b))
}

// What the thread of a look and another name at its moment, where their levels on a variable meet.
fn met_on(
    own: Look<'_>,
    other: u8,
    variable: u16,
    level: Level,
    others: Level,
) -> Option<(Event, Event)>
    ensures { result ≡ meeting_on own.entry.events.now own.entry.moment own.entry.thread other variable level others }
{
    if other == own.thread || !level.meets(others) {
        return None;
    }
    let theirs = Look {
        events: own.events,
        moment: own.moment,
        thread: other,
    };
    paired(
        own.fitting(variable, level),
        theirs.fitting(variable, others),
    )
}

// What the event at an index and another thread name, with the levels of the moment just after the event, which are read over a shared slice.
pub fn named(
    counts: Counts,
    events: &[Event],
    index: usize,
    other: u8,
    levels: &[Level],
) -> Option<(Event, Event)>
    ensures { result ≡ named counts events.now index other levels.now }
{
    let e = *events.get(index)?;
    let own = Look {
        events,
        moment: index + 1,
        thread: e.thread,
    };
    met_on(
        own,
        other,
        e.number,
        get(counts, levels, e.thread, e.number),
        get(counts, levels, other, e.number),
    )
}
