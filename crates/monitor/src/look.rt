// A look at all variables of one thread at one moment. An access of the thread has that moment in its region exactly if no release of the
// thread stands between the access and the moment, and no acquire of it between the moment and the access.
ghost use Rattle.std.specs.Prelude.{◌≡◌, ◌≤◌, ◌&&◌, length, replicate};
ghost use Rattle.monitor.specs.declared.level.Level.TheVariants.{None as none};
ghost use Rattle.monitor.specs.Regions.{acquires_of, releases_of, after_last, before_first};
ghost use Rattle.monitor.specs.Looks.{can_uncover, span, marks_of, raised, row_bare, thread_bare};

use crate::level::Level;
use crate::table::Levels;
use event::{Event, Letter, table};

// Whether a moment that was covered before the event can be uncovered after it.
fn may_uncover(e: Event) -> bool
    ensures { result ≡ can_uncover e }
{
    e.releases().is_some()
        || matches!(
            e.letter,
            Letter::Strong | Letter::Weak | Letter::Downgrade | Letter::Stop
        )
}

// One more than the index of the thread's last release, or 0.
fn after_last_release(events: &[Event], thread: u8) -> usize
    ensures value { result ≡ after_last (releases_of thread) events.now }
    ensures within { result ≤ length events.now }
{
    events
        .iter()
        .rposition(|e| e.thread == thread && e.releases().is_some())
        .map_or(0, |i| i + 1)
}

// The index of the thread's first acquire, or the number of events.
fn before_first_acquire(events: &[Event], thread: u8) -> usize
    ensures value { result ≡ before_first (acquires_of thread) events.now }
    ensures within { result ≤ length events.now }
{
    events
        .iter()
        .position(|e| e.thread == thread && e.acquires().is_some())
        .unwrap_or(events.len())
}

// One thread at one moment: moment k is after the first k events.
#[derive(Clone, Copy)]
pub(crate) struct Look<'e> {
    pub(crate) events: &'e [Event],
    pub(crate) moment: usize,
    pub(crate) thread: u8,
    ghost within: { moment ≤ length events.now },
}

impl<'e> Look<'e> {
    // The events among which each access of the thread has the moment in its region, and no other access of it has.
    pub(crate) fn span(self) -> &'e [Event]
        ensures { result.now ≡ span self.entry.events.now self.entry.thread self.entry.moment }
    {
        let from = after_last_release(&self.events[..self.moment], self.thread);
        let to = self.moment + before_first_acquire(&self.events[self.moment..], self.thread);
        &self.events[from..to]
    }

    // Whether the thread holds a level at the moment that no access covers.
    fn is_bare(self, levels: &Levels<'_>) -> bool
        ensures { result ≡ thread_bare levels.now.counts self.entry.events.now self.entry.moment self.entry.thread levels.now.table.now }
    {
        // A mark for each variable that counts can declare, without a heap.
        let mut marks = [Level::None; 256];
        mark_all(&mut marks, self.span(), self.thread);
        is_row_bare(levels, self.thread, &marks)
    }

    // Whether the event just before the moment uncovers it.
    pub(crate) fn uncovered_by(self, e: Event, levels: &Levels<'_>) -> bool
        ensures { result ≡ (can_uncover e && thread_bare levels.now.counts self.entry.events.now self.entry.moment self.entry.thread levels.now.table.now) }
    {
        may_uncover(e) && self.is_bare(levels)
    }
}

// Raises the mark of a variable to a level.
fn raise(marks: &mut [Level], variable: u16, level: Level)
    ensures { marks.new ≡ raised marks.old variable level }
{
    let v = usize::from(variable);
    let mark = marks.get(v).copied().unwrap_or(Level::None);
    table::set(marks, v, mark.max(level));
}

// For each variable the highest level that an access of the thread fits.
fn mark_all(marks: &mut [Level], events: &[Event], thread: u8)
    requires { marks.old ≡ replicate 256 none }
    ensures { marks.new ≡ marks_of thread events.now }
{
    for e in events {
        if e.thread == thread {
            raise(marks, e.number, Level::worth(e.letter));
        }
    }
}

// Whether a level of the thread is above the mark of its variable.
fn is_row_bare(levels: &Levels<'_>, thread: u8, marks: &[Level]) -> bool
    requires { 256 ≤ length marks.now }
    ensures { result ≡ row_bare levels.now.counts levels.now.table.now thread marks.now }
{
    // A variable is its number, in the marks and in the table.
    (0..levels.counts.variables()).any(|v| marks[v] < levels.get(thread, v as u16))
}
