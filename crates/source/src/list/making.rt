// How a list of events is made, and what it answers.
ghost use Rattle.std.specs.Prelude.{◌≡◌, ◌<◌, [], ◌∷◌, ◌++◌, length, is_ok, if◌then◌else◌, Decides};
ghost use Rattle.std.specs.List.{slice_get};
ghost use Rattle.event.specs.Offers.{offered};
ghost use Rattle.event.specs.Thins.{Sound};
ghost use Rattle.source.specs.Listed.{listed, held, with_event, capacity};

use crate::list::EventList;
use event::{CallerFault, Counts, Event, Intake};

impl<'a> EventList<'a> {
    // The empty list, with room for as many events as the table has entries.
    pub fn new(counts: Counts, table: &'a mut [Event]) -> EventList<'a>
        ensures { held result ≡ record { lender = table.entry.ghost_name; counts = counts; events = []; entries = table.old } }
    {
        EventList {
            counts,
            table,
            len: 0,
        }
    }

    pub fn counts(&self) -> Counts
        ensures { result ≡ self.now.counts }
    {
        self.counts
    }

    pub fn len(&self) -> usize
        ensures { result ≡ length (listed self.now) }
    {
        self.len
    }

    pub fn capacity(&self) -> usize
        ensures { result ≡ capacity self.now }
    {
        self.table.len()
    }

    pub fn get(&self, index: usize) -> Option<Event>
        ensures { result ≡ slice_get (listed self.now) index }
    {
        self.as_slice().get(index).copied()
    }

    pub fn as_slice(&self) -> &[Event]
        ensures { result.now ≡ listed self.now }
    {
        &self.table[..self.len]
    }

    // Appends the event, unless it is refused: then nothing changes.
    // It is taken exactly if the list with it is sound and there is room.
    pub fn push(&mut self, e: Event) -> Result<(), CallerFault>
        ensures answer { result ≡ offered self.old.counts (capacity self.old) (listed self.old) e }
        ensures exactly { Decides (is_ok result) (Sound self.old.counts (listed self.old ++ e ∷ []) × (length (listed self.old) < capacity self.old)) }
        ensures list { held self.new ≡ (if is_ok result then with_event (held self.old) e else held self.old) }
    {
        self.check(e)?;
        self.append(e);
        Ok(())
    }

    // Appends an event that may come next.
    pub(super) fn append(&mut self, e: Event)
        requires room { length (listed self.old) < capacity self.old }
        requires sound { Sound self.old.counts (listed self.old ++ e ∷ []) }
        ensures { held self.new ≡ with_event (held self.old) e }
    {
        self.table[self.len] = e;
        self.len += 1;
    }

    // Whether the event may come next.
    fn check(&self, e: Event) -> Result<(), CallerFault>
        ensures { result ≡ offered self.now.counts (capacity self.now) (listed self.now) e }
    {
        let last = self.as_slice().last().map(|f| f.place);
        let taken = Intake {
            taken: self.len,
            last,
        };
        taken.admit(self.counts, self.table.len(), e)
    }
}
