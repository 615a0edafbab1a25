// The events of a list in memory, handed out one by one.
ghost use Rattle.std.specs.Prelude.{◌≡◌, length};
ghost use Rattle.event.proofs.Sounds.{sound_held};
ghost use Rattle.source.specs.Listed.{listed};

use crate::list::{EventList, ListEvents};
use crate::source::{Measured, Source};
use event::{Counts, Event};

impl EventList<'_> {
    // The list's events from the first on, as often as they are asked for.
    pub fn events(&self) -> ListEvents<'_>
        ensures counts { result.counts ≡ self.now.counts }
        ensures events { result.events.now ≡ listed self.now }
    {
        ListEvents {
            counts: self.counts,
            events: self.as_slice(),
        }
    }
}

impl Source for ListEvents<'_> {
    ghost counts = { λ s. s.counts };

    ghost rest = { λ s. s.events.now };

    ghost sound = { λ s. sound_held s.counts s.events.now s.sound };

    fn counts(&self) -> Counts {
        self.counts
    }

    fn next(&mut self) -> Option<Event> {
        let (e, rest) = self.events.split_first()?;
        self.events = rest;
        Some(*e)
    }
}

impl Measured for ListEvents<'_> {
    fn remaining(&self) -> usize {
        self.events.len()
    }
}
