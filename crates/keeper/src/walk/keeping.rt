// The walk as a keeper.
ghost use Rattle.std.specs.Prelude.{◌≡◌, [], is_ok, if◌then◌else◌, slice_set};
ghost use Rattle.keeper.specs.Kept.{walk_counts, walk_capacity, walk_lacks, walk_told};
ghost use Rattle.keeper.specs.Meaning.{Clears, Tells};

use crate::admit::declared;
use crate::keeper::Keeper;
use crate::plain::PlainCounts;
use crate::walk::Walk;
use crate::walk::back::entry;
use event::{CallerFault, Counts, Event, Intake};

impl<'a> Walk<'a> {
    // Making a keeper is a first clearing, and a walk has no table that depends on the counts: it is not refused.
    pub fn new(counts: Counts, events: &'a mut [Event]) -> Walk<'a>
        ensures counts { walk_counts result ≡ counts }
        ensures told { walk_told result [] }
        ensures events { result.events.now ≡ events.old }
    {
        Walk {
            plain: PlainCounts::new(counts),
            told: Intake::new(),
            events,
        }
    }
}

impl<'a> Keeper for Walk<'a> {
    ghost counts = { walk_counts };

    ghost capacity = { walk_capacity };

    ghost lacks = { walk_lacks };

    ghost told = { walk_told };

    ghost fits = { λ k es h. h.fits };

    fn counts(&self) -> Counts {
        self.plain.counts()
    }

    fn capacity(&self) -> usize {
        self.events.len()
    }

    // The lent list stays as it is.
    fn clear(&mut self, fresh: Counts) -> Result<(), CallerFault>
        ensures clears { Clears walk_counts walk_capacity walk_lacks walk_told self.old self.new fresh result }
        ensures events { self.new.events.now ≡ self.old.events.now }
    {
        self.plain = PlainCounts::new(fresh);
        self.told = Intake::new();
        Ok(())
    }

    // Writes the event behind those told.
    fn tell(&mut self, e: Event) -> Result<(), CallerFault>
        ensures tells { Tells walk_counts walk_capacity walk_lacks walk_told self.old self.new e result }
        ensures events { self.new.events.now ≡ (if is_ok result then slice_set self.old.events.now self.old.told.taken e else self.old.events.now) }
    {
        let n = self.told.taken;
        self.told.take(self.plain.counts(), self.events.len(), e)?;
        self.events[n] = e;
        Ok(())
    }

    fn ask(&self, t: usize, u: usize) -> Result<u32, CallerFault> {
        let counts = self.plain.counts();
        declared(counts, t, u)?;
        let n = self.told.taken.min(self.events.len());
        Ok(entry(counts, &self.events[..n], t, u))
    }
}
