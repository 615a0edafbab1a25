// The clocks as a keeper.
ghost use Rattle.std.specs.Prelude.{◌≡◌, is_ok, if◌then◌else◌};
ghost use Rattle.stamp.specs.Clocks.{later, zeros, tick};
ghost use Rattle.stamp.specs.Slots.{slots};
ghost use Rattle.stamp.specs.Tables.{cleared, threads_after, objects_after};
ghost use Rattle.keeper.specs.Kept.{clocks_counts, clocks_capacity, clocks_lacks, clocks_told};
ghost use Rattle.keeper.specs.Meaning.{Clears, Tells};

use crate::admit::declared;
use crate::clocks::Clocks;
use crate::keeper::Keeper;
use crate::plain::PlainCounts;
use event::intake::LAST_PLACE;
use event::{CallerFault, Counts, Event, Intake};
use stamp::tables::start;

// An event for each place.
const CAPACITY: usize = LAST_PLACE as usize + 1;

impl<'a> Keeper for Clocks<'a> {
    ghost counts = { clocks_counts };

    ghost capacity = { clocks_capacity };

    ghost lacks = { clocks_lacks };

    ghost told = { clocks_told };

    ghost fits = { λ k es h. h.fits };

    fn counts(&self) -> Counts {
        self.plain.counts()
    }

    fn capacity(&self) -> usize {
        CAPACITY
    }

    // Clears the entries that the counts use; the others stay.
    fn clear(&mut self, fresh: Counts) -> Result<(), CallerFault>
        ensures clears { Clears clocks_counts clocks_capacity clocks_lacks clocks_told self.old self.new fresh result }
        ensures threads { self.new.threads.now ≡ (if is_ok result then cleared fresh.threads zeros self.old.threads.now else self.old.threads.now) }
        ensures objects { self.new.objects.now ≡ (if is_ok result then cleared (slots fresh) zeros self.old.objects.now else self.old.objects.now) }
    {
        start(fresh, self.threads, self.objects)?;
        self.plain = PlainCounts::new(fresh);
        self.told = Intake::new();
        Ok(())
    }

    fn tell(&mut self, e: Event) -> Result<(), CallerFault>
        ensures tells { Tells clocks_counts clocks_capacity clocks_lacks clocks_told self.old self.new e result }
        ensures threads { self.new.threads.now ≡ (if is_ok result then threads_after later zeros (clocks_counts self.old) self.old.threads.now self.old.objects.now e (tick e) else self.old.threads.now) }
        ensures objects { self.new.objects.now ≡ (if is_ok result then objects_after later zeros (clocks_counts self.old) self.old.threads.now self.old.objects.now e (tick e) else self.old.objects.now) }
    {
        self.told.take(self.plain.counts(), CAPACITY, e)?;
        self.carry(e);
        Ok(())
    }

    fn ask(&self, t: usize, u: usize) -> Result<u32, CallerFault> {
        declared(self.plain.counts(), t, u)?;
        // The clock is read where it stands, and not copied out: a run asks at each access for each other thread.
        let Some(clock) = self.threads.get(t) else {
            return Ok(0);
        };
        Ok(clock.entry(u))
    }
}
