// What a keeper of the order of events is.
ghost use Rattle.std.specs.Prelude.{◌≡◌, ℕ, List, Option};
ghost use Rattle.event.specs.declared.counts.Counts.{Counts};
ghost use Rattle.event.specs.declared.record.Event.{Event};
ghost use Rattle.keeper.specs.Meaning.{Clears, Tells, Asks};
ghost use Rattle.keeper.specs.Telling.{Fits};

use event::{CallerFault, Counts, Event};

// A keeper need not store the events, so every rule is for each list that it may have been told. After a clearing the empty list is one.
pub trait Keeper {
    ghost counts: { Self → Counts };

    // How many events it can be told.
    ghost capacity: { Self → ℕ };

    // The size needed of the first of its tables that is too small for counts, where one is.
    ghost lacks: { Self → Counts → Option ℕ };

    // The lists of events that it may have been told.
    ghost told: { Self → List Event → Type 0 };

    // They are sound, and no longer than the capacity.
    ghost fits: { (k : Self) (es : List Event) → told k es → Fits (counts k) (capacity k) es };

    fn counts(&self) -> Counts
        ensures { result ≡ counts self.now };

    fn capacity(&self) -> usize
        ensures { result ≡ capacity self.now };

    // Takes new counts, and forgets what it was told.
    fn clear(&mut self, fresh: Counts) -> Result<(), CallerFault>
        ensures clears { Clears counts capacity lacks told self.old self.new fresh result };

    fn tell(&mut self, e: Event) -> Result<(), CallerFault>
        ensures tells { Tells counts capacity lacks told self.old self.new e result };

    // The entry of the thread t for the thread u.
    fn ask(&self, t: usize, u: usize) -> Result<u32, CallerFault>
        ensures { Asks counts capacity lacks told self.now t u result };
}
