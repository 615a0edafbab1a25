// Clocks as stamps.
ghost use Rattle.std.specs.Prelude.{◌≡◌, slice_index};
ghost use Rattle.stamp.specs.Clocks.{NoLater, later, zeros, tick, TellsEntry};
ghost use Rattle.stamp.specs.ClocksLemmas.{clock_laws};

use crate::clock::Clock;
use crate::kind::Stamp;
use event::{Event, table};

impl Stamp for Clock {
    ghost below = { NoLater };

    ghost joined = { later };

    ghost LEAST = { zeros };

    const LEAST: Clock = Clock { entries: [0; 16] };

    ghost lawful = { clock_laws };

    fn join(self, other: Clock) -> Clock {
        let mut entries = self.entries;
        // With `array::from_fn` the proof does not close: it says of each result that some call gave it, and not what the closure then held. Over a `zip` of
        // both the loop's invariant cannot speak of the entries, which are lent to the iterator.
        for (i, entry) in entries.iter_mut().enumerate() {
            *entry = (*entry).max(other.entries[i]);
        }
        Clock { entries }
    }
}

impl Clock {
    // What an event contributes: one more than its place, in its own thread's entry.
    pub fn tick(e: Event) -> Clock
        ensures { result ≡ tick e }
    {
        let mut entries = [0; 16];
        table::set(
            &mut entries,
            usize::from(e.thread),
            e.place.saturating_add(1),
        );
        Clock { entries }
    }

    // The number for a thread, 0 past the sixteenth. Where the clock is what the events behind a thread give, that is the thread's entry.
    pub fn entry(&self, thread: usize) -> u32
        ensures value { result ≡ slice_index self.now.entries thread }
        ensures entry { TellsEntry self.now thread result }
    {
        self.entries.get(thread).copied().unwrap_or(0)
    }
}
