// The events of a trace, one by one.
ghost use Rattle.std.specs.Prelude.{◌≡◌, ◌/◌, length, take};
ghost use Rattle.format.specs.Events.{got_events};
ghost use Rattle.trace.specs.Feed.{coming, Fed};
ghost use Rattle.std.specs.Iterator.{at_most};

use crate::event_bytes::event;
use crate::events::Events;
use event::{Counts, Event};

impl<'a> Iterator for Events<'a> {
    type Item = Event;

    ghost next_gives = { λ s r t. Fed s r t };

    ghost remaining = { λ s. at_most (length s.rest.now / 6) };

    fn next(&mut self) -> Option<Event> {
        let (bytes, after) = self.rest.split_first_chunk::<6>()?;
        let e = event(self.counts, self.place, bytes).ok()?;
        self.rest = after;
        self.place += 1;
        Some(e)
    }
}

impl<'a> Events<'a> {
    // The counts of the trace.
    pub fn counts(&self) -> Counts
        ensures { result ≡ self.now.counts }
    {
        self.counts
    }

    // The events of a block, from the first one on: no more than a file can have.
    pub(crate) fn starting(block: &'a [u8], counts: Counts) -> Events<'a>
        ensures counts { result.counts ≡ counts }
        ensures events { coming result ≡ got_events counts 0 (length (take 6000000 block.now) / 6) (take 6000000 block.now) }
    {
        let most = block.len().min(6_000_000);
        Events {
            rest: &block[..most],
            counts,
            place: 0,
        }
    }
}
