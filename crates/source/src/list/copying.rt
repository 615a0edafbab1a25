// A list that is made from a source.
ghost use Rattle.std.specs.Prelude.{◌≡◌, ◌≤◌, [], length, is_ok, if◌then◌else◌};
ghost use Rattle.source.specs.Listed.{listed, held, refilled, capacity, room_for};

use crate::list::EventList;
use crate::source::{Measured, Source};
use event::{CallerFault, Counts};

impl EventList<'_> {
    // Takes the source's counts and its events in place of the list's own, unless these are more than the table can hold: then nothing changes.
    pub fn copy_from<S: Measured>(&mut self, source: &mut S) -> Result<(), CallerFault>
        ensures answer { result ≡ room_for (capacity self.old) (S.Source.rest source.old) }
        ensures list { held self.new ≡ (if is_ok result then refilled (held self.old) (S.Source.counts source.old) (S.Source.rest source.old) else held self.old) }
        ensures spent { S.Source.rest source.new ≡ (if is_ok result then [] else S.Source.rest source.old) }
        ensures keeps { S.Source.counts source.new ≡ S.Source.counts source.old }
    {
        let capacity = self.capacity();
        if source.remaining() > capacity {
            return Err(CallerFault::Full { capacity });
        }
        self.clear(source.counts());
        self.append_all(source);
        Ok(())
    }

    // The empty list with these counts.
    fn clear(&mut self, counts: Counts)
        ensures { held self.new ≡ refilled (held self.old) counts [] }
    {
        self.counts = counts;
        self.len = 0;
    }

    // Appends all that a source has to the empty list with its counts.
    fn append_all<S: Source>(&mut self, source: &mut S)
        requires counts { self.old.counts ≡ S.Source.counts source.old }
        requires empty { listed self.old ≡ [] }
        requires room { length (S.Source.rest source.old) ≤ capacity self.old }
        ensures list { held self.new ≡ refilled (held self.old) self.old.counts (S.Source.rest source.old) }
        ensures spent { S.Source.rest source.new ≡ [] }
        ensures keeps { S.Source.counts source.new ≡ S.Source.counts source.old }
    {
        while let Some(e) = source.next() {
            self.append(e);
        }
    }
}
