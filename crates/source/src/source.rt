// What hands out the events of a trace, one by one.
ghost use Rattle.std.specs.Prelude.{◌≡◌, List, length};
ghost use Rattle.event.specs.Thins.{Sound};
ghost use Rattle.event.specs.declared.counts.Counts.{Counts};
ghost use Rattle.event.specs.declared.record.Event.{Event};
ghost use Rattle.source.specs.Handed.{Handed};

use event::{Counts, Event};

pub trait Source {
    // The counts of the trace.
    ghost counts: { Self → Counts };

    // The events still to come.
    ghost rest: { Self → List Event };

    ghost sound: { (s : Self) → Sound (counts s) (rest s) };

    fn counts(&self) -> Counts
        ensures { result ≡ counts self.now };

    // The first of the events still to come, which is then gone.
    // It is no `Iterator`'s `next`: its clauses say for each source what is handed out, where an `Iterator` would say it by a law that each user cites.
    fn next(&mut self) -> Option<Event>
        ensures hands { Handed (rest self.old) (rest self.new) result }
        ensures keeps { counts self.new ≡ counts self.old };
}

// A source that knows how many events are still to come.
pub trait Measured: Source {
    fn remaining(&self) -> usize
        ensures { result ≡ length (Self.Source.rest self.now) };
}
