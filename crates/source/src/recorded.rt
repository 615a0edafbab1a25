// The events of a trace file are a source.
ghost use Rattle.trace.specs.Feed.{coming};
ghost use Rattle.trace.proofs.Soundness.{coming_sound};

use crate::source::{Measured, Source};
use event::{Counts, Event};
use trace::Events;

impl<'a> Source for Events<'a> {
    ghost counts = { λ s. s.counts };

    ghost rest = { coming };

    ghost sound = { coming_sound };

    fn counts(&self) -> Counts {
        self.counts()
    }

    fn next(&mut self) -> Option<Event> {
        <Events<'_> as Iterator>::next(self)
    }
}

// Counted by going over the bytes once.
impl<'a> Measured for Events<'a> {
    fn remaining(&self) -> usize {
        (*self).count()
    }
}
