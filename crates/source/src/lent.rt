// A source that is lent is a source.
use crate::source::{Measured, Source};
use event::{Counts, Event};

impl<S: Source> Source for &mut S {
    ghost counts = { λ s. S.Source.counts s.now };

    ghost rest = { λ s. S.Source.rest s.now };

    ghost sound = { λ s. S.Source.sound s.now };

    fn counts(&self) -> Counts {
        (**self).counts()
    }

    fn next(&mut self) -> Option<Event> {
        (**self).next()
    }
}

impl<S: Measured> Measured for &mut S {
    fn remaining(&self) -> usize {
        (**self).remaining()
    }
}
