// A sink that is lent is a sink.
use crate::pair::Pair;
use crate::sink::Sink;
use event::CallerFault;

impl<S: Sink> Sink for &mut S {
    ghost capacity = { λ s. S.Sink.capacity s.now };

    ghost taken = { λ s. S.Sink.taken s.now };

    ghost fits = { λ s. S.Sink.fits s.now };

    ghost Record = { S.Sink.Record };

    ghost log = { λ s. S.Sink.log s.now };

    ghost step = { S.Sink.step };

    fn capacity(&self) -> usize {
        (**self).capacity()
    }

    fn taken(&self) -> usize {
        (**self).taken()
    }

    fn take(&mut self, pair: Pair) -> Result<(), CallerFault> {
        (**self).take(pair)
    }
}
