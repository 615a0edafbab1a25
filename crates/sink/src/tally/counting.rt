// How pairs are counted.
ghost use Rattle.std.specs.Prelude.{◌≡◌, ℕ, List, replicate};
ghost use Rattle.std.specs.List.{slice_get};
ghost use Rattle.sink.specs.Tallied.{most, one_more};

use crate::pair::Pair;
use crate::sink::Sink;
use crate::tally::Tally;
use event::CallerFault;

impl Tally {
    // Every counter at 0.
    pub fn new() -> Tally
        ensures counters { result.counters ≡ replicate 256 0 }
        ensures taken { result.taken ≡ 0 }
    {
        Tally {
            counters: [0; 256],
            taken: 0,
        }
    }

    // How often the variable was counted, if there is a counter for it.
    pub fn count(&self, variable: u16) -> Option<u32>
        ensures { result ≡ slice_get self.now.counters variable }
    {
        self.counters.get(usize::from(variable)).copied()
    }
}

impl Sink for Tally {
    ghost capacity = { λ _. most };

    ghost taken = { λ s. s.taken };

    ghost fits = { λ s. s.few };

    ghost Record = { List ℕ };

    ghost log = { λ s. s.counters };

    ghost step = { one_more };

    fn capacity(&self) -> usize {
        u32::MAX as usize
    }

    fn taken(&self) -> usize {
        self.taken as usize
    }

    fn take(&mut self, pair: Pair) -> Result<(), CallerFault> {
        if self.taken == u32::MAX {
            return Err(CallerFault::Sink {
                capacity: u32::MAX as usize,
            });
        }
        self.taken += 1;
        self.counters[usize::from(pair.earlier.number) % 256] += 1;
        Ok(())
    }
}
