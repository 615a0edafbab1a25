// What takes findings, as many as it has room for.
ghost use Rattle.std.specs.Prelude.{◌≡◌, ℕ, ◌≤◌, is_err, Decides};
ghost use Rattle.sink.specs.Taking.{Takes, taking};
ghost use Rattle.sink.specs.declared.pair.Pair.{Pair};

use crate::pair::Pair;
use event::CallerFault;

pub trait Sink {
    // How many it can take.
    ghost capacity: { Self → ℕ };

    // How many it has taken.
    ghost taken: { Self → ℕ };

    ghost fits: { (s : Self) → taken s ≤ capacity s };

    // What a sink of this kind keeps of what it has taken, and how that changes with each pair.
    ghost Record: { Type 0 };

    ghost log: { Self → Record };

    ghost step: { Record → Pair → Record };

    fn capacity(&self) -> usize
        ensures { result ≡ capacity self.now };

    fn taken(&self) -> usize
        ensures { result ≡ taken self.now };

    // Refused exactly where it has taken its capacity.
    fn take(&mut self, pair: Pair) -> Result<(), CallerFault>
        ensures { Takes capacity taken log step self.old self.new pair result };
}

// A refusal says that the sink is full, and a full sink refuses.
pub fn refuses_when_full<S: Sink>(sink: &S)
    ensures { Decides (is_err (taking (S.Sink.capacity sink.now) (S.Sink.taken sink.now))) (S.Sink.taken sink.now ≡ S.Sink.capacity sink.now) }
{}
