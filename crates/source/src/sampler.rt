// Lets through the first accesses of each thread's every period, and every event that is no access.
ghost use Rattle.std.specs.Prelude.{◌≡◌, IfOk, MatchResult};
ghost use Rattle.std.specs.Result.{result_map_both};
ghost use Rattle.event.proofs.Sieving.{stopped};
ghost use Rattle.source.specs.Sampled.{AccessesAreNumberedByThread, counters_for, lets, sampled, sampled_by};

use crate::refusal::Refusal;
use crate::sieve::{Passing, Sieve};
use crate::source::Source;
use event::{CallerFault, Counts, Event};

// A burst, the last number of a period, and for each thread the number of its next access, taken down by the period.
#[derive(Clone, Copy)]
pub struct Counters {
    burst: u16,
    last: u16,
    next: [u16; 16],
}

impl Counters {
    // Every thread's numbers begin at 0.
    pub fn new(burst: u32, period: u32) -> Result<Counters, CallerFault>
        ensures { result ≡ counters_for burst period }
    {
        // A test and casts, and no `try_from`: the limit is a number that the promise names, and not what a type can hold.
        if burst < 1 || burst > period || period > 65_535 {
            return Err(CallerFault::Sampling);
        }
        Ok(Counters {
            burst: burst as u16,
            last: (period - 1) as u16,
            next: [0; 16],
        })
    }
}

impl Passing for Counters {
    ghost lets = { lets };

    ghost stops = { λ p _ e. stopped e _ };

    // Numbers the event if it is an access.
    fn let_through(&mut self, e: Event) -> bool {
        if !e.is_access() {
            return true;
        }
        let thread = usize::from(e.thread);
        let period = u32::from(self.last) + 1;
        let number = u32::from(self.next[thread]);
        self.next[thread] = ((number + 1) % period) as u16;
        number % period < u32::from(self.burst)
    }
}

// The source below without the accesses that are in no burst.
pub type Sampler<S> = Sieve<S, Counters>;

impl<S: Source> Sampler<S> {
    // Numbers the accesses that the source below hands out.
    pub fn new(below: S, burst: u32, period: u32) -> Result<Sampler<S>, Refusal<S>>
        ensures answer { result_map_both (λ p. p.passing) (λ x. x.fault) result ≡ counters_for burst period }
        ensures below { MatchResult result (λ p. p.below ≡ below) (λ x. x.below ≡ below) }
        ensures list { IfOk result (λ p. sampled_by p.passing (S.Source.rest p.below) ≡ sampled burst period (S.Source.rest below)) }
    {
        Sieve::over(below, Counters::new(burst, period))
    }
}

// Which accesses a sampler's list has, by the events before each of them.
pub fn accesses_are_numbered_by_thread()
    ensures { AccessesAreNumberedByThread }
{}
