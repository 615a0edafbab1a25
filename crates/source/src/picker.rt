// Lets through accesses to picked variables, and every event that is no access.
ghost use Rattle.std.specs.Prelude.{◌≡◌, IfOk, MatchResult};
ghost use Rattle.std.specs.Result.{result_map_both};
ghost use Rattle.event.proofs.Sieving.{stopped};
ghost use Rattle.source.specs.Picked.{picks_for, passes, picked};

use crate::refusal::Refusal;
use crate::sieve::{Passing, Sieve};
use crate::source::Source;
use event::{CallerFault, Counts, Event};

// A byte for each variable, 0 where it is not picked. The copy has room for the most variables, and takes no heap.
#[derive(Clone, Copy)]
pub struct Picks {
    bytes: [u8; 256],
}

impl Picks {
    // A copy of the first bytes, one for each variable.
    pub fn new(counts: Counts, bytes: &[u8]) -> Result<Picks, CallerFault>
        ensures { result ≡ picks_for counts.variables bytes.now }
    {
        let variables = counts.variables();
        let first = bytes
            .get(..variables)
            .ok_or(CallerFault::Table { size: variables })?;
        let mut own = [0; 256];
        own[..variables].copy_from_slice(first);
        Ok(Picks { bytes: own })
    }
}

impl Passing for Picks {
    ghost lets = { λ p _ e. passes p.bytes e };

    ghost stops = { λ p _ e. stopped e _ };

    fn let_through(&mut self, e: Event) -> bool {
        !e.is_access() || self.bytes[usize::from(e.number)] != 0
    }
}

// The source below without the accesses to variables that are not picked.
pub type Picker<S> = Sieve<S, Picks>;

impl<S: Source> Picker<S> {
    // Keeps a copy of the bytes, one for each variable of the source below.
    pub fn new(below: S, bytes: &[u8]) -> Result<Picker<S>, Refusal<S>>
        ensures answer { result_map_both (λ p. p.passing) (λ x. x.fault) result ≡ picks_for (S.Source.counts below).variables bytes.now }
        ensures below { MatchResult result (λ p. p.below ≡ below) (λ x. x.below ≡ below) }
        ensures list { IfOk result (λ p. picked p.passing.bytes (S.Source.rest p.below) ≡ picked bytes.now (S.Source.rest below)) }
    {
        let picks = Picks::new(below.counts(), bytes);
        Sieve::over(below, picks)
    }
}
