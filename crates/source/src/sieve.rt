// The filters: a test over a source, which says which of the source's events pass.
ghost use Rattle.std.specs.Prelude.{◌≡◌, Bool, false, List, [], ◌∷◌, MatchResult, refl};
ghost use Rattle.std.specs.Result.{result_map_both};
ghost use Rattle.event.specs.Order.{Access};
ghost use Rattle.event.specs.Sieves.{sieved};
ghost use Rattle.event.specs.Thins.{Placed};
ghost use Rattle.event.specs.declared.counts.Counts.{Counts};
ghost use Rattle.event.specs.declared.record.Event.{Event};
ghost use Rattle.event.proofs.Sieving.{sieved_sound, sieved_thins};

use crate::filter::Filter;
use crate::refusal::Refusal;
use crate::source::Source;
use event::{CallerFault, Counts, Event};

// A test of one event after the other, which may go by those before.
pub(crate) trait Passing {
    // Whether an event passes that comes after these.
    ghost lets: { Self → List Event → Event → Bool };

    // Only an access can fail.
    ghost stops: { (p : Self) (past : List Event) (e : Event) → lets p past e ≡ false → Access e };

    // Tests an event that some trace can have, and goes on behind it.
    fn let_through(&mut self, e: Event) -> bool
        requires { (c : Counts) × Placed c e }
        ensures lets { result ≡ lets self.old [] e }
        ensures goes_on { (past : List Event) (f : Event) → lets self.old (e ∷ past) f ≡ lets self.new past f };
}

#[derive(Drop)]
pub struct Sieve<S, P> {
    below: S,
    passing: P,
}

impl<S, P> Sieve<S, P> {
    // The filter of this test, or the source given back with the fault. Each filter's own `new` promises that too, of its own bytes or numbers.
    // Both arms take the source, so that no `map` and `map_err` can have it.
    pub(crate) fn over(below: S, passing: Result<P, CallerFault>) -> Result<Sieve<S, P>, Refusal<S>>
        ensures answer { result_map_both (λ p. p.passing) (λ x. x.fault) result ≡ passing }
        ensures below { MatchResult result (λ p. p.below ≡ below) (λ x. x.below ≡ below) }
    {
        match passing {
            Ok(passing) => Ok(Sieve { below, passing }),
            Err(fault) => Err(Refusal { below, fault }),
        }
    }
}

impl<S: Source, P: Passing> Source for Sieve<S, P> {
    ghost counts = { λ s. S.Source.counts s.below };

    ghost rest = { λ s. sieved (P.lets s.passing) [] (S.Source.rest s.below) };

    ghost sound = { λ s. sieved_sound (S.Source.counts s.below) (P.lets s.passing) (P.stops s.passing) [] (S.Source.rest s.below) (S.Source.sound s.below) };

    fn counts(&self) -> Counts {
        self.below.counts()
    }

    fn next(&mut self) -> Option<Event> {
        while let Some(e) = self.below.next() {
            if self.passing.let_through(e) {
                return Some(e);
            }
        }
        None
    }
}

impl<S: Source, P: Passing> Filter for Sieve<S, P> {
    type Below = S;

    ghost under = { λ s. s.below };

    ghost thins = { λ s. sieved_thins (P.lets s.passing) (P.stops s.passing) [] (S.Source.rest s.below) };

    ghost same = { λ s. refl };
}
