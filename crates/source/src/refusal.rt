// A filter that is refused gives back the source that it was to stand on.
ghost use Rattle.std.specs.Prelude.{◌≡◌};

use event::CallerFault;

#[derive(Drop)]
pub struct Refusal<S> {
    pub below: S,
    pub fault: CallerFault,
}

// So that `?` goes on with the fault. The source is let go.
impl<S: Drop> From<Refusal<S>> for CallerFault {
    ghost from_gives = { λ x r. r ≡ x.fault };

    fn from(refusal: Refusal<S>) -> CallerFault {
        refusal.fault
    }
}
