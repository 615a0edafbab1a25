// What a kind of stamp is.
ghost use Rattle.std.specs.Prelude.{◌≡◌};
ghost use Rattle.order.specs.Stamps.{Laws};
ghost use Rattle.order.specs.Theorems.{StampsSumUp};

// An order with a join that is built upon it, and a least stamp.
pub trait Stamp: Copy {
    ghost below: { Self → Self → Type 0 };

    ghost joined: { Self → Self → Self };

    ghost LEAST: { Self };

    const LEAST: Self;

    // The constant, where a call is wanted.
    fn lowest() -> Self
        ensures { result ≡ LEAST }
    {
        Self::LEAST
    }

    fn join(self, other: Self) -> Self
        ensures { result ≡ joined self other };

    ghost lawful: { Laws below joined LEAST };
}

// The theorem behind the tables: after any list of events with rising places, carried from thread to thread through objects, a thread's
// stamp is the least upper bound of the contributions of all events with a chain to its latest one.
pub fn stamps_sum_up<S: Stamp>()
    ensures { StampsSumUp S.Stamp.below S.Stamp.joined S.Stamp.LEAST }
{}
