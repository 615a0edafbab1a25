// Why nothing is listed.
ghost use Rattle.std.specs.Prelude.{◌≡◌};
ghost use Rattle.output.specs.declared.failure.Failure.TheVariants.{Refused};

use event::{Fault, Filed};

#[derive(Clone, Copy, PartialEq, Eq, Debug)]
pub enum Failure {
    Refused(Filed),
    // there is no memory for the text
    Memory,
}

// A fault of any kind is a refusal.
impl<F: Fault + Drop> From<F> for Failure {
    ghost from_gives = { λ fault r. r ≡ Refused (F.Fault.filing fault) };

    fn from(fault: F) -> Failure {
        Failure::Refused(fault.filed())
    }
}
