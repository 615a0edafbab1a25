// The test that every keeper makes of a question.
ghost use Rattle.std.specs.Prelude.{◌≡◌};
ghost use Rattle.keeper.specs.Telling.{undeclared, unless};

use event::{CallerFault, Counts};

// Whether both threads are declared.
pub fn declared(counts: Counts, t: usize, u: usize) -> Result<(), CallerFault>
    ensures { result ≡ unless (undeclared counts t u) tt }
{
    if t >= counts.threads() {
        return Err(CallerFault::Thread { thread: t });
    }
    if u >= counts.threads() {
        return Err(CallerFault::Thread { thread: u });
    }
    Ok(())
}
