// Lines of text, each with its newline.
ghost use Rattle.std.specs.Prelude.{◌≡◌, IfOk, string_bytes};
ghost use Rattle.output.specs.Lines.{refusal_text, totals_text};

use detect::Totals;
use event::Filed;
use std::alloc::{AllocError, Global};

// A refusal by its number, layer and place, as `refused 9 layer 4 place 3`.
pub fn refusal_line(heap: Global, filed: Filed) -> Result<String, AllocError>
    ensures { IfOk result (λ s. string_bytes s ≡ refusal_text filed) }
{
    format!(in heap; "{filed}\n")
}

// The totals of a run, as `found 3 written 3 dropped 0`.
pub fn totals_line(heap: Global, totals: Totals) -> Result<String, AllocError>
    ensures { IfOk result (λ s. string_bytes s ≡ totals_text totals.found totals.written totals.dropped) }
{
    format!(in heap; "{totals}\n")
}
