// The events of a trace that are still to come.
ghost use Rattle.std.specs.Prelude.{ℕ, ◌+◌, ◌*◌, ◌≤◌, length};

use event::Counts;

pub mod feeding;

// The bytes of those events, and the place of the next.
#[derive(Clone, Copy)]
pub struct Events<'a> {
    rest: &'a [u8],
    counts: Counts,
    place: u32,
    ghost few: { 6 * place + length rest.now ≤ 6000000 },
}
