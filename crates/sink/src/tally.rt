// A counter for each variable.
ghost use Rattle.std.specs.Prelude.{◌≡◌, ℕ, ◌<◌, ◌≤◌, length, slice_index};

pub mod counting;

// No counter passes the number of all pairs taken, so none overflows while that has room.
#[derive(Drop)]
pub struct Tally {
    counters: [u32; 256],
    taken: u32,
    ghost few: { taken ≤ 4294967295 },
    ghost wide: { length counters ≡ 256 },
    ghost each: { (k : ℕ) → k < 256 → slice_index counters k ≤ taken },
}
