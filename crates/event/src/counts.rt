// How many threads, objects and variables a trace declares.
ghost use Rattle.std.specs.Prelude.{ℕ, ◌≤◌};

pub mod ranges;

// 1 to 16 threads, at most 512 objects and at most 256 variables.
#[derive(Clone, Copy, PartialEq, Eq, Debug)]
pub struct Counts {
    threads: usize,
    objects: usize,
    variables: usize,
    ghost limits: { (1 ≤ threads) × (threads ≤ 16) × (objects ≤ 512) × (variables ≤ 256) },
}
