// A clock: for each thread a number.
ghost use Rattle.std.specs.Prelude.{◌≡◌, length};

pub mod ticks;

#[derive(Clone, Copy)]
pub struct Clock {
    entries: [u32; 16],
    ghost wide: { length entries ≡ 16 },
}
