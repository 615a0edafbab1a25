// What the rules of threads and mutexes have to remember of the events so far.
ghost use Rattle.std.specs.Prelude.{◌≡◌, ℕ, length};

use event::Counts;
use format::kinds::Stage;

pub mod lock;
pub mod steps;

use crate::rules::lock::Lock;

// The stage of each thread, and each object's kind and holder. The arrays are fixed, since the reader has no heap.
#[derive(Clone, Copy)]
pub struct Rules {
    pub(crate) counts: Counts,
    pub(crate) stages: [Stage; 16],
    pub(crate) objects: [Lock; 512],
    ghost sizes: { (length stages ≡ 16) × (length objects ≡ 512) },
}
