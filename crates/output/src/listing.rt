// What a program lists of a trace.
ghost use Rattle.std.specs.Prelude.{vec_items};
ghost use Rattle.format.specs.Trace.{Contents};
ghost use Rattle.trace.specs.Whole.{contents_of, Laid};
ghost use Rattle.output.specs.Words.{Said};
ghost use Rattle.output.specs.Listings.{Says};

use crate::failure::Failure;
use std::alloc::Global;
use trace::Trace;

pub trait Listing {
    // What may be said of a trace with these contents.
    ghost lists: { Contents → Said → Type 0 };

    // Of a trace that was read from a file.
    fn list(heap: Global, t: &Trace<'_>) -> Result<Vec<u8>, Failure>
        ensures { Laid t.now → Says vec_items (lists (contents_of t.now)) result };
}
