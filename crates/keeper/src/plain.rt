// Counts as a keeper holds them, beside the tables that it is lent.
ghost use Rattle.std.specs.Prelude.{◌≡◌};
ghost use Rattle.keeper.specs.Kept.{counts_of};

use event::Counts;

// The toolchain proves no function with a `Result` of a struct that holds both a `&mut` and a struct with a ghost field, as `Clocks::new`
// would be, or a caller's own that makes a walk or starts a run with one. So the three numbers stand here by themselves. They mean the counts
// within the limits that are nearest to them.
// `new` and `counts` are the two ways between them, public calls with their clauses.
#[derive(Clone, Copy)]
pub struct PlainCounts {
    threads: usize,
    objects: usize,
    variables: usize,
}

impl PlainCounts {
    pub fn new(counts: Counts) -> PlainCounts
        ensures { counts_of result ≡ counts }
    {
        PlainCounts {
            threads: counts.threads(),
            objects: counts.objects(),
            variables: counts.variables(),
        }
    }

    pub fn counts(&self) -> Counts
        ensures { result ≡ counts_of self.now }
    {
        Counts::nearest(self.threads, self.objects, self.variables)
    }
}
