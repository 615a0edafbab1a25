// A set of threads, one bit each.
ghost use Rattle.std.specs.Prelude.{◌≡◌, count_ones};
ghost use Rattle.stamp.specs.Reaching.{Subset, union, nobody, only, CountsThreads};
ghost use Rattle.stamp.specs.ReachingLemmas.{reach_laws};

use crate::kind::Stamp;

#[derive(Clone, Copy, PartialEq, Eq, Debug)]
pub struct Reach {
    members: u16,
}

impl Stamp for Reach {
    ghost below = { Subset };

    ghost joined = { union };

    ghost LEAST = { nobody };

    const LEAST: Reach = Reach { members: 0 };

    ghost lawful = { reach_laws };

    fn join(self, other: Reach) -> Reach {
        Reach {
            members: self.members | other.members,
        }
    }
}

impl Reach {
    // What an event contributes: its thread, where the set has a bit for it.
    pub fn only(thread: u8) -> Reach
        ensures { result ≡ only thread }
    {
        if thread < 16 {
            Reach {
                members: 1 << thread,
            }
        } else {
            Reach::LEAST
        }
    }

    // How many threads are in the set. Where it is what the events behind a thread give, that is how many threads have an event behind it.
    pub fn size(self) -> u32
        ensures value { result ≡ count_ones self.members }
        ensures threads { CountsThreads self result }
    {
        self.members.count_ones()
    }
}
