// What a sink is given of a finding.
use event::Event;

// Two accesses. A sink takes any two events: nothing is asked of them.
#[derive(Clone, Copy, PartialEq, Eq, Debug)]
pub struct Pair {
    pub earlier: Event,
    pub later: Event,
}
