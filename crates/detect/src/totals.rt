// What became of findings.
ghost use Rattle.std.specs.Prelude.{◌≡◌, Some};
ghost use Rattle.detect.specs.Offers.{none, shown, Offering};
ghost use Rattle.detect.specs.Reports.{if_conflicting};

use crate::finding::Finding;
use event::Event;
use sink::Sink;
use std::fmt;

// How many findings there were, how many of them a sink has taken and how many were given up.
#[derive(Clone, Copy, PartialEq, Eq, Debug, Default)]
pub struct Totals {
    pub found: u64,
    pub written: u64,
    pub dropped: u64,
}

// As `found 3 written 3 dropped 0`.
impl fmt::Display for Totals {
    ghost output = { λ t. Some (shown t) };

    fn fmt<W: fmt::Write>(&self, f: &mut fmt::Formatter<W>) -> fmt::Result {
        write!(
            f,
            "found {} written {} dropped {}",
            self.found, self.written, self.dropped
        )
    }
}

impl Totals {
    // No finding yet.
    pub fn none() -> Totals
        ensures { result ≡ none }
    {
        Totals::default()
    }

    // Finds the two events, if they can be a finding, offers that to a sink, and gives it up only where the sink refuses it.
    pub(crate) fn find<O: Sink>(&mut self, sink: &mut O, earlier: Event, later: Event)
        ensures { Offering O.Sink sink.old self.old (if_conflicting earlier later) sink.new self.new }
    {
        let Some(mut finding) = Finding::between(earlier, later) else {
            return;
        };
        self.found = self.found.saturating_add(1);
        match finding.offer(sink) {
            Ok(()) => self.written = self.written.saturating_add(1),
            Err(_) => finding.give_up(&mut self.dropped),
        }
    }
}
