// The steps of a run.
ghost use Rattle.std.specs.Prelude.{◌≡◌, true, false, []};
ghost use Rattle.detect.specs.Steps.{Going, Keeps, Passes, Stepped, Stops};
ghost use Rattle.detect.specs.Whole.{Goes};

use super::{Run, Step, Totals};
use crate::latest;
use event::{Event, table};
use keeper::Keeper;
use sink::Sink;
use source::Source;

impl<'s, 'k, 'l, 'o, S: Source, K: Keeper, O: Sink> Run<'s, 'k, 'l, 'o, S, K, O> {
    // Reports an event that was just told, if it is an access, and notes it as the latest of its kind.
    fn pass(&mut self, event: Event)
        ensures { Passes S.Source K.Keeper O.Sink self.old self.new event }
    {
        if event.is_access() {
            self.against_all(event);
            let counts = self.source.counts();
            let slot = latest::slot(counts, event.letter, event.thread, event.number);
            table::set(self.latest, slot, Some(event));
        }
    }

    // Takes the source's next event, tells it to the keeper, and reports it. The run ends where there is none, or the keeper refuses it.
    pub fn step(&mut self) -> Step
        ensures keeps { Keeps S.Source K.Keeper O.Sink self.old self.new }
        ensures did { Stepped S.Source K.Keeper O.Sink self.old self.new result }
    {
        if self.ended {
            return Step::Ended;
        }
        let Some(event) = self.source.next() else {
            self.ended = true;
            return Step::Ended;
        };
        if let Err(fault) = self.keeper.tell(event) {
            self.ended = true;
            return Step::Refused(fault);
        }
        self.pass(event);
        Step::Told
    }

    // Steps till the run ends, at most so many times.
    pub(crate) fn go(&mut self, budget: usize)
        ensures keeps { Keeps S.Source K.Keeper O.Sink self.old self.new }
        ensures goes { Going S.Source K.Keeper self.old [] → self.old.ended ≡ false → Goes S.Source K.Keeper O.Sink budget self.old self.new }
    {
        for _turn in 0..budget {
            let Step::Told = self.step() else {
                return;
            };
        }
    }

    // Ends the run: it takes no further event.
    pub fn end(&mut self)
        ensures { Stops self.old self.new × (self.new.source ≡ self.old.source) }
    {
        self.ended = true;
    }

    // What an ended run came to. Asking a run that has not ended fails the proof.
    pub fn totals(&self) -> Totals
        requires { self.now.ended ≡ true }
        ensures { result ≡ self.now.totals }
    {
        self.totals
    }
}
