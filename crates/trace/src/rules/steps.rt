// Whether an event keeps the rules, and what it changes.
ghost use Rattle.std.specs.Prelude.{◌≡◌, true};
ghost use Rattle.event.specs.Ranges.{in_range};
ghost use Rattle.format.specs.Parse.{map_ok};
ghost use Rattle.trace.specs.Standing.{standing_of, kinds_in, holders_in};
ghost use Rattle.format.specs.Standings.{is_running, stage_at, lives, lived, locks, locked, stepped, fresh};

use crate::rules::Rules;
use crate::rules::lock::Lock;
use event::{Counts, Event, Letter};
use format::fault::OrderFault;
use format::kinds::Stage;

// An event that is judged or followed is one that the counts of these rules declare. That ties two values, so no type of either says it.
impl Rules {
    // Thread 0 runs, and the others are unborn. The objects are as they are given.
    pub(crate) fn new(counts: Counts, objects: [Lock; 512]) -> Rules
        ensures counts { result.counts ≡ counts }
        ensures objects { result.objects ≡ objects }
        ensures stages { result.stages ≡ fresh.stages }
    {
        let mut stages = [Stage::Unborn; 16];
        stages[0] = Stage::Running;
        Rules {
            counts,
            stages,
            objects,
        }
    }

    fn runs(&self, e: Event) -> bool
        requires { in_range self.now.counts e ≡ true }
        ensures { result ≡ is_running (stage_at self.now.stages e.thread) }
    {
        self.stages[usize::from(e.thread)] == Stage::Running
    }

    // Whether the event keeps the rule of thread life.
    fn lives(&self, e: Event) -> bool
        requires { in_range self.now.counts e ≡ true }
        ensures { result ≡ lives self.now.stages e }
    {
        let number = usize::from(e.number);
        match e.letter {
            Letter::Begin => number == usize::from(e.thread)
                && self.stages[number] == Stage::Forked,
            Letter::End => number == usize::from(e.thread) && self.runs(e),
            Letter::Fork => self.runs(e) && self.stages[number] == Stage::Unborn,
            Letter::Join => self.runs(e) && self.stages[number] == Stage::Ended,
            _ => self.runs(e),
        }
    }

    // Whether the event keeps the mutex rule.
    fn locks(&self, e: Event) -> bool
        requires { in_range self.now.counts e ≡ true }
        ensures { result ≡ locks (kinds_in self.now) (holders_in self.now) e }
    {
        match e.letter {
            Letter::Acquire => self.objects[usize::from(e.number)].is_open(),
            Letter::Release => self.objects[usize::from(e.number)].is_open_to(e.thread),
            _ => true,
        }
    }

    // The stages after the event.
    fn live(&mut self, e: Event)
        requires { in_range self.old.counts e ≡ true }
        ensures stages { self.new.stages ≡ lived self.old.stages e }
        ensures rest { (self.new.counts ≡ self.old.counts) × (self.new.objects ≡ self.old.objects) }
    {
        match e.letter {
            Letter::Begin => self.stages[usize::from(e.thread)] = Stage::Running,
            Letter::End => self.stages[usize::from(e.thread)] = Stage::Ended,
            Letter::Fork => self.stages[usize::from(e.number)] = Stage::Forked,
            _ => {}
        }
    }

    // The holders after the event.
    fn lock(&mut self, e: Event)
        requires { in_range self.old.counts e ≡ true }
        ensures holders { holders_in self.new ≡ locked (holders_in self.old) e }
        ensures rest { (self.new.counts ≡ self.old.counts) × (kinds_in self.new ≡ kinds_in self.old) × (self.new.stages ≡ self.old.stages) }
    {
        match e.letter {
            Letter::Acquire => self.objects[usize::from(e.number)].holder = Some(e.thread),
            Letter::Release => self.objects[usize::from(e.number)].holder = None,
            _ => {}
        }
    }

    // One event more, or the rule that it breaks: thread life is judged first.
    pub(crate) fn step(&mut self, e: Event) -> Result<(), OrderFault>
        requires { in_range self.old.counts e ≡ true }
        ensures standing { map_ok (λ _. standing_of self.new) result ≡ stepped (kinds_in self.old) (standing_of self.old) e }
        ensures rest { (self.new.counts ≡ self.old.counts) × (kinds_in self.new ≡ kinds_in self.old) }
    {
        let place = e.place as usize;
        if !self.lives(e) {
            return Err(OrderFault::Life { place });
        }
        if !self.locks(e) {
            return Err(OrderFault::Mutex { place });
        }
        self.live(e);
        self.lock(e);
        Ok(())
    }
}
