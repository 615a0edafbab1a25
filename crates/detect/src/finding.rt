// A finding, which is owed until a sink has taken it or it is given up and counted.
ghost use Rattle.std.specs.Prelude.{◌≡◌, ◌<◌, ◌≤◌, true, false, ◌||◌, is_ok, if◌then◌else◌, Ok, MatchOption, ◌≢◌};
ghost use Rattle.finds.specs.Latest.{is_write_letter};
ghost use Rattle.sink.specs.Taking.{Takes};
ghost use Rattle.detect.specs.Offers.{counted};
ghost use Rattle.detect.specs.Pairs.{conflicting};

use event::intake::LAST_PLACE;
use event::{CallerFault, Event, Letter};
use sink::{Pair, Sink};

// Two accesses of one variable from two threads, one of them a write. It is not copied, and only this library makes one.
// Letting go of one that is still owed fails the proof.
pub struct Finding {
    pair: Pair,
    // Stays a flag: `offer` and `give_up` ask for no more than a `&mut`, a settled finding still has its pair, and `drop` requires that it is settled.
    owed: bool,
    ghost order: { pair.earlier.place < pair.later.place },
    ghost last: { pair.later.place ≤ 999999 },
    ghost apart: { pair.earlier.thread ≢ pair.later.thread },
    ghost written: { (is_write_letter pair.earlier.letter || is_write_letter pair.later.letter) ≡ true },
    ghost same: { pair.earlier.number ≡ pair.later.number },
    ghost small: { pair.later.number < 256 },
}

impl Drop for Finding {
    fn drop(self)
        requires { self.owed ≡ false }
    {
        let Finding { pair: _, owed: _ } = self;
    }
}

// Whether the letter is that of a write.
pub(crate) fn is_write(letter: Letter) -> bool
    ensures { result ≡ is_write_letter letter }
{
    letter == Letter::Write
}

// Whether the two events can be a finding. They are no `Pair` yet: that is what a sink is given.
fn is_conflicting(earlier: Event, later: Event) -> bool
    ensures { result ≡ conflicting earlier later }
{
    earlier.place < later.place
        && later.place <= LAST_PLACE
        && earlier.thread != later.thread
        && (is_write(earlier.letter) || is_write(later.letter))
        && earlier.number == later.number
        && later.number < 256
}

impl Finding {
    // The finding of two events, if they can be one.
    pub(crate) fn between(earlier: Event, later: Event) -> Option<Finding>
        ensures { MatchOption result (conflicting earlier later ≡ false) (λ f. (conflicting earlier later ≡ true) × (f.pair.earlier ≡ earlier) × (f.pair.later ≡ later) × (f.owed ≡ true)) }
    {
        if !is_conflicting(earlier, later) {
            return None;
        }
        let pair = Pair { earlier, later };
        Some(Finding { pair, owed: true })
    }

    // The two accesses.
    pub fn pair(&self) -> Pair
        ensures { result ≡ self.now.pair }
    {
        self.pair
    }

    // Whether it is still owed.
    pub fn is_owed(&self) -> bool
        ensures { result ≡ self.now.owed }
    {
        self.owed
    }

    // Offers the two accesses to a sink, and is settled if that takes them; else it is still owed. A settled finding is not offered again.
    pub fn offer<O: Sink>(&mut self, sink: &mut O) -> Result<(), CallerFault>
        ensures pair { self.new.pair ≡ self.old.pair }
        ensures settled { self.new.owed ≡ (if is_ok result then false else self.old.owed) }
        ensures takes { self.old.owed ≡ true → Takes O.Sink.capacity O.Sink.taken O.Sink.log O.Sink.step sink.old sink.new self.old.pair result }
        ensures again { self.old.owed ≡ false → (sink.new ≡ sink.old) × (result ≡ Ok tt) }
    {
        if self.owed {
            sink.take(self.pair)?;
            self.owed = false;
        }
        Ok(())
    }

    // Gives it up, and counts it as dropped, unless it is settled.
    pub fn give_up(&mut self, dropped: &mut u64)
        ensures pair { self.new.pair ≡ self.old.pair }
        ensures settled { self.new.owed ≡ false }
        ensures counts { dropped.new ≡ (if self.old.owed then counted dropped.old else dropped.old) }
    {
        if self.owed {
            *dropped = dropped.saturating_add(1);
            self.owed = false;
        }
    }
}
