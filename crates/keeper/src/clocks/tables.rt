// What a making and an event do to the tables of the clocks.
ghost use Rattle.std.specs.Prelude.{◌≡◌, [], length, IfOk};
ghost use Rattle.stamp.specs.Clocks.{zeros, later, tick};
ghost use Rattle.stamp.specs.Slots.{slots, starting};
ghost use Rattle.stamp.specs.Tables.{cleared, stamp_after, threads_after, objects_after};
ghost use Rattle.event.specs.Answers.{answered};
ghost use Rattle.keeper.specs.Kept.{clocks_counts, clocks_told};

use crate::clocks::Clocks;
use crate::plain::PlainCounts;
use event::{CallerFault, Counts, Event, Intake};
use stamp::slots::slot_of;
use stamp::tables::{acquire, copy_out, release, start, write_back};
use stamp::{Clock, Stamp};

impl<'a> Clocks<'a> {
    // Making a keeper is a first clearing, refused alike.
    pub fn new(
        counts: Counts,
        threads: &'a mut [Clock],
        objects: &'a mut [Clock],
    ) -> Result<Clocks<'a>, CallerFault>
        ensures answer { answered result ≡ starting counts (length threads.old) (length objects.old) }
        ensures counts { IfOk result (λ k. clocks_counts k ≡ counts) }
        ensures told { IfOk result (λ k. clocks_told k []) }
        ensures threads { IfOk result (λ k. k.threads.now ≡ cleared counts.threads zeros threads.old) }
        ensures objects { IfOk result (λ k. k.objects.now ≡ cleared (slots counts) zeros objects.old) }
    {
        start(counts, threads, objects)?;
        Ok(Clocks {
            plain: PlainCounts::new(counts),
            told: Intake::new(),
            threads,
            objects,
        })
    }

    // The clock of the event's thread after the event.
    fn clock_after(&self, e: Event) -> Clock
        ensures { result ≡ stamp_after later zeros (clocks_counts self.now) self.now.threads.now self.now.objects.now e (tick e) }
    {
        let before = copy_out(self.threads, usize::from(e.thread));
        let slot = slot_of(self.plain.counts(), e.acquires());
        acquire(self.objects, slot, before).join(Clock::tick(e))
    }

    // Carries an event through both tables. By a rule of the project (docs/DECISIONS.md, "The clocks carry") the keeper, which holds both, copies the
    // thread's clock out, calls the parts of the stamps' text, each of which takes one table, and writes the clock back.
    pub(super) fn carry(&mut self, e: Event)
        ensures threads { self.new.threads.now ≡ threads_after later zeros (clocks_counts self.old) self.old.threads.now self.old.objects.now e (tick e) }
        ensures objects { self.new.objects.now ≡ objects_after later zeros (clocks_counts self.old) self.old.threads.now self.old.objects.now e (tick e) }
        ensures plain { self.new.plain ≡ self.old.plain }
        ensures told { self.new.told ≡ self.old.told }
    {
        let clock = self.clock_after(e);
        let slot = slot_of(self.plain.counts(), e.releases());
        release(self.objects, slot, clock);
        write_back(self.threads, usize::from(e.thread), clock);
    }
}
