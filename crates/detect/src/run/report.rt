// What a run reports at an access. Each part says apart what it leaves alone and what it offers: the one holds always, the other of what the keeper was told.
ghost use Rattle.std.specs.Prelude.{◌≡◌, ◌<◌, true, List, [], ◌∷◌, ◌++◌, None, slice_index_or};
ghost use Rattle.event.specs.declared.record.Event.{Event};
ghost use Rattle.event.specs.Thins.{access};
ghost use Rattle.finds.specs.Found.{against_one, against_below};
ghost use Rattle.keeper.specs.Meaning.{Asks};
ghost use Rattle.order.specs.Marks.{entry};
ghost use Rattle.detect.specs.Reports.{unless_below, Offers, Aside, Ready};
ghost use Rattle.detect.specs.Table.{slot};

use super::Run;
use crate::finding::is_write;
use crate::latest;
use event::{CallerFault, Event, Letter};
use keeper::Keeper;
use sink::Sink;
use source::Source;

impl<'s, 'k, 'l, 'o, S: Source, K: Keeper, O: Sink> Run<'s, 'k, 'l, 'o, S, K, O> {
    // Reports a later event against an access, unless that is among the places below `known`, which lead to it.
    fn against(&mut self, known: u32, access: Option<Event>, later: Event)
        ensures aside { Aside O.Sink self.old self.new }
        ensures offers { Offers O.Sink self.old (unless_below known later access) self.new }
    {
        if let Some(earlier) = access
            && known <= earlier.place
        {
            self.totals.find(self.sink, earlier, later);
        }
    }

    // The latest access of a thread to a variable.
    fn latest_of(&self, letter: Letter, thread: u8, variable: u16) -> Option<Event>
        ensures { result ≡ slice_index_or self.now.latest.now (slot (S.Source.counts self.now.source.now) letter thread variable) None }
    {
        let counts = self.source.counts();
        latest::look_up(self.latest, latest::slot(counts, letter, thread, variable))
    }

    // How much of another thread leads to a thread's latest event, as the keeper has it.
    fn entry_of(&self, thread: u8, other: u8) -> Result<u32, CallerFault>
        ensures { Asks K.Keeper.counts K.Keeper.capacity K.Keeper.lacks K.Keeper.told self.now.keeper.now thread other result }
    {
        self.keeper.ask(usize::from(thread), usize::from(other))
    }

    // Reports an access that was just told against another thread: against its latest write, and then, if the access writes, its latest read.
    fn against_thread(&mut self, thread: u8, later: Event)
        ensures aside { Aside O.Sink self.old self.new }
        ensures offers { (T : List Event) → Ready S.Source K.Keeper self.old T later → access later ≡ true → thread < (S.Source.counts self.old.source.now).threads → Offers O.Sink self.old (against_one (entry (T ++ later ∷ []) later.thread thread) T later thread) self.new }
    {
        if thread == later.thread {
            return;
        }
        let Ok(known) = self.entry_of(later.thread, thread) else {
            return;
        };
        let write = self.latest_of(Letter::Write, thread, later.number);
        self.against(known, write, later);
        if is_write(later.letter) {
            let read = self.latest_of(Letter::Read, thread, later.number);
            self.against(known, read, later);
        }
    }

    // Reports an access that was just told against each other thread in rising order.
    pub(super) fn against_all(&mut self, later: Event)
        ensures aside { Aside O.Sink self.old self.new }
        ensures offers { (T : List Event) → Ready S.Source K.Keeper self.old T later → access later ≡ true → Offers O.Sink self.old (against_below (S.Source.counts self.old.source.now).threads T later) self.new }
    {
        // A thread is its number: there is no list of them to go over.
        let threads = self.source.counts().threads() as u8;
        for thread in 0..threads {
            self.against_thread(thread, later);
        }
    }
}
