// A lent table of levels: one entry for each thread and variable, thread by thread.
ghost use Rattle.std.specs.Prelude.{◌≡◌, length, slice_index_or};
ghost use Rattle.monitor.specs.declared.level.Level.TheVariants.{None as none};
ghost use Rattle.monitor.specs.Overlaps.{raises};
ghost use Rattle.monitor.specs.Tables.{size, slot, cleared, stepped, room};
ghost use Rattle.monitor.specs.Lent.{LeftWith};

use crate::level::Level;
use event::{CallerFault, Counts, Event, table};

// How many entries the counts need.
pub fn size(counts: Counts) -> usize
    ensures { result ≡ size counts }
{
    counts.threads() * counts.variables()
}

// The entry of a thread and a variable.
pub fn slot(counts: Counts, thread: u8, variable: u16) -> usize
    ensures { result ≡ slot counts thread variable }
{
    usize::from(thread) * counts.variables() + usize::from(variable)
}

// Refuses a table that is too small for the counts, by three lines as at each other table: a function for them would be no shorter at its calls.
pub fn room(counts: Counts, levels: usize) -> Result<(), CallerFault>
    ensures { result ≡ room counts levels }
{
    let size = size(counts);
    if levels < size {
        return Err(CallerFault::Table { size });
    }
    Ok(())
}

// The level of a thread on a variable, none past the table's end. Reading asks for no more than a shared slice, so it stands apart from `Levels`.
pub fn get(counts: Counts, levels: &[Level], thread: u8, variable: u16) -> Level
    ensures { result ≡ slice_index_or levels.now (slot counts thread variable) none }
{
    levels
        .get(slot(counts, thread, variable))
        .copied()
        .unwrap_or(Level::None)
}

// The levels of all threads, which change from event to event: the table, and the counts that say where its entries stand.
#[derive(Drop)]
pub struct Levels<'t> {
    pub counts: Counts,
    pub table: &'t mut [Level],
}

impl Levels<'_> {
    // Makes the entries that the counts use none; the others stay.
    pub fn clear(&mut self)
        ensures { LeftWith self.old self.new (cleared self.old.counts self.old.table.now) }
    {
        table::clear(self.table, size(self.counts), Level::None);
    }

    // The level of a thread on a variable, none past the table's end.
    pub fn get(&self, thread: u8, variable: u16) -> Level
        ensures { result ≡ slice_index_or self.now.table.now (slot self.now.counts thread variable) none }
    {
        get(self.counts, self.table, thread, variable)
    }

    // What an event does to the level of its thread on its variable.
    pub fn step(&mut self, e: Event)
        ensures { LeftWith self.old self.new (stepped self.old.counts self.old.table.now e) }
    {
        let level = self.get(e.thread, e.number).after(e.letter);
        table::set(self.table, slot(self.counts, e.thread, e.number), level);
    }

    // The same, and whether the level rises.
    pub fn step_up(&mut self, e: Event) -> bool
        ensures levels { LeftWith self.old self.new (stepped self.old.counts self.old.table.now e) }
        ensures rises { result ≡ raises self.old.counts e self.old.table.now self.new.table.now }
    {
        let before = self.get(e.thread, e.number);
        self.step(e);
        before < self.get(e.thread, e.number)
    }
}
