// The table of latest accesses, which the caller lends.
ghost use Rattle.std.specs.Prelude.{◌≡◌, None, slice_index_or};
ghost use Rattle.detect.specs.Table.{size, slot};

use event::{Counts, Event, Letter};

// How many entries a table needs: for each variable and each thread the latest write and the latest read.
pub fn size(counts: Counts) -> usize
    ensures { result ≡ size counts }
{
    2 * counts.threads() * counts.variables()
}

// Where the latest access of a thread to a variable stands: its write, and right behind it its read.
pub(crate) fn slot(counts: Counts, letter: Letter, thread: u8, variable: u16) -> usize
    ensures { result ≡ slot counts letter thread variable }
{
    let pair = usize::from(variable) * counts.threads() + usize::from(thread);
    match letter {
        Letter::Write => 2 * pair,
        _ => 2 * pair + 1,
    }
}

// The access at a place of a table, none past its end.
pub(crate) fn look_up(table: &[Option<Event>], place: usize) -> Option<Event>
    ensures { result ≡ slice_index_or table.now place None }
{
    table.get(place).copied().flatten()
}
