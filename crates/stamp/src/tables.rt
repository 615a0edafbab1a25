// Carrying stamps over lent tables, for any kind of stamp. `copy_out`, `write_back`, `acquire` and `release`, the parts, take one table each; `start` and
// `hand_in` take the two that the caller lends, and no struct holds both: lent tables stay the caller's.
ghost use Rattle.std.specs.Prelude.{◌≡◌, [], length, is_ok, if◌then◌else◌, OnOk, slice_index_or, slice_set};
ghost use Rattle.stamp.specs.Slots.{slots, starting, handing};
ghost use Rattle.stamp.specs.Tables.{cleared, Means, Adds, joined_in, joined_into, threads_after, objects_after};

use crate::kind::Stamp;
use crate::slots::{room, slot_of, slots, takes};
use event::{CallerFault, Counts, Event};

// Makes the first n stamps of a table the least.
pub fn clear<S: Stamp>(table: &mut [S], n: usize)
    ensures { table.new ≡ cleared n S.Stamp.LEAST table.old }
{
    event::table::clear(table, n, S::LEAST);
}

// The stamp at a place of a table, the least past its end.
pub fn copy_out<S: Stamp>(table: &[S], place: usize) -> S
    ensures { result ≡ slice_index_or table.now place S.Stamp.LEAST }
{
    table.get(place).copied().unwrap_or(S::LEAST)
}

// Writes a stamp to a place of a table, where it has that place.
pub fn write_back<S: Stamp>(table: &mut [S], place: usize, stamp: S)
    ensures { table.new ≡ slice_set table.old place stamp }
{
    event::table::set(table, place, stamp);
}

// An acquire joins the object's stamp into the thread's.
pub fn acquire<S: Stamp>(objects: &[S], slot: Option<usize>, stamp: S) -> S
    ensures { result ≡ joined_in S.Stamp.joined objects.now slot stamp }
{
    slot.and_then(|k| objects.get(k))
        .map_or(stamp, |object| stamp.join(*object))
}

// A release joins the thread's stamp into the object's.
pub fn release<S: Stamp>(objects: &mut [S], slot: Option<usize>, stamp: S)
    ensures { objects.new ≡ joined_into S.Stamp.joined objects.old slot stamp }
{
    // The library does not say what a table ends as after its `get_mut`.
    if let Some(k) = slot
        && k < objects.len()
    {
        objects[k] = objects[k].join(stamp);
    }
}

// Clears the entries that the counts use; the others stay. Afterwards the tables mean the empty list.
pub fn start<S: Stamp>(
    counts: Counts,
    threads: &mut [S],
    objects: &mut [S],
) -> Result<(), CallerFault>
    ensures answer { result ≡ starting counts (length threads.old) (length objects.old) }
    ensures threads { threads.new ≡ (if is_ok result then cleared counts.threads S.Stamp.LEAST threads.old else threads.old) }
    ensures objects { objects.new ≡ (if is_ok result then cleared (slots counts) S.Stamp.LEAST objects.old else objects.old) }
    ensures law { OnOk result (Means S.Stamp.below S.Stamp.LEAST counts [] threads.new objects.new) }
{
    room(counts, threads.len(), objects.len())?;
    clear(threads, counts.threads());
    clear(objects, slots(counts));
    Ok(())
}

// Carries an event with its contribution through both tables.
fn carry<S: Stamp>(
    counts: Counts,
    threads: &mut [S],
    objects: &mut [S],
    event: Event,
    contribution: S,
)
    ensures threads { threads.new ≡ threads_after S.Stamp.joined S.Stamp.LEAST counts threads.old objects.old event contribution }
    ensures objects { objects.new ≡ objects_after S.Stamp.joined S.Stamp.LEAST counts threads.old objects.old event contribution }
{
    let thread = usize::from(event.thread);
    let before = copy_out(threads, thread);
    let stamp = acquire(objects, slot_of(counts, event.acquires()), before).join(contribution);
    release(objects, slot_of(counts, event.releases()), stamp);
    write_back(threads, thread, stamp);
}

// Hands in an event with its contribution. Where the tables mean a list of events with their contributions, and the event's place
// is above theirs, they mean that list with this one appended.
pub fn hand_in<S: Stamp>(
    counts: Counts,
    threads: &mut [S],
    objects: &mut [S],
    event: Event,
    contribution: S,
) -> Result<(), CallerFault>
    ensures answer { result ≡ handing counts (length threads.old) (length objects.old) event }
    ensures threads { threads.new ≡ (if is_ok result then threads_after S.Stamp.joined S.Stamp.LEAST counts threads.old objects.old event contribution else threads.old) }
    ensures objects { objects.new ≡ (if is_ok result then objects_after S.Stamp.joined S.Stamp.LEAST counts threads.old objects.old event contribution else objects.old) }
    ensures law { OnOk result (Adds S.Stamp.below S.Stamp.LEAST counts event contribution threads.old objects.old threads.new objects.new) }
{
    takes(counts, threads.len(), objects.len(), event)?;
    carry(counts, threads, objects, event, contribution);
    Ok(())
}
