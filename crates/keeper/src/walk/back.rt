// The entry of a thread for another, by a walk backwards over the events.
ghost use Rattle.std.specs.Prelude.{◌≡◌, false, replicate};
ghost use Rattle.keeper.specs.Walks.{flagged, flag, leads, WalksFrom, WalksTo};

use event::{Counts, Event, table};
use stamp::slots::slot_of;

fn flagged(flags: &[bool], slot: Option<usize>) -> bool
    ensures { result ≡ flagged flags.now slot }
{
    slot.and_then(|k| flags.get(k)).copied().unwrap_or(false)
}

fn flag(flags: &mut [bool], slot: Option<usize>)
    ensures { flags.new ≡ flag flags.old slot }
{
    if let Some(k) = slot {
        table::set(flags, k, true);
    }
}

// Whether a step leads from the event to one that the walk has met.
fn leads(counts: Counts, threads: &[bool], objects: &[bool], e: Event) -> bool
    ensures { result ≡ leads counts threads.now objects.now e }
{
    flagged(threads, Some(usize::from(e.thread))) || flagged(objects, slot_of(counts, e.releases()))
}

// Walks back from the last event, with a flag for each thread and each object: the threads of the events met so far that lead to t, and
// the objects that these acquire. The first event of u that is met is the latest one.
fn walk_back(
    counts: Counts,
    told: &[Event],
    threads: &mut [bool],
    objects: &mut [bool],
    t: usize,
    u: usize,
) -> u32
    ensures { WalksFrom counts told.now threads.old objects.old t u result }
{
    flag(threads, Some(t));
    for e in told.iter().rev() {
        if leads(counts, threads, objects, *e) {
            if usize::from(e.thread) == u {
                return e.place.saturating_add(1);
            }
            flag(threads, Some(usize::from(e.thread)));
            flag(objects, slot_of(counts, e.acquires()));
        }
    }
    0
}

// The entry of t for u after the events told. The two arrays stand side by side as the definitions of a walk name them. The flags have room for all that counts can declare, and take no heap.
pub fn entry(counts: Counts, told: &[Event], t: usize, u: usize) -> u32
    ensures { WalksTo counts told.now t u result }
{
    let mut threads = [false; 16];
    let mut objects = [false; 544];
    walk_back(counts, told, &mut threads, &mut objects, t, u)
}
