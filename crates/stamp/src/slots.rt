// Which entries of the tables belong to an event, and whether the tables are large enough.
ghost use Rattle.std.specs.Prelude.{◌≡◌};
ghost use Rattle.std.specs.Option.{option_map};
ghost use Rattle.stamp.specs.Slots.{slot, slots, starting, handing};

use event::{CallerFault, Counts, Event, Object};

pub fn slot(counts: Counts, object: Object) -> usize
    ensures { result ≡ slot counts object }
{
    match object {
        Object::Declared(n) => usize::from(n),
        Object::Start(t) => counts.objects() + usize::from(t),
        Object::Finish(t) => counts.objects() + counts.threads() + usize::from(t),
    }
}

// The slot of the object that an event acquires or releases, where it does.
pub fn slot_of(counts: Counts, object: Option<Object>) -> Option<usize>
    ensures { result ≡ option_map (slot counts) object }
{
    object.map(|o| slot(counts, o))
}

// How many objects the counts have: the declared ones, and a start and an end for each thread.
pub fn slots(counts: Counts) -> usize
    ensures { result ≡ slots counts }
{
    counts.objects() + 2 * counts.threads()
}

// Refuses the first table that is too small for the counts: that of the threads, then that of the objects. It is asked before there are tables, so
// their lengths stand beside the counts. Each table's test is its own three lines: a function for it would be no shorter at its calls.
pub fn room(counts: Counts, threads: usize, objects: usize) -> Result<(), CallerFault>
    ensures { result ≡ starting counts threads objects }
{
    if threads < counts.threads() {
        return Err(CallerFault::Table {
            size: counts.threads(),
        });
    }
    if objects < slots(counts) {
        return Err(CallerFault::Table {
            size: slots(counts),
        });
    }
    Ok(())
}

// Refuses tables that are too small, then an event whose thread or number is not declared.
pub fn takes(counts: Counts, threads: usize, objects: usize, e: Event) -> Result<(), CallerFault>
    ensures { result ≡ handing counts threads objects e }
{
    room(counts, threads, objects)?;
    if counts.in_range(e) {
        Ok(())
    } else {
        Err(CallerFault::Range {
            place: e.place as usize,
        })
    }
}
