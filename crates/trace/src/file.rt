// A whole trace file.
ghost use Rattle.std.specs.Prelude.{◌≡◌, ◌*◌, ◌/◌, ◌≤◌, length, map, IfOk, OnOk};
ghost use Rattle.format.specs.Parse.{map_ok};
ghost use Rattle.trace.specs.Spots.{item_of};
ghost use Rattle.trace.specs.Section.{items_in};
ghost use Rattle.format.specs.Events.{got_events};
ghost use Rattle.format.specs.Standings.{kind_of, kinds_of, kind_table, ruled_from};
ghost use Rattle.format.specs.Trace.{read_trace};
ghost use Rattle.trace.specs.Standing.{free, standing_of, kinds_in};
ghost use Rattle.trace.specs.Whole.{contents_of, count_in, Laid, Few, Counted};
ghost use Rattle.format.specs.Exact.{Answers};

use crate::entry::Entry;
use crate::event_bytes::event;
use crate::layout::sections;
use crate::rules::Rules;
use crate::rules::lock::Lock;
use crate::section::Section;
use crate::trace::Trace;
use format::fault::OrderFault;
use format::kinds::ObjectKind;

fn kind_of(e: Entry<'_>) -> ObjectKind
    ensures { result ≡ kind_of (item_of e.entry) }
{
    match e {
        Entry::Object { kind, .. } => kind,
        _ => ObjectKind::Semaphore,
    }
}

// Each object as the mutex rule sees it, by its number: nobody holds one yet, and what is not declared is no mutex. The table has room for the most that a
// file declares, and takes no heap.
fn locks(objects: Section<'_>) -> [Lock; 512]
    requires { objects.count ≤ 512 }
    ensures { result ≡ map free (kind_table (kinds_of (items_in objects.entry))) }
{
    // The table is filled at once and then only what is declared is written: a `map` over a table of kinds takes as long as reading a file of some hundred events.
    let mut table = [Lock::free(ObjectKind::Semaphore); 512];
    // An entry's index is its object's number, so it is written there: what a loop over `iter_mut` of the table has lent, no invariant can speak of.
    for (i, e) in objects.entries().enumerate() {
        table[i] = Lock::free(kind_of(e));
    }
    table
}

// Reads each event and holds it to the rules.
fn check_events(mut rules: Rules, events: &[u8]) -> Result<(), OrderFault>
    requires few { length events.now ≤ 6000000 }
    requires whole { length events.now ≡ 6 * (length events.now / 6) }
    ensures length { OnOk result (length (got_events rules.counts 0 (length events.now / 6) events.now) ≡ length events.now / 6) }
    ensures value { map_ok (λ _. got_events rules.counts 0 (length events.now / 6) events.now) result ≡ ruled_from (kinds_in rules) rules.counts (standing_of rules) 0 (length events.now / 6) events.now }
{
    let (chunks, _) = events.as_chunks::<6>();
    for (place, bytes) in chunks.iter().enumerate() {
        let e = event(rules.counts, place as u32, bytes)?;
        rules.step(e)?;
    }
    Ok(())
}

fn scan(bytes: &[u8]) -> Result<Trace<'_>, OrderFault>
    ensures value { map_ok contents_of result ≡ read_trace bytes.now }
    ensures laid { IfOk result Laid }
    ensures few { IfOk result Few }
    ensures events { IfOk result (λ t. length (contents_of t).events ≡ count_in t) }
{
    let trace = sections(bytes)?;
    let rules = Rules::new(trace.counts(), locks(trace.objects));
    check_events(rules, trace.events)?;
    Ok(trace)
}

// Accepts exactly the trace files, and refuses any other for its first fault. An accepted trace borrows from the bytes.
pub fn read(bytes: &[u8]) -> Result<Trace<'_>, OrderFault>
    ensures value { map_ok contents_of result ≡ read_trace bytes.now }
    ensures exact { Answers bytes.now (map_ok contents_of result) }
    ensures laid { IfOk result Laid }
    ensures few { IfOk result Few }
    ensures counted { IfOk result Counted }
{
    scan(bytes)
}
