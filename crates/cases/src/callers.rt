// Callers of the library whose own structs, pairs, options and results hold its types. With a fact in a `Walk`, a `Trace` or a `Section` the toolchain does not cover
// those that hold one, so these tests hold the three types to having none. `Lines` has one, and its callers are covered.
ghost use Rattle.std.specs.Prelude.{IfOk, IfSome};
ghost use Rattle.output.specs.Programs.{Responds};

use crate::script::{NOTHING, SETPOINT, file};
use detect::{Run, Step};
use event::{CallerFault, Counts, Event};
use format::fault::OrderFault;
use keeper::{Keeper, Walk};
use output::{Listing, Races, respond};
use sink::{Lines, Sink, Tally};
use source::Source;
use std::alloc::Global;
use std::io::{self, Read, Write};
use std::test::Fail;
use trace::{Section, Trace, read};

// a walk that is made only where the counts are good
fn walk_for<'a>(threads: usize, told: &'a mut [Event]) -> Result<Walk<'a>, CallerFault> {
    let counts = Counts::new(threads, 1, 1)?;
    Ok(Walk::new(counts, told))
}

// a walk, if there is room for an event
fn walk_if<'a>(counts: Counts, told: &'a mut [Event]) -> Option<Walk<'a>> {
    if told.is_empty() {
        return None;
    }
    Some(Walk::new(counts, told))
}

// lines that are made only where there is room for one
fn lines_on<'a>(bytes: &'a mut [u8]) -> Result<Lines<'a>, CallerFault> {
    let lines = Lines::new(bytes);
    if lines.capacity() == 0 {
        return Err(CallerFault::Table { size: 21 });
    }
    Ok(lines)
}

// a trace and a table for its events, as a pair
fn pair_of<'a>(
    bytes: &'a [u8],
    told: &'a mut [Event],
) -> Result<(Trace<'a>, &'a mut [Event]), OrderFault> {
    let trace = read(bytes)?;
    Ok((trace, told))
}

// a trace and a table for its events
#[derive(Drop)]
struct Work<'a> {
    trace: Trace<'a>,
    told: &'a mut [Event],
}

impl Work<'_> {
    fn sizes(&self) -> (usize, usize) {
        (self.trace.len(), self.told.len())
    }
}

fn work_on<'a>(bytes: &'a [u8], told: &'a mut [Event]) -> Result<Work<'a>, OrderFault> {
    let trace = read(bytes)?;
    Ok(Work { trace, told })
}

// a section and the bytes that its names are copied to
#[derive(Drop)]
struct Names<'a> {
    section: Section<'a>,
    copy: &'a mut [u8],
}

impl Names<'_> {
    fn sizes(&self) -> (usize, usize) {
        (self.section.len(), self.copy.len())
    }
}

fn names_of<'a>(bytes: &'a [u8], copy: &'a mut [u8]) -> Result<Names<'a>, OrderFault> {
    let trace = read(bytes)?;
    Ok(Names {
        section: trace.objects(),
        copy,
    })
}

// how many events a run with a walk is told, step by step, and how many races it finds
fn stepped(t: &Trace<'_>, told: &mut [Event]) -> Result<(u32, u64), CallerFault> {
    let mut events = t.events();
    let mut keeper = Walk::new(t.counts(), told);
    let mut latest = [None; 64];
    let mut tally = Tally::new();
    let mut run = Run::start(&mut events, &mut keeper, &mut latest, &mut tally)?;
    let mut steps = 0u32;
    for _ in 0..100 {
        let Step::Told = run.step() else {
            break;
        };
        steps = steps.saturating_add(1);
    }
    run.end();
    Ok((steps, run.totals().found))
}

// a caller that takes any listing, and says of it what the library says
fn listed<L: Listing, R: Read, W: Write>(
    heap: Global,
    input: &mut R,
    output: &mut W,
) -> io::Result<bool>
    ensures { IfOk result (λ listed. IfSome (R.remaining input.old) (λ bytes. Responds L.Listing.lists bytes (W.contents output.old) (W.contents output.new) listed)) }
{
    respond::<L, R, W>(heap, input, output)
}

#[test]
fn a_walk_in_a_result(rt: HostRuntime) -> Result<(), Fail> {
    let mut told = [NOTHING; 4];
    let keeper = walk_for(3, &mut told)?;
    assert_eq!(rt; keeper.counts().threads(), 3);
    assert_eq!(rt; keeper.capacity(), 4);
    let none = walk_if(keeper.counts(), &mut []);
    assert!(rt; none.is_none(), "no room");
    let mut one = [NOTHING; 1];
    let Some(other) = walk_if(keeper.counts(), &mut one) else {
        return Err(Fail::new("no walk"));
    };
    assert_eq!(rt; other.capacity(), 1);
    Ok(())
}

#[test]
fn lines_in_a_result(rt: HostRuntime) -> Result<(), Fail> {
    let mut few = [0; 20];
    assert!(rt; lines_on(&mut few).is_err(), "no room");
    let mut bytes = [0; 42];
    let lines = lines_on(&mut bytes)?;
    assert_eq!(rt; lines.capacity(), 2);
    Ok(())
}

#[test]
fn a_trace_beside_a_table(rt: HostRuntime) -> Result<(), Fail> {
    let bytes = file(rt.alloc(), 2, "m", 1, SETPOINT)?;
    let mut told = [NOTHING; 16];
    let work = work_on(&bytes, &mut told)?;
    assert_eq!(rt; work.sizes(), (10, 16));
    let mut more = [NOTHING; 12];
    let (trace, table) = pair_of(&bytes, &mut more)?;
    assert_eq!(rt; (trace.len(), table.len()), (10, 12));
    let mut copy = [0; 8];
    let names = names_of(&bytes, &mut copy)?;
    assert_eq!(rt; names.sizes(), (1, 8));
    Ok(())
}

#[test]
fn a_run_with_a_walk_by_steps(rt: HostRuntime) -> Result<(), Fail> {
    let bytes = file(rt.alloc(), 2, "m", 1, SETPOINT)?;
    let t = read(&bytes)?;
    let mut told = [NOTHING; 16];
    assert_eq!(rt; stepped(&t, &mut told)?, (10, 3));
    Ok(())
}

#[test]
fn a_listing_of_any_kind(rt: HostRuntime) -> Result<(), Fail> {
    let heap = rt.alloc();
    let bytes = file(heap, 2, "m", 1, "0f1 1b1 0w0 1w0")?;
    let mut rest: &[u8] = &bytes;
    let mut text = Vec::new(heap);
    assert!(rt;
        listed::<Races, _, _>(heap, &mut rest, &mut text)?,
        "a list"
    );
    Ok(())
}
