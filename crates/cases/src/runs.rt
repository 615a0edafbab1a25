// Whole runs: both keepers, filters, sinks of every room, a keeper that is full midway.
use crate::script::{NOTHING, SETPOINT, file};
use detect::{Totals, run_all};
use event::{CallerFault, Event, Letter};
use keeper::{Clocks, Keeper, Walk};
use sink::{Lines, Tally};
use source::{Sampler, Source};
use stamp::{Clock, Stamp};
use std::test::Fail;
use trace::{Trace, read};

// found, written and dropped with clocks and lines over these bytes
fn by_clocks<S: Source>(
    source: &mut S,
    bytes: &mut [u8],
    budget: usize,
) -> Result<Totals, CallerFault> {
    let mut threads = [Clock::LEAST; 16];
    let mut objects = [Clock::LEAST; 40];
    let mut latest = [None; 64];
    let mut keeper = Clocks::new((*source).counts(), &mut threads, &mut objects)?;
    let mut sink = Lines::new(bytes);
    run_all(source, &mut keeper, &mut latest, &mut sink, budget)
}

// the same with a walk over so many events, and a tally
fn by_walk<S: Source>(source: &mut S, told: &mut [Event]) -> Result<Totals, CallerFault> {
    let mut latest = [None; 64];
    let mut keeper = Walk::new((*source).counts(), told);
    let mut sink = Tally::new();
    run_all(source, &mut keeper, &mut latest, &mut sink, 1_000_000)
}

fn sampled(
    t: &Trace<'_>,
    burst: u32,
    period: u32,
    bytes: &mut [u8],
) -> Result<Totals, CallerFault> {
    let mut events = t.events();
    let mut sampler = Sampler::new(&mut events, burst, period)?;
    by_clocks(&mut sampler, bytes, 1_000_000)
}

fn totals(found: u64, written: u64, dropped: u64) -> Totals {
    Totals {
        found,
        written,
        dropped,
    }
}

// objects, script, and how many are found
const FOUND: [(&str, &str, u64); 8] = [
    ("m", SETPOINT, 3),
    ("m", "0w0 0f1 1b1 1w0", 0),
    ("m", "0f1 1b1 0w0 1w0", 1),
    ("m", "0f1 1b1 0r0 1r0", 0),
    ("m", "", 0),
    ("s", "0f1 0f2 1b1 2b2 0w0 0l0 1l0 2a0 2r0", 0),
    ("s", "0f1 0f2 1b1 2b2 0w0 2r0 1r0", 2),
    ("s", "0f1 1b1 0w0 0w1 1r1 1r0", 2),
];

#[test]
fn both_keepers(rt: HostRuntime) -> Result<(), Fail> {
    for (objects, script, found) in FOUND {
        let bytes = file(rt.alloc(), 3, objects, 2, script)?;
        let t = read(&bytes)?;
        let mut lines = [0u8; 84];
        let mut told = [NOTHING; 32];
        assert_eq!(rt;
            by_clocks(&mut t.events(), &mut lines, 1_000_000)?,
            totals(found, found, 0),
            "{}",
            script
        );
        assert_eq!(rt;
            by_walk(&mut t.events(), &mut told)?,
            totals(found, found, 0),
            "{}",
            script
        );
    }
    Ok(())
}

// room for so many lines, and the totals
const ROOMS: [(usize, u64, u64); 4] = [(0, 0, 3), (20, 0, 3), (41, 1, 2), (63, 3, 0)];

#[test]
fn rooms(rt: HostRuntime) -> Result<(), Fail> {
    let bytes = file(rt.alloc(), 2, "m", 1, SETPOINT)?;
    let t = read(&bytes)?;
    for (room, written, dropped) in ROOMS {
        let mut lines = [0u8; 84];
        let run = by_clocks(&mut t.events(), &mut lines[0..room.min(84)], 1_000_000)?;
        assert_eq!(rt; run, totals(3, written, dropped));
    }
    Ok(())
}

// a keeper of so many events, and how many are found
const FULL: [(usize, u64); 5] = [(10, 3), (9, 1), (6, 1), (5, 0), (0, 0)];

#[test]
fn full_midway(rt: HostRuntime) -> Result<(), Fail> {
    let bytes = file(rt.alloc(), 2, "m", 1, SETPOINT)?;
    let t = read(&bytes)?;
    for (capacity, found) in FULL {
        let mut told = [NOTHING; 10];
        let mut lines = [0u8; 84];
        assert_eq!(rt;
            by_walk(&mut t.events(), &mut told[0..capacity.min(10)])?,
            totals(found, found, 0)
        );
        assert_eq!(rt;
            by_clocks(&mut t.events(), &mut lines, capacity)?,
            totals(found, found, 0),
            "a budget"
        );
    }
    Ok(())
}

#[test]
fn under_a_sampler(rt: HostRuntime) -> Result<(), Fail> {
    let bytes = file(rt.alloc(), 2, "m", 1, SETPOINT)?;
    let t = read(&bytes)?;
    let mut lines = [0u8; 84];
    assert_eq!(rt; sampled(&t, 1, 2, &mut lines)?, totals(1, 1, 0));
    assert!(rt; lines[5] == b'3' && lines[12] == b'5', "the first race");
    assert_eq!(rt; sampled(&t, 2, 2, &mut lines)?, totals(3, 3, 0));
    Ok(())
}

#[test]
fn the_lines(rt: HostRuntime) -> Result<(), Fail> {
    let bytes = file(rt.alloc(), 2, "m", 1, SETPOINT)?;
    let t = read(&bytes)?;
    let mut lines = [b'.'; 64];
    assert_eq!(rt;
        by_clocks(&mut t.events(), &mut lines, 1_000_000)?,
        totals(3, 3, 0)
    );
    assert!(rt;
        &lines[0..63]
            == b"000003 000005 000 wr\n000007 000009 000 ww\n000005 000009 000 rw\n".as_slice()
    );
    assert!(rt; lines[63] == b'.', "the space behind stays");
    Ok(())
}
