// Reads a trace file of any length from standard input, runs over it with clocks and a tally ten times, and tells the totals, and on standard error how
// many nanoseconds the quickest turn took.
#![tactic(auto)]

use anyhow::anyhow;
use detect::{Totals, run_all};
use event::{CallerFault, Event};
use keeper::{Clocks, Keeper};
use output::totals_line;
use sink::Tally;
use source::source::Source;
use stamp::{Clock, Stamp};
use std::io::{Read, Write};
use std::time::Instant;
use trace::{Trace, read};

const TURNS: usize = 10;

// One run over the whole trace. The tables are cleared first.
fn turn(
    t: &Trace<'_>,
    threads: &mut [Clock],
    objects: &mut [Clock],
    latest: &mut [Option<Event>],
) -> Result<Totals, CallerFault> {
    let mut keeper = Clocks::new(t.counts(), threads, objects)?;
    let mut tally = Tally::new();
    run_all(&mut t.events(), &mut keeper, latest, &mut tally, 1_000_000)
}

// The totals of the last turn, and the nanoseconds of the quickest.
fn turns(
    rt: &HostRuntime,
    t: &Trace<'_>,
    threads: &mut [Clock],
    objects: &mut [Clock],
    latest: &mut [Option<Event>],
) -> anyhow::Result<(Totals, u128)> {
    let mut totals = Totals::none();
    let mut best = u128::MAX;
    for _turn in 0..TURNS {
        let start = Instant::now(rt)?;
        totals = turn(t, threads, objects, latest).map_err(|_| anyhow!("a table is too small"))?;
        best = best.min(start.elapsed(rt)?.as_nanos());
    }
    Ok((totals, best))
}

fn main(rt: HostRuntime) -> anyhow::Result<()> {
    let heap = rt.alloc();
    let mut input = Vec::new(heap);
    rt.stdin().read_to_end(&mut input)?;
    let Ok(t) = read(&input) else {
        return Err(anyhow!("this is no valid trace file"));
    };
    // Tables of the sizes that are enough for every trace, lent as the programs lend them: what is measured is their run, which takes no heap.
    let mut threads = [Clock::LEAST; 16];
    let mut objects = [Clock::LEAST; 544];
    let mut latest = [None; 8192];
    let (totals, best) = turns(&rt, &t, &mut threads, &mut objects, &mut latest)?;
    let line = totals_line(heap, totals)?;
    rt.stdout().write_all(line.as_bytes())?;
    eprintln!(rt; "{best} nanoseconds, the quickest of {TURNS} turns")?;
    Ok(())
}
