// Both keepers on worked examples: the same entries, and the expected ones.
use crate::script::{NOTHING, SETPOINT, file, refusal};
use event::{Event, Letter};
use keeper::{Clocks, Keeper, Walk};
use stamp::tables::{hand_in, start};
use stamp::{Clock, Reach, Stamp};
use std::process::Abort;
use std::test::Fail;
use trace::{Trace, read};

fn tell_all<K: Keeper>(keeper: &mut K, t: &Trace<'_>) -> Result<(), Fail> {
    for e in t.events() {
        keeper.tell(e)?;
    }
    Ok(())
}

fn by_clocks(t: &Trace<'_>, asker: usize, other: usize) -> Result<u32, Fail> {
    let mut threads = [Clock::LEAST; 16];
    let mut objects = [Clock::LEAST; 40];
    let mut keeper = Clocks::new(t.counts(), &mut threads, &mut objects)?;
    tell_all(&mut keeper, t)?;
    Ok(keeper.ask(asker, other)?)
}

fn by_walk(t: &Trace<'_>, asker: usize, other: usize) -> Result<u32, Fail> {
    let mut told = [NOTHING; 32];
    let mut keeper = Walk::new(t.counts(), &mut told);
    tell_all(&mut keeper, t)?;
    Ok(keeper.ask(asker, other)?)
}

fn hand_all(t: &Trace<'_>, threads: &mut [Reach], objects: &mut [Reach]) -> Result<(), Fail> {
    start(t.counts(), threads, objects)?;
    for e in t.events() {
        hand_in(t.counts(), threads, objects, e, Reach::only(e.thread))?;
    }
    Ok(())
}

fn reached(rt: &impl Abort, t: &Trace<'_>, thread: usize) -> Result<u32, Fail> {
    let mut threads = [Reach::LEAST; 16];
    let mut objects = [Reach::LEAST; 40];
    hand_all(t, &mut threads, &mut objects)?;
    assert!(rt; thread < 16);
    Ok(threads[thread].size())
}

const FORKED: &str = "0w0 0f1 1b1 1w0";

const TWO_GIVERS: &str = "0f1 0f2 1b1 2b2 0w0 0l0 1l0 2a0 2r0";

const JOINED: &str = "0f1 1b1 1w0 1e1 0j1 0r0";

// objects, script, the thread that is asked, the other, and the entry
const ENTRIES: [(&str, &str, usize, usize, u32); 12] = [
    ("m", SETPOINT, 1, 0, 5),
    ("m", SETPOINT, 0, 1, 0),
    ("m", SETPOINT, 0, 0, 10),
    ("m", SETPOINT, 1, 1, 9),
    ("m", FORKED, 1, 0, 2),
    ("m", FORKED, 0, 1, 0),
    ("s", TWO_GIVERS, 2, 0, 6),
    ("s", TWO_GIVERS, 2, 1, 7),
    ("s", TWO_GIVERS, 0, 2, 0),
    ("m", JOINED, 0, 1, 4),
    ("m", JOINED, 1, 0, 1),
    ("m", "", 1, 0, 0),
];

#[test]
fn entries(rt: HostRuntime) -> Result<(), Fail> {
    for (objects, script, asker, other, want) in ENTRIES {
        let bytes = file(rt.alloc(), 3, objects, 1, script)?;
        let t = read(&bytes)?;
        assert_eq!(rt; by_clocks(&t, asker, other)?, want, "{}", script);
        assert_eq!(rt; by_walk(&t, asker, other)?, want, "{}", script);
    }
    Ok(())
}

const REACHES: [(&str, &str, usize, u32); 5] = [
    ("m", SETPOINT, 1, 2),
    ("m", SETPOINT, 0, 1),
    ("s", TWO_GIVERS, 2, 3),
    ("m", JOINED, 0, 2),
    ("m", "", 0, 0),
];

#[test]
fn reaches(rt: HostRuntime) -> Result<(), Fail> {
    for (objects, script, thread, want) in REACHES {
        let bytes = file(rt.alloc(), 3, objects, 1, script)?;
        let t = read(&bytes)?;
        assert_eq!(rt; reached(&rt, &t, thread)?, want, "{}", script);
    }
    Ok(())
}

// place, thread and number of what is told to a keeper with room for three, and the answer
const TOLD: [(u32, u8, u16, (u8, usize)); 9] = [
    (5, 2, 0, (7, 5)),
    (5, 0, 1, (7, 5)),
    (1_000_000, 0, 0, (13, 1_000_000)),
    (5, 0, 0, (0, 0)),
    (5, 0, 0, (13, 5)),
    (6, 1, 0, (0, 0)),
    (999_999, 0, 0, (0, 0)),
    (999_999, 0, 0, (13, 999_999)),
    (4, 0, 0, (13, 4)),
];

#[test]
fn refusals(rt: HostRuntime) -> Result<(), Fail> {
    let bytes = file(rt.alloc(), 2, "m", 1, "")?;
    let t = read(&bytes)?;
    let mut told = [NOTHING; 3];
    let mut keeper = Walk::new(t.counts(), &mut told);
    for (place, thread, number, want) in TOLD {
        let e = Event {
            place,
            thread,
            number,
            ..NOTHING
        };
        assert_eq!(rt; refusal(keeper.tell(e)), want);
    }
    Ok(())
}

#[test]
fn full(rt: HostRuntime) -> Result<(), Fail> {
    let bytes = file(rt.alloc(), 2, "m", 1, "")?;
    let t = read(&bytes)?;
    let mut told = [NOTHING; 1];
    let mut keeper = Walk::new(t.counts(), &mut told);
    assert_eq!(rt; refusal(keeper.tell(NOTHING)), (0, 0));
    assert_eq!(rt;
        refusal(keeper.tell(Event {
            place: 1,
            ..NOTHING
        })),
        (15, 1)
    );
    Ok(())
}

#[test]
fn small_tables(rt: HostRuntime) -> Result<(), Fail> {
    let bytes = file(rt.alloc(), 2, "m", 1, "")?;
    let t = read(&bytes)?;
    let mut two = [Clock::LEAST; 2];
    let mut five = [Clock::LEAST; 5];
    let mut one = [Clock::LEAST; 1];
    let mut four = [Clock::LEAST; 4];
    assert!(rt;
        Clocks::new(t.counts(), &mut two, &mut five).is_ok(),
        "just large enough"
    );
    assert_eq!(rt;
        refusal(Clocks::new(t.counts(), &mut one, &mut four)),
        (12, 2),
        "threads first"
    );
    assert_eq!(rt;
        refusal(Clocks::new(t.counts(), &mut two, &mut four)),
        (12, 5),
        "objects and two for each thread"
    );
    Ok(())
}
