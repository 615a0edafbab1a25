// Lists and filters: what they let through.
use crate::script::{NOTHING, SETPOINT, file, refusal};
use event::{CallerFault, Event, Letter};
use source::{EventList, Picker, Sampler, Source};
use std::test::Fail;
use trace::{Trace, read};

// the places that a source hands out, as the ones of a number; places above 63 count as 63
fn places<S: Source>(source: &mut S) -> u64 {
    let mut mask = 0u64;
    // A `while let` over a source of any kind wants a measure, and a test has no proof.
    for _ in 0..64 {
        let Some(e) = source.next() else {
            return mask;
        };
        mask |= 1u64 << e.place.min(63);
    }
    mask
}

// script, burst, period, and what is let through
const SAMPLED: [(&str, u32, u32, u64); 6] = [
    (SETPOINT, 1, 2, 0b01_0111_1111),
    (SETPOINT, 1, 1, 0b11_1111_1111),
    (SETPOINT, 2, 2, 0b11_1111_1111),
    ("0w0 0w0 0w0 0w0 0w0", 2, 3, 0b1_1011),
    ("0w0 0w0 0w0", 1, 65_535, 0b1),
    ("", 1, 2, 0),
];

fn sampled(t: &Trace<'_>, burst: u32, period: u32) -> Result<u64, CallerFault> {
    let mut events = t.events();
    let mut sampler = Sampler::new(&mut events, burst, period)?;
    Ok(places(&mut sampler))
}

fn picked(t: &Trace<'_>, bytes: &[u8]) -> Result<u64, CallerFault> {
    let mut events = t.events();
    let mut picker = Picker::new(&mut events, bytes)?;
    Ok(places(&mut picker))
}

fn picked_then_sampled(
    t: &Trace<'_>,
    bytes: &[u8],
    burst: u32,
    period: u32,
) -> Result<u64, CallerFault> {
    let mut events = t.events();
    let mut picker = Picker::new(&mut events, bytes)?;
    let mut sampler = Sampler::new(&mut picker, burst, period)?;
    Ok(places(&mut sampler))
}

fn sampled_then_picked(
    t: &Trace<'_>,
    bytes: &[u8],
    burst: u32,
    period: u32,
) -> Result<u64, CallerFault> {
    let mut events = t.events();
    let mut sampler = Sampler::new(&mut events, burst, period)?;
    let mut picker = Picker::new(&mut sampler, bytes)?;
    Ok(places(&mut picker))
}

#[test]
fn samplers(rt: HostRuntime) -> Result<(), Fail> {
    for (script, burst, period, want) in SAMPLED {
        let bytes = file(rt.alloc(), 2, "m", 2, script)?;
        let t = read(&bytes)?;
        assert_eq!(rt; sampled(&t, burst, period)?, want, "{}", script);
    }
    Ok(())
}

const WRONG: [(u32, u32); 4] = [(0, 2), (3, 2), (1, 65_536), (0, 0)];

#[test]
fn wrong_samplers(rt: HostRuntime) -> Result<(), Fail> {
    let bytes = file(rt.alloc(), 1, "", 0, "")?;
    let t = read(&bytes)?;
    for (burst, period) in WRONG {
        assert_eq!(rt; refusal(sampled(&t, burst, period)), (17, 0));
    }
    Ok(())
}

const MIXED: &str = "0w0 0w1 0w0 0w1";

#[test]
fn piles(rt: HostRuntime) -> Result<(), Fail> {
    let bytes = file(rt.alloc(), 1, "", 2, MIXED)?;
    let t = read(&bytes)?;
    assert_eq!(rt; picked(&t, &[1, 0])?, 0b101);
    assert_eq!(rt; picked(&t, &[0, 7, 9])?, 0b1010);
    assert_eq!(rt;
        picked_then_sampled(&t, &[1, 0], 1, 2)?,
        0b1,
        "the sampler numbers what the picker lets through"
    );
    assert_eq!(rt;
        sampled_then_picked(&t, &[1, 0], 1, 2)?,
        0b101,
        "the picker picks what the sampler lets through"
    );
    assert_eq!(rt; refusal(picked(&t, &[1])), (12, 2), "too few bytes");
    Ok(())
}

fn offered(list: &mut EventList<'_>, e: Event) -> (u8, usize) {
    refusal(list.push(e))
}

// place and thread of what is offered to a list with room for two, and the answer
const OFFERED: [(u32, u8, (u8, usize)); 6] = [
    (0, 2, (7, 0)),
    (1_000_000, 0, (13, 1_000_000)),
    (0, 0, (0, 0)),
    (0, 0, (13, 0)),
    (3, 1, (0, 0)),
    (4, 1, (15, 2)),
];

#[test]
fn lists(rt: HostRuntime) -> Result<(), Fail> {
    let bytes = file(rt.alloc(), 2, "m", 1, "")?;
    let t = read(&bytes)?;
    let mut table = [NOTHING; 2];
    let mut list = EventList::new(t.counts(), &mut table);
    for (place, thread, want) in OFFERED {
        assert_eq!(rt;
            offered(
                &mut list,
                Event {
                    place,
                    thread,
                    ..NOTHING
                },
            ),
            want
        );
    }
    assert_eq!(rt; list.len(), 2);
    assert_eq!(rt; places(&mut list.events()), 0b1001);
    Ok(())
}

fn copied(t: &Trace<'_>, table: &mut [Event]) -> Result<u64, CallerFault> {
    let mut list = EventList::new(t.counts(), table);
    let mut events = t.events();
    list.copy_from(&mut events)?;
    Ok(places(&mut list.events()))
}

#[test]
fn lists_from_traces(rt: HostRuntime) -> Result<(), Fail> {
    let bytes = file(rt.alloc(), 2, "m", 1, SETPOINT)?;
    let t = read(&bytes)?;
    let mut ten = [NOTHING; 10];
    let mut nine = [NOTHING; 9];
    assert_eq!(rt; copied(&t, &mut ten)?, 0b11_1111_1111);
    assert_eq!(rt; refusal(copied(&t, &mut nine)), (15, 9));
    Ok(())
}
