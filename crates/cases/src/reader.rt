// Which files the reader accepts, and why it refuses the others.
use crate::script::{file, sections};
use event::Fault;
use std::alloc::Global;
use std::process::Abort;
use std::test::Fail;
use trace::{Entry, read};

type Verdict = (u8, u8, usize);

// number, layer and place of the refusal; of an accepted file 0, 0 and how many events it has
fn verdict(bytes: &[u8]) -> Verdict {
    match read(bytes) {
        Ok(t) => (0, 0, t.len()),
        Err(f) => (f.number(), f.layer(), f.place()),
    }
}

fn is(rt: &impl Abort, name: &str, bytes: &[u8], want: Verdict) {
    assert_eq!(rt; verdict(bytes), want, "{}", name);
}

// Two threads, a mutex, a semaphore, one variable: 21 bytes before the events' count.
fn events(rt: &impl Abort, heap: Global, script: &str, want: Verdict) -> Result<(), Fail> {
    let bytes = file(heap, 2, "ms", 1, script)?;
    assert_eq!(rt; verdict(&bytes), want, "{}", script);
    Ok(())
}

const FIRST_BYTES: [(&str, &[u8], Verdict); 7] = [
    ("empty", b"", (1, 1, 0)),
    ("two bytes, wrong", b"TX", (1, 1, 0)),
    ("two bytes, right", b"TC", (1, 1, 0)),
    ("another first byte", b"tC\x01\x00\x01", (2, 1, 0)),
    ("another second byte", b"TD\x01\x00\x01", (2, 1, 0)),
    ("version 0", b"TC\x00\x00\x01", (2, 1, 0)),
    ("version 2", b"TC\x02\x00\x01", (2, 1, 0)),
];

#[test]
fn first_bytes(rt: HostRuntime) {
    for (name, bytes, want) in FIRST_BYTES {
        is(&rt, name, bytes, want);
    }
}

#[test]
fn section_counts(rt: HostRuntime) {
    is(&rt, "no count", b"TC\x01", (1, 1, 3));
    is(&rt, "half a count", b"TC\x01\x00", (1, 1, 3));
    is(&rt, "no thread", b"TC\x01\x00\x00", (3, 2, 3));
    is(
        &rt,
        "sixteen threads, none there",
        b"TC\x01\x00\x10",
        (1, 1, 5),
    );
    is(&rt, "seventeen threads", b"TC\x01\x00\x11", (3, 2, 3));
    is(
        &rt,
        "the low byte is not the high one",
        b"TC\x01\x01\x00",
        (3, 2, 3),
    );
    is(
        &rt,
        "512 objects, none there",
        b"TC\x01\x00\x01\x01t\x02\x00",
        (1, 1, 9),
    );
    is(
        &rt,
        "513 objects",
        b"TC\x01\x00\x01\x01t\x02\x01",
        (3, 2, 7),
    );
    is(
        &rt,
        "256 variables, none there",
        b"TC\x01\x00\x01\x01t\x00\x00\x01\x00",
        (1, 1, 11),
    );
    is(
        &rt,
        "257 variables",
        b"TC\x01\x00\x01\x01t\x00\x00\x01\x01",
        (3, 2, 9),
    );
    is(
        &rt,
        "no objects and variables, count cut",
        b"TC\x01\x00\x01\x01t\x00\x00\x00\x00\x00\x00\x00",
        (1, 1, 11),
    );
    is(
        &rt,
        "no event",
        b"TC\x01\x00\x01\x01t\x00\x00\x00\x00\x00\x00\x00\x00",
        (0, 0, 0),
    );
    is(
        &rt,
        "1,000,000 events, none there",
        b"TC\x01\x00\x01\x01t\x00\x00\x00\x00\x00\x0f\x42\x40",
        (1, 1, 15),
    );
    is(
        &rt,
        "1,000,001 events",
        b"TC\x01\x00\x01\x01t\x00\x00\x00\x00\x00\x0f\x42\x41",
        (3, 2, 11),
    );
}

#[test]
fn names(rt: HostRuntime) {
    is(&rt, "no length", b"TC\x01\x00\x02\x01t", (1, 1, 7));
    is(&rt, "length 0", b"TC\x01\x00\x02\x01t\x00", (4, 2, 7));
    is(&rt, "length 32", b"TC\x01\x00\x02\x01t\x20", (4, 2, 7));
    is(
        &rt,
        "length 31, cut",
        b"TC\x01\x00\x02\x01t\x1fabc",
        (1, 1, 7),
    );
    is(
        &rt,
        "length 31",
        b"TC\x01\x00\x01\x1f0123456789012345678901234567890\x00\x00\x00\x00\x00\x00\x00\x00",
        (0, 0, 0),
    );
    is(&rt, "a space", b"TC\x01\x00\x02\x01t\x02a ", (4, 2, 7));
    is(&rt, "0x7f", b"TC\x01\x00\x02\x01t\x02a\x7f", (4, 2, 7));
    is(
        &rt,
        "0x21 and 0x7e",
        b"TC\x01\x00\x01\x02!~\x00\x00\x00\x00\x00\x00\x00\x00",
        (0, 0, 0),
    );
    is(
        &rt,
        "a bad byte before the cut",
        b"TC\x01\x00\x02\x01t\x09ab c",
        (4, 2, 7),
    );
    is(
        &rt,
        "good as far as it goes",
        b"TC\x01\x00\x02\x01t\x09abc",
        (1, 1, 7),
    );
    is(
        &rt,
        "a bad byte behind the name is not its own",
        b"TC\x01\x00\x01\x01t\x00\x01m\x01a\x00\x01\x01 ",
        (4, 2, 14),
    );
}

#[test]
fn objects(rt: HostRuntime) {
    is(&rt, "no letter", b"TC\x01\x00\x01\x01t\x00\x01", (1, 1, 9));
    is(
        &rt,
        "a wrong letter",
        b"TC\x01\x00\x01\x01t\x00\x01x\x01a",
        (4, 2, 9),
    );
    is(
        &rt,
        "a capital letter",
        b"TC\x01\x00\x01\x01t\x00\x01M",
        (4, 2, 9),
    );
    is(
        &rt,
        "a letter, no name",
        b"TC\x01\x00\x01\x01t\x00\x01m",
        (1, 1, 9),
    );
    is(
        &rt,
        "a letter, a bad length",
        b"TC\x01\x00\x01\x01t\x00\x01s\x00",
        (4, 2, 9),
    );
    is(
        &rt,
        "the second object",
        b"TC\x01\x00\x01\x01t\x00\x02m\x01as\x02b",
        (1, 1, 12),
    );
}

#[test]
fn bytes_of_events(rt: HostRuntime) -> Result<(), Fail> {
    let mut bytes = sections(rt.alloc(), 2, "ms", 1)?;
    assert_eq!(rt; bytes.len(), 21);
    bytes.extend_from_slice(b"\x00\x00\x00\x02w\x00\x00\x00\x00\x07")?;
    is(&rt, "the second event is not there", &bytes, (1, 1, 31));
    bytes.extend_from_slice(b"z\x00\x00")?;
    is(&rt, "the second event is cut", &bytes, (1, 1, 31));
    bytes.extend_from_slice(b"\x00\x00\x00")?;
    is(&rt, "whole, and then its letter", &bytes, (6, 3, 1));
    bytes.push(0)?;
    is(
        &rt,
        "a byte left, before any event is judged",
        &bytes,
        (5, 2, 37),
    );
    bytes.extend_from_slice(b"\x00\x00\x00\x00\x00")?;
    is(&rt, "an event left", &bytes, (5, 2, 37));
    Ok(())
}

const LETTERS_AND_RANGES: [(&str, Verdict); 15] = [
    ("0x0", (6, 3, 0)),
    ("0w0 0R0", (6, 3, 1)),
    ("1w0", (10, 4, 0)),
    ("2w0", (7, 3, 0)),
    ("0w0 0r1", (7, 3, 1)),
    ("0a1", (0, 0, 1)),
    ("0a2", (7, 3, 0)),
    ("0l2", (7, 3, 0)),
    ("0f1", (0, 0, 1)),
    ("0f2", (7, 3, 0)),
    ("0j2", (7, 3, 0)),
    ("0b2", (7, 3, 0)),
    ("0e2", (7, 3, 0)),
    ("0M0 0N0 0D0 0Q0", (0, 0, 4)),
    ("0M1", (7, 3, 0)),
];

#[test]
fn letters_and_ranges(rt: HostRuntime) -> Result<(), Fail> {
    for (script, want) in LETTERS_AND_RANGES {
        events(&rt, rt.alloc(), script, want)?;
    }
    Ok(())
}

const REGIONS: [(&str, Verdict); 4] = [
    ("0w09 0r07", (0, 0, 2)),
    ("0a01", (8, 3, 0)),
    ("0w0 0f11", (8, 3, 1)),
    ("0M01", (8, 3, 0)),
];

#[test]
fn regions(rt: HostRuntime) -> Result<(), Fail> {
    for (script, want) in REGIONS {
        events(&rt, rt.alloc(), script, want)?;
    }
    Ok(())
}

const THREAD_LIFE: [(&str, Verdict); 16] = [
    ("0f1 1b1 1w0 1e1 0j1", (0, 0, 5)),
    ("0b0", (10, 4, 0)),
    ("0f0", (10, 4, 0)),
    ("1b1", (10, 4, 0)),
    ("0f1 1w0", (10, 4, 1)),
    ("0f1 0f1", (10, 4, 1)),
    ("0f1 1b0", (10, 4, 1)),
    ("0f1 1b1 1b1", (10, 4, 2)),
    ("0f1 1b1 1e0", (10, 4, 2)),
    ("0f1 1b1 1e1 1w0", (10, 4, 3)),
    ("0f1 1b1 1e1 1e1", (10, 4, 3)),
    ("0f1 1b1 0j1", (10, 4, 2)),
    ("0f1 1b1 1e1 0f1", (10, 4, 3)),
    ("0f1 1b1 1e1 0j1 0j1", (0, 0, 5)),
    ("0e0 0w0", (10, 4, 1)),
    ("0j1", (10, 4, 0)),
];

#[test]
fn thread_life(rt: HostRuntime) -> Result<(), Fail> {
    for (script, want) in THREAD_LIFE {
        events(&rt, rt.alloc(), script, want)?;
    }
    Ok(())
}

const MUTEXES: [(&str, Verdict); 9] = [
    ("0a0 0l0 0a0 0l0", (0, 0, 4)),
    ("0l0", (9, 4, 0)),
    ("0a0 0a0", (9, 4, 1)),
    ("0a0 0l0 0l0", (9, 4, 2)),
    ("0f1 1b1 0a0 1a0", (9, 4, 3)),
    ("0f1 1b1 0a0 1l0", (9, 4, 3)),
    ("0f1 1b1 0a0 0l0 1a0 1l0", (0, 0, 6)),
    ("0l1 0l1 0a1 0a1", (0, 0, 4)),
    ("0f1 1b1 0a0 0a1 1l1", (0, 0, 5)),
];

#[test]
fn mutexes(rt: HostRuntime) -> Result<(), Fail> {
    for (script, want) in MUTEXES {
        events(&rt, rt.alloc(), script, want)?;
    }
    Ok(())
}

// One event that breaks several rules: 6, 7, 8, 10, 9 in that order, and an earlier event before a later one.
const THE_FIRST_FAULT_WINS: [(&str, Verdict); 7] = [
    ("9x91", (6, 3, 0)),
    ("9a91", (7, 3, 0)),
    ("1l01", (8, 3, 0)),
    ("1l0", (10, 4, 0)),
    ("0l0", (9, 4, 0)),
    ("0l0 0x0", (9, 4, 0)),
    ("0a0 0l0 1r0 0l0", (10, 4, 2)),
];

#[test]
fn the_first_fault_wins(rt: HostRuntime) -> Result<(), Fail> {
    for (script, want) in THE_FIRST_FAULT_WINS {
        events(&rt, rt.alloc(), script, want)?;
    }
    Ok(())
}

#[test]
fn entries(rt: HostRuntime) -> Result<(), Fail> {
    let bytes = file(rt.alloc(), 2, "ms", 1, "0f1 1b1")?;
    let t = read(&bytes)?;
    let mut offsets = 0usize;
    for e in t.threads().entries() {
        if let Entry::Thread { offset, .. } = e {
            offsets = offsets.wrapping_mul(100).wrapping_add(offset);
        }
    }
    assert_eq!(rt; offsets, 507, "the two threads");
    match t.objects().get(1) {
        Some(Entry::Object { kind, name, offset }) => {
            assert_eq!(rt; offset, 14, "the semaphore's offset");
            assert_eq!(rt; name.len(), 1);
            assert!(rt; kind == format::ObjectKind::Semaphore);
        }
        _ => return Err(Fail::new("no second object")),
    }
    assert!(rt; t.objects().get(2).is_none(), "no third object");
    assert!(rt; t.variables().get(0).is_some(), "a variable");
    Ok(())
}
