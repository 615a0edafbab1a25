// Which overlaps of monitors are reported, and in which order.
use crate::script::{NOTHING, file, verdict};
use detect::{Totals, report};
use event::CallerFault;
use monitor::{Level, PlacementFault};
use sink::Lines;
use source::EventList;
use source::source::Source;
use std::test::Fail;
use trace::{Trace, read};

// the totals of a report into lines over these bytes
fn reported(t: &Trace<'_>, bytes: &mut [u8]) -> Result<Totals, PlacementFault> {
    let mut table = [NOTHING; 32];
    let mut levels = [Level::Strong; 8];
    let mut list = EventList::new(t.counts(), &mut table);
    let mut events = t.events();
    list.copy_from(&mut events)?;
    report(&list, &mut levels, &mut Lines::new(bytes))
}

// three threads, a semaphore, two variables; how many overlaps, and the lines
const MEETINGS: [(&str, u64, &[u8]); 9] = [
    ("", 0, b""),
    // a strong monitor around a write meets a weak one around a read that is still to come
    (
        "0f1 1b1 0M0 0w0 1N0 1r0 0Q0 1Q0",
        1,
        b"000003 000005 000 wr\n",
    ),
    // an acquire and then a release in between
    ("0M0 0w0 0a0 0l0 0w0 0Q0", 0, b""),
    // both accesses are still to come
    (
        "0f1 1b1 0M0 1M0 0w0 1w0 0Q0 1Q0",
        1,
        b"000004 000005 000 ww\n",
    ),
    // two weak monitors do not meet; one of them becomes strong, and weak again
    (
        "0f1 1b1 0N0 0r0 1N0 1r0 0M0 0w0 0D0 0r0 0Q0 1Q0",
        1,
        b"000005 000007 000 rw\n",
    ),
    // a write before a release covers no moment behind it
    (
        "0f1 1b1 0w0 0l0 0M0 0w0 1N0 1r0 0Q0 1Q0",
        1,
        b"000005 000007 000 wr\n",
    ),
    // a rise meets two others
    (
        "0f1 0f2 1b1 2b2 0N0 1N0 2M0 0r0 1r0 2w0 0Q0 1Q0 2Q0",
        2,
        b"000007 000009 000 rw\n000008 000009 000 rw\n",
    ),
    // the monitors are of two variables
    ("0f1 1b1 0M0 1M1 0w0 1w1 0Q0 1Q1", 0, b""),
    // the first is stopped before the second starts
    ("0f1 1b1 0M0 0w0 0Q0 1M0 1w0 1Q0", 0, b""),
];

#[test]
fn meetings(rt: HostRuntime) -> Result<(), Fail> {
    for (script, found, text) in MEETINGS {
        let bytes = file(rt.alloc(), 3, "s", 2, script)?;
        let t = read(&bytes)?;
        let mut lines = [b'.'; 63];
        let totals = reported(&t, &mut lines)?;
        assert_eq!(rt;
            totals,
            Totals {
                found,
                written: found,
                dropped: 0,
            },
            "{}",
            script
        );
        assert!(rt; lines.starts_with(text), "{}", script);
    }
    Ok(())
}

#[test]
fn a_full_sink(rt: HostRuntime) -> Result<(), Fail> {
    let script = "0f1 0f2 1b1 2b2 0N0 1N0 2M0 0r0 1r0 2w0 0Q0 1Q0 2Q0";
    let bytes = file(rt.alloc(), 3, "s", 2, script)?;
    let t = read(&bytes)?;
    let mut lines = [b'.'; 22];
    let totals = reported(&t, &mut lines)?;
    assert_eq!(rt;
        totals,
        Totals {
            found: 2,
            written: 1,
            dropped: 1,
        }
    );
    assert!(rt; &lines == b"000007 000009 000 rw\n.");
    Ok(())
}

#[test]
fn a_placement_that_is_refused(rt: HostRuntime) -> Result<(), Fail> {
    let bytes = file(rt.alloc(), 3, "s", 2, "0f1 1b1 0M0 0w0 1N0 1r0 0l0 0Q0 1Q0")?;
    let t = read(&bytes)?;
    let mut lines = [b'.'; 63];
    assert_eq!(rt;
        verdict(reported(&t, &mut lines)),
        (11, 5, 7),
        "the release ends the write's region"
    );
    assert!(rt; lines == [b'.'; 63], "no line");
    Ok(())
}
