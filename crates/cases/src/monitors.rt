// Which placements of monitors are accepted, and the lowest moment of the others.
use crate::script::{NOTHING, file, verdict};
use event::{Event, Letter};
use monitor::{Level, PlacementFault, check as check_placement};
use source::EventList;
use source::source::Source;
use std::test::Fail;
use trace::{Trace, read};

fn placed(t: &Trace<'_>, levels: &mut [Level]) -> Result<(u8, u8, usize), Fail> {
    let mut table = [NOTHING; 32];
    let mut list = EventList::new(t.counts(), &mut table);
    let mut events = t.events();
    list.copy_from(&mut events)?;
    Ok(verdict(check_placement(&list, levels)))
}

// two threads, a semaphore, two variables
const PLACEMENTS: [(&str, (u8, u8, usize)); 16] = [
    ("", (0, 0, 0)),
    ("0f1 1b1 0M0 0w0 1N0 1r0 0Q0 1Q0", (0, 0, 0)),
    ("0M0 0w0 0a0 0l0 0w0 0Q0", (0, 0, 0)),
    ("0M0 0w0 0l0 0a0 0w0 0Q0", (11, 5, 3)),
    ("0M0 0Q0", (11, 5, 1)),
    ("0N0 0r0 0Q0", (0, 0, 0)),
    ("0M0 0r0 0Q0", (11, 5, 1)),
    ("0N0 0w0 0Q0", (0, 0, 0)),
    ("0N0 0r0 0M0 0w0 0D0 0r0 0Q0", (0, 0, 0)),
    ("0M0 0w0 0D0 0l0 0Q0", (11, 5, 4)),
    ("0M0 0w0 0l0 0Q0", (11, 5, 3)),
    ("0M0 0a0 0w0 0Q0", (11, 5, 1)),
    ("0w0 0M0 0Q0", (0, 0, 0)),
    ("0M1 0w0 0Q1", (11, 5, 1)),
    ("0f1 1b1 0M0 1w0 0Q0", (11, 5, 3)),
    ("0M0 0w0", (0, 0, 0)),
];

#[test]
fn placements(rt: HostRuntime) -> Result<(), Fail> {
    for (script, want) in PLACEMENTS {
        let bytes = file(rt.alloc(), 2, "s", 2, script)?;
        let t = read(&bytes)?;
        let mut levels = [Level::Strong; 4];
        assert_eq!(rt; placed(&t, &mut levels)?, want, "{}", script);
    }
    Ok(())
}

#[test]
fn a_small_table(rt: HostRuntime) -> Result<(), Fail> {
    let bytes = file(rt.alloc(), 2, "s", 2, "0M0 0Q0")?;
    let t = read(&bytes)?;
    let mut levels = [Level::Strong; 3];
    assert_eq!(rt; placed(&t, &mut levels)?, (12, 6, 4));
    assert!(rt;
        levels[0] == Level::Strong,
        "a refused check changes nothing"
    );
    Ok(())
}

#[test]
fn the_levels_that_are_left(rt: HostRuntime) -> Result<(), Fail> {
    let bytes = file(rt.alloc(), 2, "s", 2, "0M0 0w0 0N1 0r1")?;
    let t = read(&bytes)?;
    let mut levels = [Level::Weak; 5];
    assert_eq!(rt; placed(&t, &mut levels)?, (0, 0, 0));
    assert!(rt; levels[0] == Level::Strong && levels[1] == Level::Weak);
    assert!(rt; levels[2] == Level::None && levels[3] == Level::None);
    assert!(rt; levels[4] == Level::Weak, "an entry that is not used stays");
    Ok(())
}
