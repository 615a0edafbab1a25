// What the programs write for an input.
use crate::script::file;
use output::{
    Answering, ListOverlaps, ListRaces, Overlaps, Races, list_overlaps, list_races, respond,
};
use std::alloc::Global;
use std::test::Fail;

// what is written, and whether it is a list
fn answered<L: Answering>(heap: Global, input: &[u8]) -> Result<(bool, Vec<u8>), Fail> {
    let mut written = Vec::new(heap);
    let mut rest = input;
    let listed = respond::<L, _, _>(heap, &mut rest, &mut written)?;
    Ok((listed, written))
}

#[test]
fn races_of_an_input(rt: HostRuntime) -> Result<(), Fail> {
    let heap = rt.alloc();
    let bytes = file(heap, 2, "m", 1, "0f1 1b1 0w0 1w0")?;
    let (listed, text) = answered::<Races>(heap, &bytes)?;
    assert!(rt; listed, "a list");
    assert!(rt;
        text.as_slice() == b"000002 000003 000 ww\nfound 1 written 1 dropped 0\n".as_slice(),
        "one race"
    );
    Ok(())
}

#[test]
fn overlaps_of_an_input(rt: HostRuntime) -> Result<(), Fail> {
    let heap = rt.alloc();
    let bytes = file(heap, 2, "m", 1, "0f1 1b1 0M0 0w0 1N0 1r0 0Q0 1Q0")?;
    let (listed, text) = answered::<Overlaps>(heap, &bytes)?;
    assert!(rt; listed, "a list");
    assert!(rt;
        text.as_slice() == b"000003 000005 000 wr\nfound 1 written 1 dropped 0\n".as_slice(),
        "one overlap"
    );
    Ok(())
}

#[test]
fn refused_inputs(rt: HostRuntime) -> Result<(), Fail> {
    let heap = rt.alloc();
    let (listed, text) = answered::<Races>(heap, b"TC\x02")?;
    assert!(rt; !listed, "no list");
    assert!(rt;
        text.as_slice() == b"refused 2 layer 1 place 0\n".as_slice(),
        "another version"
    );
    let long = [0; 65537];
    let (listed, text) = answered::<Overlaps>(heap, &long)?;
    assert!(rt; !listed, "no list");
    assert!(rt;
        text.as_slice() == b"refused 12 layer 6 place 65537\n".as_slice(),
        "too long"
    );
    Ok(())
}

// The two calls that the programs answer by succeed, and what is written is their text.
#[test]
fn the_programs_answers(rt: HostRuntime) -> Result<(), Fail> {
    let heap = rt.alloc();
    let bytes = file(heap, 2, "m", 1, "0f1 1b1 0w0 1w0")?;
    let races = list_races(heap, &bytes)?;
    let (listed, text) = answered::<ListRaces>(heap, &bytes)?;
    assert!(rt; listed && text.as_slice() == races.text(), "the races");
    assert!(rt;
        races.text() == b"000002 000003 000 ww\nfound 1 written 1 dropped 0\n".as_slice(),
        "one race"
    );
    let bytes = file(heap, 2, "m", 1, "0f1 1b1 0M0 0w0 1N0 1r0 0Q0 1Q0")?;
    let overlaps = list_overlaps(heap, &bytes)?;
    let (listed, text) = answered::<ListOverlaps>(heap, &bytes)?;
    assert!(rt;
        listed && text.as_slice() == overlaps.text(),
        "the overlaps"
    );
    assert!(rt;
        overlaps.text() == b"000003 000005 000 wr\nfound 1 written 1 dropped 0\n".as_slice(),
        "one overlap"
    );
    Ok(())
}
