// Trace files from short scripts, and how a refusal is compared. An event is written as its thread, its letter and its number, one digit each: `0f1` is
// thread 0 forking thread 1.
use event::{Event, Fault, Letter};
use std::alloc::{AllocError, Global};

// What a table of events holds before it is used.
pub const NOTHING: Event = Event {
    place: 0,
    thread: 0,
    letter: Letter::Read,
    number: 0,
    region: 0,
};

// The events of the trace in examples/setpoint.trace.
pub const SETPOINT: &str = "0f1 1b1 0a0 0w0 0l0 1r0 1a0 1w0 1l0 0w0";

// number, layer and place of the refusal, or zeros: the tests' tables write a refusal as the programs print it
pub fn verdict<T: Drop, F: Fault + Drop>(r: Result<T, F>) -> (u8, u8, usize) {
    match r {
        Ok(_) => (0, 0, 0),
        Err(f) => (f.number(), f.layer(), f.place()),
    }
}

// number and place of the refusal, or zeros
pub fn refusal<T: Drop, F: Fault + Drop>(r: Result<T, F>) -> (u8, usize) {
    let (number, _, place) = verdict(r);
    (number, place)
}

fn digit(b: u8) -> u8 {
    b.wrapping_sub(b'0')
}

fn add_names(file: &mut Vec<u8>, count: u8, name: u8) -> Result<(), AllocError> {
    file.extend_from_slice(&[0, count])?;
    for _ in 0..count {
        file.extend_from_slice(&[1, name])?;
    }
    Ok(())
}

fn add_objects(file: &mut Vec<u8>, letters: &[u8]) -> Result<(), AllocError> {
    file.extend_from_slice(&[0, (letters.len() % 256) as u8])?;
    for letter in letters {
        file.extend_from_slice(&[*letter, 1, b'o'])?;
    }
    Ok(())
}

fn add_event(file: &mut Vec<u8>, word: &[u8]) -> Result<(), AllocError> {
    let (thread, letter, number, region) = match word {
        [thread, letter, number] => (thread, letter, number, 0),
        [thread, letter, number, region] => (thread, letter, number, digit(*region)),
        _ => return Ok(()),
    };
    file.extend_from_slice(&[*letter, digit(*thread), 0, digit(*number), 0, region])
}

// The three sections: so many threads, an object for each letter, so many variables.
pub fn sections(
    heap: Global,
    threads: u8,
    objects: &str,
    variables: u8,
) -> Result<Vec<u8>, AllocError> {
    let mut file = Vec::new(heap);
    file.extend_from_slice(b"TC\x01")?;
    add_names(&mut file, threads, b't')?;
    add_objects(&mut file, objects.as_bytes())?;
    add_names(&mut file, variables, b'v')?;
    Ok(file)
}

// A whole file. A fourth digit of an event is its region.
pub fn file(
    heap: Global,
    threads: u8,
    objects: &str,
    variables: u8,
    events: &str,
) -> Result<Vec<u8>, AllocError> {
    let mut file = sections(heap, threads, objects, variables)?;
    let count = events.split_whitespace().count();
    file.extend_from_slice(&[0, 0, (count / 256 % 256) as u8, (count % 256) as u8])?;
    for word in events.split_whitespace() {
        add_event(&mut file, word.as_bytes())?;
    }
    Ok(file)
}
