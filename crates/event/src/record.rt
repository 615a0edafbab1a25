// One event of a trace.
use crate::letter::Letter;

// `place` is the event's index in its trace, from 0. `number` names a variable, an object or a thread, as the letter says.
// `region` is the number of a code region, 0 on all but reads and writes.
#[derive(Clone, Copy, PartialEq, Eq, Debug)]
pub struct Event {
    pub place: u32,
    pub thread: u8,
    pub letter: Letter,
    pub number: u16,
    pub region: u16,
}
