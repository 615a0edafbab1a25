// An event of a file: letter, thread, number and region, six bytes.
ghost use Rattle.std.specs.Prelude.{◌≡◌};
ghost use Rattle.format.specs.Events.{judged, read_event};

use event::{Counts, Event, Letter};
use format::fault::EventFault;

// Refuses a thread or a number out of range, then a region on what is no access.
fn judge(counts: Counts, e: Event) -> Result<Event, EventFault>
    ensures { result ≡ judged counts e }
{
    let place = e.place as usize;
    if !counts.in_range(e) {
        return Err(EventFault::Range { place });
    }
    if !e.is_access() && e.region != 0 {
        return Err(EventFault::Region { place });
    }
    Ok(e)
}

// The event with this place, whose bytes are these.
pub(crate) fn event(counts: Counts, place: u32, bytes: &[u8; 6]) -> Result<Event, EventFault>
    ensures { result ≡ read_event counts place bytes.now }
{
    let [b, thread, n1, n0, r1, r0] = *bytes;
    let letter = Letter::try_from(b).map_err(|_| EventFault::Letter {
        place: place as usize,
    })?;
    let number = u16::from_be_bytes([n1, n0]);
    let region = u16::from_be_bytes([r1, r0]);
    judge(
        counts,
        Event {
            place,
            thread,
            letter,
            number,
            region,
        },
    )
}
