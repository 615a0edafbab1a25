// The events that are taken one after another: which may come next.
ghost use Rattle.std.specs.Prelude.{◌≡◌, is_ok, if◌then◌else◌};
ghost use Rattle.event.specs.Intakes.{follows, admitting, fresh, added};

use crate::counts::Counts;
use crate::fault::CallerFault;
use crate::record::Event;

// The highest place that an event can have.
pub const LAST_PLACE: u32 = 999_999;

// How many events were taken, and the place of the last.
#[derive(Clone, Copy, PartialEq, Eq, Debug)]
pub struct Intake {
    pub taken: usize,
    pub last: Option<u32>,
}

// Whether a place can come after the last one.
fn follows(last: Option<u32>, place: u32) -> bool
    ensures { result ≡ follows last place }
{
    last.is_none_or(|q| q < place) && place <= LAST_PLACE
}

impl Intake {
    // No event was taken.
    pub fn new() -> Intake
        ensures { result ≡ fresh }
    {
        Intake {
            taken: 0,
            last: None,
        }
    }

    // Whether an event may come next, where at most so many are taken.
    pub fn admit(&self, counts: Counts, capacity: usize, e: Event) -> Result<(), CallerFault>
        ensures { result ≡ admitting counts capacity self.now.taken self.now.last e }
    {
        let place = e.place as usize;
        if !counts.in_range(e) {
            return Err(CallerFault::Range { place });
        }
        if !follows(self.last, e.place) {
            return Err(CallerFault::Place { place });
        }
        if self.taken >= capacity {
            return Err(CallerFault::Full { capacity });
        }
        Ok(())
    }

    // Takes an event that may come next; a refusal changes nothing.
    pub fn take(&mut self, counts: Counts, capacity: usize, e: Event) -> Result<(), CallerFault>
        ensures answer { result ≡ admitting counts capacity self.old.taken self.old.last e }
        ensures taken { self.new ≡ (if is_ok result then added self.old e else self.old) }
    {
        self.admit(counts, capacity, e)?;
        self.taken += 1;
        self.last = Some(e.place);
        Ok(())
    }
}
