// Counts within their limits, and which threads and numbers are in range under them.
ghost use Rattle.std.specs.Prelude.{◌≡◌, IfOk};
ghost use Rattle.event.specs.Ranges.{counted, nearest, limit, in_range};

use crate::counts::Counts;
use crate::fault::CallerFault;
use crate::letter::Letter;
use crate::record::Event;

impl Counts {
    // Refuses the first count outside its limits, in the order threads, objects, variables.
    pub fn new(threads: usize, objects: usize, variables: usize) -> Result<Counts, CallerFault>
        ensures value { result ≡ counted threads objects variables }
        ensures same { IfOk result (λ c. (c.threads ≡ threads) × (c.objects ≡ objects) × (c.variables ≡ variables)) }
    {
        if !(1..=16).contains(&threads) {
            return Err(CallerFault::Counts { count: threads });
        }
        if objects > 512 {
            return Err(CallerFault::Counts { count: objects });
        }
        if variables > 256 {
            return Err(CallerFault::Counts { count: variables });
        }
        Ok(Counts {
            threads,
            objects,
            variables,
        })
    }

    // The counts within the limits that are nearest to these: these, where they are within the limits.
    pub fn nearest(threads: usize, objects: usize, variables: usize) -> Counts
        ensures { result ≡ nearest threads objects variables }
    {
        Counts {
            threads: threads.max(1).min(16),
            objects: objects.min(512),
            variables: variables.min(256),
        }
    }

    pub fn threads(&self) -> usize
        ensures { result ≡ self.now.threads }
    {
        self.threads
    }

    pub fn objects(&self) -> usize
        ensures { result ≡ self.now.objects }
    {
        self.objects
    }

    pub fn variables(&self) -> usize
        ensures { result ≡ self.now.variables }
    {
        self.variables
    }

    // How many numbers an event with this letter can have.
    pub fn limit(&self, letter: Letter) -> usize
        ensures { result ≡ limit self.now letter }
    {
        match letter {
            Letter::Read
            | Letter::Write
            | Letter::Strong
            | Letter::Weak
            | Letter::Downgrade
            | Letter::Stop => self.variables,
            Letter::Acquire | Letter::Release => self.objects,
            Letter::Fork | Letter::Join | Letter::Begin | Letter::End => self.threads,
        }
    }

    // Whether the event's thread and number are declared.
    pub fn in_range(&self, e: Event) -> bool
        ensures { result ≡ in_range self.now e }
    {
        usize::from(e.thread) < self.threads && usize::from(e.number) < self.limit(e.letter)
    }
}
