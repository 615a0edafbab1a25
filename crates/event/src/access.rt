// Reads and writes.
ghost use Rattle.std.specs.Prelude.{◌≡◌};
ghost use Rattle.event.specs.Thins.{access};

use crate::letter::Letter;
use crate::record::Event;

impl Event {
    pub fn is_access(&self) -> bool
        ensures { result ≡ access self.now }
    {
        matches!(self.letter, Letter::Read | Letter::Write)
    }
}
