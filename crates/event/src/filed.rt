// How a fault is reported: by its number, the layer that found it, and a place.
ghost use Rattle.std.specs.Prelude.{◌≡◌, Some};
ghost use Rattle.event.specs.declared.filed.Filed.{Filed};
ghost use Rattle.event.specs.Faults.{shown};

use std::fmt;

// The place is an offset, a place of an event, a moment, a size or a count, as the fault says.
#[derive(Clone, Copy, PartialEq, Eq, Debug)]
pub struct Filed {
    pub number: u8,
    pub layer: u8,
    pub place: usize,
}

// As `refused 9 layer 4 place 3`.
impl fmt::Display for Filed {
    ghost output = { λ f. Some (shown f) };

    fn fmt<W: fmt::Write>(&self, f: &mut fmt::Formatter<W>) -> fmt::Result {
        write!(
            f,
            "refused {} layer {} place {}",
            self.number, self.layer, self.place
        )
    }
}

// What has a number, a layer and a place.
pub trait Fault {
    ghost filing: { Self → Filed };

    fn filed(&self) -> Filed
        ensures { result ≡ filing self.now };

    fn number(&self) -> u8
        ensures { result ≡ (filing self.now).number }
    {
        self.filed().number
    }

    fn layer(&self) -> u8
        ensures { result ≡ (filing self.now).layer }
    {
        self.filed().layer
    }

    fn place(&self) -> usize
        ensures { result ≡ (filing self.now).place }
    {
        self.filed().place
    }
}
