// What can be wrong with a trace file, by layer. An upper layer's fault carries the lower one whole.
ghost use Rattle.std.specs.Prelude.{◌≡◌};
ghost use Rattle.format.specs.declared.fault.SectionFault.TheVariants.{Bytes};
ghost use Rattle.format.specs.declared.fault.EventFault.TheVariants.{Sections};
ghost use Rattle.format.specs.declared.fault.OrderFault.TheVariants.{Events};
ghost use Rattle.format.specs.Filed.{byte_filed, section_filed, event_filed, order_filed};

use event::{Fault, Filed};

#[derive(Clone, Copy, PartialEq, Eq, Debug)]
pub enum ByteFault {
    // the file ends inside the item that begins at this offset
    Ends { offset: usize },
    // the first three bytes are not those of a trace file
    Magic,
}

#[derive(Clone, Copy, PartialEq, Eq, Debug)]
pub enum SectionFault {
    Bytes(ByteFault),
    // a count outside its limits
    Count { offset: usize },
    // a bad name or object letter
    Entry { offset: usize },
    // bytes left after the last event
    Left { offset: usize },
}

#[derive(Clone, Copy, PartialEq, Eq, Debug)]
pub enum EventFault {
    Sections(SectionFault),
    // an unknown letter
    Letter { place: usize },
    // a thread or a number out of range
    Range { place: usize },
    // a region where none belongs
    Region { place: usize },
}

#[derive(Clone, Copy, PartialEq, Eq, Debug)]
pub enum OrderFault {
    Events(EventFault),
    // a mutex acquired while it is held, or released by another than its holder
    Mutex { place: usize },
    // an event that its thread, or the thread that it names, cannot do at this stage of its life
    Life { place: usize },
}

impl From<ByteFault> for SectionFault {
    ghost from_gives = { λ b r. r ≡ Bytes b };

    fn from(b: ByteFault) -> SectionFault {
        SectionFault::Bytes(b)
    }
}

impl From<SectionFault> for EventFault {
    ghost from_gives = { λ s r. r ≡ Sections s };

    fn from(s: SectionFault) -> EventFault {
        EventFault::Sections(s)
    }
}

impl From<EventFault> for OrderFault {
    ghost from_gives = { λ e r. r ≡ Events e };

    fn from(e: EventFault) -> OrderFault {
        OrderFault::Events(e)
    }
}

impl From<SectionFault> for OrderFault {
    ghost from_gives = { λ s r. r ≡ Events (Sections s) };

    fn from(s: SectionFault) -> OrderFault {
        OrderFault::Events(EventFault::Sections(s))
    }
}

impl Fault for ByteFault {
    ghost filing = { byte_filed };

    fn filed(&self) -> Filed {
        let (number, place) = match self {
            ByteFault::Ends { offset } => (1, *offset),
            ByteFault::Magic => (2, 0),
        };
        Filed {
            number,
            layer: 1,
            place,
        }
    }
}

impl Fault for SectionFault {
    ghost filing = { section_filed };

    fn filed(&self) -> Filed {
        let (number, place) = match self {
            SectionFault::Bytes(b) => return b.filed(),
            SectionFault::Count { offset } => (3, *offset),
            SectionFault::Entry { offset } => (4, *offset),
            SectionFault::Left { offset } => (5, *offset),
        };
        Filed {
            number,
            layer: 2,
            place,
        }
    }
}

impl Fault for EventFault {
    ghost filing = { event_filed };

    fn filed(&self) -> Filed {
        let (number, place) = match self {
            EventFault::Sections(s) => return s.filed(),
            EventFault::Letter { place } => (6, *place),
            EventFault::Range { place } => (7, *place),
            EventFault::Region { place } => (8, *place),
        };
        Filed {
            number,
            layer: 3,
            place,
        }
    }
}

impl Fault for OrderFault {
    ghost filing = { order_filed };

    fn filed(&self) -> Filed {
        let (number, place) = match self {
            OrderFault::Events(e) => return e.filed(),
            OrderFault::Mutex { place } => (9, *place),
            OrderFault::Life { place } => (10, *place),
        };
        Filed {
            number,
            layer: 4,
            place,
        }
    }
}
