// Why the placement of monitors is not accepted.
ghost use Rattle.std.specs.Prelude.{◌≡◌};
ghost use Rattle.monitor.specs.declared.fault.PlacementFault.TheVariants.{Caller};
ghost use Rattle.monitor.specs.Faults.{placement_filed};

use event::{CallerFault, Fault, Filed};

#[derive(Clone, Copy, PartialEq, Eq, Debug)]
pub enum PlacementFault {
    Caller(CallerFault),
    // a moment at which a level is held and no access covers it: the lowest
    Uncovered { moment: usize },
}

impl From<CallerFault> for PlacementFault {
    ghost from_gives = { λ f r. r ≡ Caller f };

    fn from(f: CallerFault) -> PlacementFault {
        PlacementFault::Caller(f)
    }
}

impl Fault for PlacementFault {
    ghost filing = { placement_filed };

    fn filed(&self) -> Filed {
        match self {
            PlacementFault::Caller(f) => f.filed(),
            PlacementFault::Uncovered { moment } => Filed {
                number: 11,
                layer: 5,
                place: *moment,
            },
        }
    }
}
