// The check of the placement of monitors.
ghost use Rattle.std.specs.Prelude.{◌≡◌, ◌≤◌, [], length};
ghost use Rattle.event.specs.Thins.{Sound};
ghost use Rattle.source.specs.Listed.{listed};
ghost use Rattle.monitor.specs.Tables.{size, tabled};
ghost use Rattle.monitor.specs.Lent.{LeftWith};
ghost use Rattle.monitor.specs.Placement.{lowest};
ghost use Rattle.monitor.specs.Checks.{checked, Judged, reached, left};

use crate::fault::PlacementFault;
use crate::level::Level;
use crate::look::Look;
use crate::table::{Levels, room};
use event::Event;
use source::EventList;

// The lowest uncovered moment. The levels are left as they are at that moment, or at the last one.
fn first_uncovered(events: &[Event], levels: &mut Levels<'_>) -> Option<usize>
    requires sound { Sound levels.old.counts events.now }
    requires room { size levels.old.counts ≤ length levels.old.table.now }
    requires clear { levels.old.table.now ≡ tabled levels.old.counts [] levels.old.table.now }
    ensures answer { result ≡ lowest levels.old.counts events.now }
    ensures levels { LeftWith levels.old levels.new (tabled levels.old.counts (reached levels.old.counts events.now) levels.old.table.now) }
{
    for (i, &e) in events.iter().enumerate() {
        levels.step(e);
        let look = Look {
            events,
            moment: i + 1,
            thread: e.thread,
        };
        if look.uncovered_by(e, levels) {
            return Some(look.moment);
        }
    }
    None
}

// Accepts exactly if each held moment lies in the region of a fitting access. The table is first cleared as far as it is used, and left with the
// levels of the last moment, or of the lowest uncovered one. A table that is too small is refused unchanged.
pub fn check(list: &EventList<'_>, levels: &mut [Level]) -> Result<(), PlacementFault>
    ensures answer { result ≡ checked list.now.counts (listed list.now) (length levels.old) }
    ensures exact { Judged list.now.counts (listed list.now) (length levels.old) result }
    ensures levels { levels.new ≡ left list.now.counts (listed list.now) levels.old }
{
    let counts = list.counts();
    room(counts, levels.len())?;
    let mut lent = Levels {
        counts,
        table: levels,
    };
    lent.clear();
    first_uncovered(list.as_slice(), &mut lent).map_or(
        Ok(()),
        |moment| Err(PlacementFault::Uncovered { moment }),
    )
}
