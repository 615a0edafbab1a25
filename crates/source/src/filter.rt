// Sources that are another source with accesses left out, and nothing else.
ghost use Rattle.std.specs.Prelude.{◌≡◌, List};
ghost use Rattle.event.specs.Thins.{Thins};
ghost use Rattle.event.specs.declared.record.Event.{Event};
ghost use Rattle.source.specs.Piles.{ThinningIsReflexive, ThinningIsTransitive, ThinningKeepsSoundness};

use crate::source::Source;

pub trait Filter: Source {
    type Below: Source;

    // The source below.
    ghost under: { Self → Self.Below };

    ghost thins: { (s : Self) → Thins (Self.Below.Source.rest (under s)) (Self.Source.rest s) };

    ghost same: { (s : Self) → Self.Below.Source.counts (under s) ≡ Self.Source.counts s };
}

// Why filters can be piled up.
pub fn thinnings_compose()
    ensures reflexive { ThinningIsReflexive }
    ensures transitive { ThinningIsTransitive }
    ensures sound { ThinningKeepsSoundness }
{}

// One filter more: its list is a thinning of every list that the list below is a thinning of.
// So by one filter after the other a pile of any height is a thinning of what it stands on.
pub fn piles_up<F: Filter>(f: &F)
    ensures thins { (whole : List Event) → Thins whole (F.Below.Source.rest (F.Filter.under f.now)) → Thins whole (F.Source.rest f.now) }
    ensures same { F.Below.Source.counts (F.Filter.under f.now) ≡ F.Source.counts f.now }
{}

// A filter over a filter leaves out accesses of what both stand on, and nothing else.
pub fn pile_of_two<P: Filter, F: Filter<Below = P>>(f: &F)
    ensures thins { Thins (P.Below.Source.rest (P.Filter.under (F.Filter.under f.now))) (F.Source.rest f.now) }
    ensures same { P.Below.Source.counts (P.Filter.under (F.Filter.under f.now)) ≡ F.Source.counts f.now }
{}
