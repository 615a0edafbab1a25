// The mathematics of monitors: each theorem is the contract of a small function.
ghost use Rattle.monitor.specs.Theorems.{RegionsAgree, RegionsAreSpans, OnlySomeEventsUncover, PlacementIsComputed, EachOverlapIsARace, EachMeetingOverlaps, OverlapsAreComputed, TablesFindOverlaps};

pub fn regions_agree()
    ensures { RegionsAgree }
{}

pub fn regions_are_spans()
    ensures { RegionsAreSpans }
{}

pub fn only_some_events_uncover()
    ensures { OnlySomeEventsUncover }
{}

pub fn placement_is_computed()
    ensures { PlacementIsComputed }
{}

pub fn each_overlap_is_a_race()
    ensures { EachOverlapIsARace }
{}

pub fn each_meeting_overlaps()
    ensures { EachMeetingOverlaps }
{}

pub fn overlaps_are_computed()
    ensures { OverlapsAreComputed }
{}

pub fn tables_find_overlaps()
    ensures { TablesFindOverlaps }
{}
