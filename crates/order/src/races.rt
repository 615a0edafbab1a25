// Races, and what is found of them.
ghost use Rattle.order.specs.Runs.{AToldRaceIsFound, WithNoFilterEachRaceIsFound, MoreEventsFindMoreInRuns, AnOrderedPairIsNeverFound};
ghost use Rattle.order.specs.Theorems.{ThinningsPileUp, ThinningKeepsRaces, MoreEventsFindMore};

pub fn thinnings_pile_up()
    ensures { ThinningsPileUp }
{}

pub fn thinning_keeps_races()
    ensures { ThinningKeepsRaces }
{}

pub fn more_events_find_more()
    ensures { MoreEventsFindMore }
{}

pub fn a_told_race_is_found()
    ensures { AToldRaceIsFound }
{}

pub fn with_no_filter_each_race_is_found()
    ensures { WithNoFilterEachRaceIsFound }
{}

pub fn more_events_find_more_in_runs()
    ensures { MoreEventsFindMoreInRuns }
{}

pub fn an_ordered_pair_is_never_found()
    ensures { AnOrderedPairIsNeverFound }
{}
