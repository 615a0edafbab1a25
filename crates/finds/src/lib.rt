// The list of a run's findings, and that it has exactly the races.
#![tactic(auto)]

ghost use Rattle.finds.specs.Theorems.{TheFindingsAreTheRaces};

pub fn the_findings_are_the_races()
    ensures { TheFindingsAreTheRaces }
{}
