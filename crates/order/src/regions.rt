// Regions of accesses.
ghost use Rattle.order.specs.Theorems.{ASharedMomentIsARace, RegionsAreComputed};

pub fn a_shared_moment_is_a_race()
    ensures { ASharedMomentIsARace }
{}

pub fn regions_are_computed()
    ensures { RegionsAreComputed }
{}
