// Chains, entries and clocks.
ghost use Rattle.order.specs.Theorems.{LaterEventsAddNoChain, ChainsAreComputed, ReachingIsComputed, EntriesAreComputed, TheLatestIsReached, TheEntryTest, TheClockTest};

pub fn later_events_add_no_chain()
    ensures { LaterEventsAddNoChain }
{}

pub fn chains_are_computed()
    ensures { ChainsAreComputed }
{}

pub fn reaching_is_computed()
    ensures { ReachingIsComputed }
{}

pub fn entries_are_computed()
    ensures { EntriesAreComputed }
{}

pub fn the_latest_is_reached()
    ensures { TheLatestIsReached }
{}

pub fn the_entry_test()
    ensures { TheEntryTest }
{}

pub fn the_clock_test()
    ensures { TheClockTest }
{}
