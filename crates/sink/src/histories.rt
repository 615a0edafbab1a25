// What the sinks keep of many pairs.
ghost use Rattle.sink.specs.Histories.{LinesFollow, CountersCount};

pub fn lines_follow()
    ensures { LinesFollow }
{}

pub fn counters_count()
    ensures { CountersCount }
{}
