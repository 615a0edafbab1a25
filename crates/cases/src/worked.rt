// The worked examples as one theorem.
ghost use Rattle.cases.specs.Worked.{Worked};

// Stands for what its contract states: what the definitions that the contracts cite say of small traces.
pub fn worked_examples()
    ensures { Worked }
{}
