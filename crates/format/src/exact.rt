// The theorem of the trace file, as the contract of a small function.
ghost use Rattle.format.specs.Exact.{FilesAreReadExactly};

// Stands for what its contract states: the definition by which files are read accepts exactly the encodings of lawful contents, and refuses every other file for its first fault.
pub fn files_are_read_exactly()
    ensures { FilesAreReadExactly }
{}
