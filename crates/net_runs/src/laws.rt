//! A netlist has a run.
ghost use Rattle.net_runs.specs.Laws.{NetlistsHaveRuns};

/// By N1 to N6 a netlist has a run, whatever its inputs and the words in its memories are.
pub fn netlists_have_runs()
    ensures { NetlistsHaveRuns }
{}
