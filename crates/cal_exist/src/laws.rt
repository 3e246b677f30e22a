//! A design has a run.
ghost use Rattle.cal_exist.specs.Laws.{DesignsHaveRuns};

/// By C1 to C12 and plain names a design has a run from each of its components, whatever its inputs and the words in its memories are.
pub fn designs_have_runs()
    ensures { DesignsHaveRuns }
{}
