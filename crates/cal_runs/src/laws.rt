//! A design has one run.
ghost use Rattle.cal_ast.specs.Keeping.{RunsAreUnique};
ghost use Rattle.cal_runs.specs.Laws.{ActorsAreOne, RowsAreOne};

/// By C1 to C12 and plain names, two runs of the same inputs and words in memories have one height and one stop, and agree at every port and cell.
pub fn runs_are_unique()
    ensures { RunsAreUnique }
{}

/// Two runs of the same inputs and words go together, however many rows each is asked for.
pub fn rows_are_one()
    ensures { RowsAreOne }
{}

/// Two runs of the same inputs and words let the same actors act in each row that both have.
pub fn actors_are_one()
    ensures { ActorsAreOne }
{}
