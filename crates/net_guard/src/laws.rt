//! The laws of simplified netlists.
ghost use Rattle.net_guard.specs.SameRuns.{SimplifiedHasNoLoop, SimplifiedIsValid, SimplifiedHasSameRuns};
ghost use Rattle.net_guard.specs.KeepsText.{SimplifiedKeepsText};

/// A simplified netlist has the runs of the old one, which stop alike, and the same Conflicts.
pub fn simplified_has_same_runs()
    ensures { SimplifiedHasSameRuns }
{}

/// It keeps N1 to N5 where the old one does.
pub fn simplified_is_valid()
    ensures { SimplifiedIsValid }
{}

/// It keeps N6 where the old one does.
pub fn simplified_has_no_loop()
    ensures { SimplifiedHasNoLoop }
{}

/// It has a text where the old one does.
pub fn simplified_keeps_text()
    ensures { SimplifiedKeepsText }
{}
