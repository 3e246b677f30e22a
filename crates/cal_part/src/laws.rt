//! Laws of parts of runs, and of designs that hold other designs.
ghost use Rattle.cal_part.specs.Laws.{BareIsBare, ControlledSubRuns, FirstRowsAreRuns, ScheduledIsBare, SubRuns, SubRunsStop};
ghost use Rattle.cal_part.specs.Laws.{ConflictsAreOfInstances, ConflictsBelow, HeldConflicts, HeldRuns, SameBelow};
ghost use Rattle.cal_part.specs.Laws.{LooksKeepNoLoop, LooksKeepRules, RanksShowNoLoop, WiresKeepRules};
ghost use Rattle.cal_part.specs.Laws.{FrontIsWired, FrontIsWiredBelow, FrontKeepsRules};
ghost use Rattle.cal_part.specs.Laws.{RenamedIsPlain, RenamedIsSame, RenamedIsWired, RenamedKeepsRules};

/// The first rows of a run are a run.
pub fn first_rows_are_runs()
    ensures { FirstRowsAreRuns }
{}

/// Below the path of an instance a run of a design is a run of the instance's component, with no Conflict but those of the whole.
pub fn sub_runs()
    ensures { SubRuns }
{}

/// And how it stops.
pub fn sub_runs_stop()
    ensures { SubRunsStop }
{}

/// Each Conflict is one of an instance.
pub fn conflicts_are_of_instances()
    ensures { ConflictsAreOfInstances }
{}

/// And one of an instance at a path or below it is one of the component there.
pub fn conflicts_below()
    ensures { ConflictsBelow }
{}

/// Where continuous assignments alone act, so they do below a path.
pub fn bare_is_bare()
    ensures { BareIsBare }
{}

/// Under control the parts are bare where all instances from a component down are wires alone.
pub fn scheduled_is_bare()
    ensures { ScheduledIsBare }
{}

/// And where there is control, the run there is one under control.
pub fn controlled_sub_runs()
    ensures { ControlledSubRuns }
{}

/// Hierarchies that are the same but for the names of their components have the same runs, with the same Conflicts.
pub fn same_below()
    ensures { SameBelow }
{}

/// A design whose components get other names keeps C1 to C12.
pub fn renamed_keeps_rules()
    ensures { RenamedKeepsRules }
{}

/// So does a design of wires alone.
pub fn renamed_is_wired()
    ensures { RenamedIsWired }
{}

/// Its names stay plain.
pub fn renamed_is_plain()
    ensures { RenamedIsPlain }
{}

/// And the hierarchy below each component stays the same.
pub fn renamed_is_same()
    ensures { RenamedIsSame }
{}

/// Components keep C1 to C12 and the hierarchies below them, whatever components come after them.
pub fn front_keeps_rules()
    ensures { FrontKeepsRules }
{}

/// So a design of wires with further ones after it is one.
pub fn front_is_wired()
    ensures { FrontIsWired }
{}

/// And below each of its components all is wires, whatever comes after.
pub fn front_is_wired_below()
    ensures { FrontIsWiredBelow }
{}

/// C1 to C11 ask no more of a component of wires alone than at its signature, its cells and its assignments.
pub fn wires_keep_rules()
    ensures { WiresKeepRules }
{}

/// C12 holds of a component where some rank of its ports falls.
pub fn ranks_show_no_loop()
    ensures { RanksShowNoLoop }
{}

/// A component keeps C1 to C11 in a design in which it looks the same.
pub fn looks_keep_rules()
    ensures { LooksKeepRules }
{}

/// And C12, where what its cells are made of passes no more on.
pub fn looks_keep_no_loop()
    ensures { LooksKeepNoLoop }
{}

/// A design whose components got other names, and that others come after, runs below a path as it does by itself.
pub fn held_runs()
    ensures { HeldRuns }
{}

/// And each Conflict of an instance there is one of it.
pub fn held_conflicts()
    ensures { HeldConflicts }
{}
