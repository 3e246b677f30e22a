//! Laws of runs of designs.
ghost use Rattle.cal_ast.specs.Laws.{DrivesAreLocal, KnownPortsArePlain, AssignmentsArePlain, HasNoLoopOverPaths};

/// Where names are plain, what drives a port of an instance is told by the names of its component alone.
pub fn drives_are_local()
    ensures { DrivesAreLocal }
{}

/// Where the names of pins and cells are plain, so are those of each port that a line names.
pub fn known_ports_are_plain()
    ensures { KnownPortsArePlain }
{}

/// By C1 to C11 so are those of all ports of an assignment, continuous or in a group.
pub fn assignments_are_plain()
    ensures { AssignmentsArePlain }
{}

/// By C1 to C12 no port reaches itself over instances: a loop of full names would be one in some component.
pub fn no_loop_over_paths()
    ensures { HasNoLoopOverPaths }
{}
