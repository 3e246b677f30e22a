//! Laws of the rows of a lane, one after another.
ghost use Rattle.net_lanes.specs.LaneRuns.{LanesGoOn, LanesEndInTheirConflicts, LanesStay};

/// Where a lane does not rest, a row without a Conflict and an edge go on to the next row of its run.
pub fn lanes_go_on()
    ensures { LanesGoOn }
{}

/// A Conflict ends the run of its lane, and its port is the reported one.
pub fn lanes_end_in_their_conflicts()
    ensures { LanesEndInTheirConflicts }
{}

/// A lane whose run is over stays as it is, whatever it gets.
pub fn lanes_stay()
    ensures { LanesStay }
{}
