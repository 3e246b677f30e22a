//! Laws of the table of primitives.
ghost use Rattle.hw_prims.specs.Laws.{OutputsFollowThrough, StatesKeepWidths, LoadsGiveOpening};

/// An output depends on the state and on through inputs alone.
pub fn outputs_follow_through()
    ensures { OutputsFollowThrough }
{}

/// From inputs of their widths come outputs and a state of theirs.
pub fn states_keep_widths()
    ensures { StatesKeepWidths }
{}

/// Words that are loaded one after another are those of the opening state.
pub fn loads_give_opening()
    ensures { LoadsGiveOpening }
{}
