//! The law that a design flattened keeps the runs of the design.
ghost use Rattle.net_flat.specs.Laws.{FlattenedKeepsRuns};

/// Each run of the netlist is a run of the design, of the same height, with the same rows and the same reported Conflict or none.
pub fn flattened_keeps_runs()
    ensures { FlattenedKeepsRuns }
{}
