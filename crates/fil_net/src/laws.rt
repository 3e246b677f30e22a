//! That what is lowered, flattened and simplified keeps what the design promises.
ghost use Rattle.fil_net.specs.Laws.{
  WrittenDesignsArePlain,
  FlattenedLoweringsRefine,
  FlattenedLoweringsHaveText,
  SimplifiedNetsRefine,
  RefinedNetsShowNoCell,
};

/// Names that a text can have are plain.
pub fn written_designs_are_plain()
    ensures { WrittenDesignsArePlain }
{}

/// A lowered design that is flattened carries every legal list of transactions of its top component, at every path.
pub fn flattened_lowerings_refine()
    ensures { FlattenedLoweringsRefine }
{}

/// And has a text, from which it can be read back.
pub fn flattened_lowerings_have_text()
    ensures { FlattenedLoweringsHaveText }
{}

/// A netlist with its guards folded keeps what the design promises.
pub fn simplified_nets_refine()
    ensures { SimplifiedNetsRefine }
{}

/// No cell of a netlist that keeps what a Filament design promises is loaded or printed by a run.
pub fn refined_nets_show_no_cell()
    ensures { RefinedNetsShowNoCell }
{}
