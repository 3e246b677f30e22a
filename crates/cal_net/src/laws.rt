//! What flattening and folding keep of a Calyx design that is lowered to wires.
ghost use Rattle.cal_net.specs.Laws.{FlattenedWiresHaveText, FlattenedWiresRefine, SimplifiedNetsRefine};

/// Wires that lower a design, flattened, are a netlist that shows what the design does.
pub fn flattened_wires_refine()
    ensures { FlattenedWiresRefine }
{}

/// The netlist has a text.
pub fn flattened_wires_have_text()
    ensures { FlattenedWiresHaveText }
{}

/// A netlist with its guards folded shows the same.
pub fn simplified_nets_refine()
    ensures { SimplifiedNetsRefine }
{}
