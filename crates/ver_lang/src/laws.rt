//! The laws, one function each.
ghost use Rattle.ver_lang.specs.CellLaws.{CellsOpen, CellsShowOutputs, CellsTakeNext};

/// In Verilog each output of a cell shows what its primitive computes.
pub fn cells_show_outputs()
    ensures { CellsShowOutputs }
{}

/// In Verilog a cell takes the next state of its primitive at the edge.
pub fn cells_take_next()
    ensures { CellsTakeNext }
{}

/// In Verilog a cell begins with the opening state of its primitive.
pub fn cells_open()
    ensures { CellsOpen }
{}
