//! The Verilog that netlists are printed in: its trees, the texts that spell them, and what a module does in each cycle of its
//! clock, by IEEE 1364-2005; and the module of a netlist.
//!
//! In and out: nothing that runs. Each function is a law, whose contract is the statement and whose body is empty.
//!
//!     assign \a.out = \a.left + \a.right ;
//!
//! of wires of 8 bits makes `\a.out ` the sum modulo 256: the expression has 8 bits by itself, and its target gives it no more.
//!
//!     cells_show_outputs    in Verilog each output of a cell shows what its primitive computes (`CellsShowOutputs`)
//!     cells_take_next       and at the edge it takes its primitive's next state (`CellsTakeNext`)
//!     cells_open            from its opening state on (`CellsOpen`)
//!
//! What stands above: `ver_runs`, whose laws say that the module of a netlist does what the netlist does.
#![tactic(auto)]

mod laws;

pub use laws::{cells_open, cells_show_outputs, cells_take_next};
