//! The Verilog text of netlists.
//!
//! In: a netlist with the table of its ports. Out: the bytes of one Verilog module, with its clock before the netlist's ports
//! (`print_verilog`).
//!
//!     cell r std_reg 8          reg [7:0] \r.$0 = 8'd0;
//!                               reg [0:0] \r.$1 = 1'd0;
//!                               assign \r.out = \r.$0 ;
//!                               assign \r.done = \r.$1 ;
//!                               always @(posedge \$clk ) begin \r.$1 <= \r.write_en ; if (\r.write_en ) \r.$0 <= \r.in ; end
//!
//!     set M.left = go ? a       assign \M.left = (\go ) ? \a : (\f ) ? \c : 8'd0;
//!     set M.left = f ? c
//!
//! Every name is an escaped one, with the space that ends it; so dots stay, and no name is a keyword. A port that nothing drives
//! is 0. Where a run ends in a Conflict, Verilog takes the first assignment whose guard is true, and goes on.
//!
//! How it goes: `ports` has the module's ports and the wires inside it; `cells` the lines of each cell, with `registers`,
//! `memories` and `addresses` for those that keep a state; `drives` one line for each port that may be driven (`sides`), with the ports'
//! assignments gathered by `hw_graph`.
//!
//! What the layer above uses: the bytes are `verilog_text` of the netlist (`specs/Verilog.antt`; `specs/Cells.antt` has the lines
//! of each primitive). What they mean is told by `ver_lang`.
#![tactic(auto)]

mod addresses;
mod cells;
mod drives;
mod guards;
mod memories;
mod pieces;
mod ports;
mod print;
mod put;
mod registers;
mod sides;

pub use print::print_verilog;
