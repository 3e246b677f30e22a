//! The order of a netlist's ports, and its simulation row by row.
//!
//! In: a netlist that keeps N1 to N5, its table of ports, and then the values of its inputs, one row after another. Out: an order
//! of the ports, each after all that it reads within a row (`order`), or the least loop, by which N6 is broken; and the values of
//! all ports in each row, or the Conflict that ends the run (`Sim`).
//!
//!     net counter                               row    0  1  2
//!     out q 8                                   r.out  0  1  2
//!     cell r std_reg 8                          a.out  1  2  3
//!     cell a std_add 8                          q      0  1  2
//!     set a.left = r.out
//!     set a.right = 8'd1
//!     set r.in = a.out
//!     set r.write_en = 1'd1
//!     set q = r.out                             with a.left = a.out:  the loop  a.left, a.out
//!     end
//!
//! How it goes: `port_order` asks `hw_graph` for the order. `plan` and `lower` put numbers for names: a slot for each port and
//! each literal, and guards as comparisons that lead on (`flatten`, `branches`). A row is one walk over the ports in their order
//! (`evaluate`); the edge moves each cell on. After `Sim::new` no memory is taken.
//!
//! What the layer above uses: `order` gives an order (`IsPortOrderOf`) or the least loop (`IsLeastLoopOf`). `Sim::new`, `load`,
//! `row` and `edge` say what they make (`IsNewSim`, `IsLoadOfSim`, `IsRowOfSim`, `IsEdgeOfSim`), and the laws join that to the
//! netlist's run: a simulation stands at its start (`stands_at_start`), goes on row by row (`stands_at_next`), and ends after all
//! rows (`ends_after_all`) or in the reported Conflict (`ends_in_its_conflict`). Where there is an order, a run is the only one
//! (`one_run`). `net_row` gives the same answers faster.
#![tactic(auto)]

mod branches;
mod cells;
mod evaluate;
mod flatten;
mod guards;
mod laws;
mod lower;
mod plan;
mod port_order;
mod settle;
mod shown;
mod sim;
mod wires;

pub use cells::{CellPorts, cell_ports};
pub use flatten::flatten as flat_guards;
pub use guards::{FALSE, FIRST, FlatGuards, TRUE, Test};
pub use hw_graph::OrderEnd;
pub use laws::{
    ends_after_all, ends_in_its_conflict, loads_one_word, one_run, stands_at_next, stands_at_start,
};
pub use plan::{Giver, Source, givers, sources};
pub use port_order::{PortOrder, order};
pub use shown::shown_cells;
pub use sim::{Conflict, Phase, Sim};
