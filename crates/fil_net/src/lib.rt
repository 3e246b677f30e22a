//! The netlist of a Filament design.
//!
//! In: a design that a text spells (`DesignIsWritten`) and that keeps F1 to F14 (`FilOk`). Out: a netlist of its top component,
//! with a cell for each instance of a primitive, by its path. Of a component `Two` with two instances `one` and `two` of `Next`,
//! in which stand an adder `A` and a delay `D`, comes a netlist with the lines
//!
//!     net Two
//!     in go 1
//!     in a 8
//!     out o 8
//!     cell one.A std_add 8
//!     cell one.D fil_delay 8
//!     cell two.A std_add 8
//!     cell two.D fil_delay 8
//!
//! and besides with the one-bit registers of shift registers, and with guarded assignments.
//!
//! How it goes: `lower_fil` makes wires of the design, component by component, `flatten` one netlist of these, and `simplify`
//! folds its guards. The laws here say that what is flattened keeps what the design promises (`flattened_lowerings_refine`), and
//! so does what is folded of it (`simplified_nets_refine`).
//!
//! What the layer above uses is `net_of`: its netlist `Refines` the design, that is, it keeps N1 to N6, has the top's name and
//! ports, and each run whose inputs carry a legal list of transactions has no Conflict, and each instance has at its outputs, in
//! their intervals, the transactions' plain dataflow. No run loads or prints a cell of such a netlist
//! (`refined_nets_show_no_cell`). The netlist has a text (`HasText`), and its guards are folded (`HasFoldedGuards`).
#![tactic(auto)]

mod laws;
mod net;

pub use laws::{
    flattened_lowerings_have_text, flattened_lowerings_refine, refined_nets_show_no_cell,
    simplified_nets_refine, written_designs_are_plain,
};
pub use net::net_of;
