//! The simulation of a netlist by steps over numbered slots of 64 bits.
//!
//! In: a netlist, its table and the order of its ports, as in `net_sim`. Out: a `Sim` under the contract of `net_sim`'s, word for
//! word. Where a port or a literal is wider than 64 bits, it is `net_sim`'s own.
//!
//! The slots of a row, for a netlist of a register `r`, an adder `a` and an input `x`:
//!
//!     0 r.out   1 r.done  |  2 x   |  3 a.out = Add(0, 2)   4 ..
//!     what is kept        | inputs |  what the steps make; ports that are always equal share a slot, as r.in and a.out do
//!
//! How it goes: `kinds` says for each cell what is kept of it; `compile` goes through the ports level by level (`levels`) and
//! gives each a slot (`slots` has tests of guards as truths, `outputs` the outputs of cells, `places` the inputs of those that keep
//! their state by themselves); a port whose operands have no slot yet ends it, so that nothing has to be known of the order.
//!
//! There is a program for any row, and shorter ones for rows in which a few slots have numbers that guards ask for (`cases`). Which
//! these are is chosen by `selection`, and `guess` looks up in a table which one a row may take. `programs` runs it, sees whether
//! what it assumes holds, and otherwise runs the one for any row: so nothing has to be known of the choice and the table.
//!
//! `flat` runs a row: open it, run the steps of a program, look for Conflicts, move what is kept. `sim` is the choice between the
//! two simulators.
//!
//! What the layer above uses is `Sim`: each row is a row of the netlist's run, the reported Conflict is the least, and the edge
//! moves every cell.
#![tactic(auto)]

mod cases;
mod compile;
mod flat;
mod guess;
mod kinds;
mod levels;
mod outputs;
mod places;
mod program;
mod programs;
mod selection;
mod sim;
mod slots;

pub use net_sim::{Conflict, OrderEnd, Phase, PortOrder, order};
pub use sim::Sim;
