//! The netlist of a Filament design: its text, its Verilog, and its runs as transactions drive it, as `net`, `verilog`, `sim`,
//! `trace` and `soak` write them.
//!
//! In: a Filament design that is ready, and for a run its transactions. Out: the report.
//!
//!     comp Twice<G: 1>(@interface[G] go: 1, @[G, G+1] a: 8) -> (@[G+2, G+3] out: 8) { .. }       transactions that start in 0 and 1
//!
//!     sim      0 out=-   1 out=-   2 out=6   3 out=10        each output in the cycles in which it is promised
//!     trace    every port of the netlist in every cycle
//!
//! `lowered` makes the netlist, by `fil_net`; `run` drives it; `soak` makes a design of the program's own, runs it for a number
//! of transactions, and writes the netlist and what its run adds up to.
//!
//! What the layer above uses: what `sim` writes of an output is what the source means by it, for every transaction, whatever else
//! is in flight (`fil_driven` has the laws); `trace` writes a run of a netlist that keeps what the design promises; the sum that
//! `soak` tells is the dataflow's.
#![tactic(auto)]

mod lowered;
mod run;
mod soak;
mod text;

pub use run::{write_outputs, write_trace};
pub use soak::write_soak;
pub use text::{text_of, verilog_of, with_empty_line};
