//! Netlists: flat lists of primitive cells and guarded assignments; their meaning, their rules, and what they weigh.
//!
//! In: the tree of a netlist (`Net`), with names by numbers. Out: the table of its ports (`Table`), in which each port has a
//! number and a width; or the first line that breaks one of the rules N1 to N5 (`NetEnd`).
//!
//!     net counter
//!     out q 8
//!     cell r std_reg 8
//!     cell a std_add 8
//!     set a.left = r.out
//!     set a.right = 8'd1
//!     set r.in = a.out
//!     set r.write_en = 1'd1
//!     set q = r.out
//!     end
//!
//! The table lists `q`, then `r.in`, `r.write_en`, `r.out`, `r.done`, then `a.left`, `a.right`, `a.out`. With `7'd1` in place of
//! `8'd1` the answer is rule 3 at item 5: lines are counted from 1 after the first.
//!
//! What a run is stands here once for all languages, over circuits (`specs/Circuit.antt`): a port that no assignment drives is 0,
//! a cell's outputs are its primitive's, and two assignments that drive one port in a row are a Conflict, with which the run ends
//! (`IsRow`, `HasConflict`, `IsRun`). A netlist is a circuit in which every assignment acts (`net_circuit`). N6, that no port
//! depends on itself within a row, is judged by `net_sim`.
//!
//! What the layer above uses: `valid` is `Ok` only of a netlist that keeps N1 to N5 (`IsValid`), and its table is that of the
//! netlist (`IsTableOf`); a refusal is the first rule that is broken (`IsCauseIn`). `net_weight` and `net_words` are the weight
//! and the words of memories, at most `2^64 - 1`. `CycleList` has the inputs and the words that a run is given.
#![tactic(auto)]

mod cells;
mod net;
mod pins;
mod ports;
mod rules;
mod sets;
mod stimulus;
mod table;
mod weight;
mod words;

pub use net::{Cmp, Guard, Net, NetAssign, NetCell, NetPort, Src};
pub use rules::{NetEnd, valid};
pub use stimulus::{CycleList, InputSet, InputShape, MemLoad, MemShape};
pub use table::{PortInfo, Table};
pub use weight::{guard_nodes, net_weight};
pub use words::net_words;
