//! Guards of a netlist folded: constants, negations of negations, and lists in lists of their own kind go; so do assignments that
//! never act.
//!
//! In: a netlist, as flattening leaves it. Out: the same name, ports and cells, and the same assignments in their order, each
//! under its folded guard (`simplify`).
//!
//!     set p = (1'd1 & (a & !!b)) ? x          set p = (a & b) ? x
//!     set q = (8'd3 == 8'd3) ? y              set q = y
//!     set r = (c & 1'd0) ? z                  (left out)
//!
//! A folded guard has no literal alone, compares no two literals, has no `!` directly over a `!`, no `&` list directly in an `&`
//! list and no `|` list directly in an `|` list, and each list in it has two guards or more (`specs/Folded.antt`). Equal parts of
//! a guard are not looked for.
//!
//! How it goes: `fold` takes a guard apart from its top down (`tops`) and says that it always has one truth, or which guard it
//! is; `list` gathers the guards of a list. A run of `!` is gone over by a loop; only lists make the folding recur.
//!
//! What the layer above uses: `simplify` gives a netlist that is the old one simplified (`IsSimplified`), no heavier, and with
//! folded guards (`HasFoldedGuards`). The laws say what that keeps: the runs, how they stop, and each Conflict
//! (`simplified_has_same_runs`), N1 to N5 (`simplified_is_valid`), N6 (`simplified_has_no_loop`), and that it has a text
//! (`simplified_keeps_text`).
#![tactic(auto)]

mod copy;
mod fold;
mod laws;
mod list;
mod simplified;
mod tops;

pub use laws::{
    simplified_has_no_loop, simplified_has_same_runs, simplified_is_valid, simplified_keeps_text,
};
pub use simplified::simplify;
