//! The rules C1 to C12 of Calyx designs, the first that is broken, and what a design weighs.
//!
//! In: a design as `cal_parse` read it, names and lines by numbers. Out: `CalOk`, a loan of the design that only an accepted
//! one gives, or a `CalEnd`: the rule, the component and the item that break first, and for C12 the least loop.
//!
//!     component main(go: 1) -> (done: 1) {            component main(go: 1) -> (done: 1) {
//!       cells { a = std_add(8); }                       cells { a = std_add(8); }
//!       wires { a.left = 8'd1; }                        wires { a.left = a.out; }
//!       control { seq { } }                             control { seq { } }
//!     }                                               }
//!
//! The first is accepted. Of the second C12 is told with `a.left, a.out`: each of the two reads the other within a row.
//!
//! How it goes: `cal_place` finds what the names of the design mean, and puts each component after its parts. Then each component's items
//! are judged in the order of the text by C1 to C11 (`cal_rules`). At last comes C12, for the design as a whole (`cal_loops`). In
//! `weight` an accepted design is weighed: each component once, parts first, and counted for each cell that is made of it.
//!
//! What the layer above uses is `check_calyx`: it is `Ok` exactly where the design keeps the rules (`CalRules`), and its
//! refusal is the first rule that is broken (`TellsRefusal`). `cal_weight` and `cal_words` are the weight and the words of
//! memories, at most `2^64 - 1`.
#![tactic(auto)]

mod check;
mod refusal;
mod weight;

pub use check::check_calyx;
pub use refusal::CalEnd;
pub use weight::{cal_weight, cal_words};
