//! Laws of the runs of Calyx designs: by C1 to C12 and plain names, a design has one run of the same inputs and words in its
//! memories.
//!
//! Lowering is proved in one direction: each run of what it makes is a run of the source. These laws are the other half: since
//! the source has no second run, what is seen of the one is what every run of the source shows. For instance, in two runs of
//!
//!     component main(go: 1) -> (done: 1) {
//!       cells { r = std_reg(8); }
//!       wires { group set { r.in = 8'd5; r.write_en = 1'd1; set[done] = r.done; } }
//!       control { set; }
//!     }
//!
//! with the same values of `go`, `set` acts in the same rows, and `r.out` is the same in each.
//!
//!     runs_are_unique   two runs have one height and one stop, and agree at each port and in each cell's state (`RunsAreUnique`)
//!     rows_are_one      the same of runs that are asked for different numbers of rows, as far as both go (`RowsAreOne`)
//!     actors_are_one    in each row that both have, the same groups and invokes act at each instance (`ActorsAreOne`)
//!
//! Two Conflicts in one row are no exception: of these one is reported, and it is the same in both runs.
//!
//! What the layers above use are the three laws. There is no code.
#![tactic(auto)]

mod laws;

pub use laws::{actors_are_one, rows_are_one, runs_are_unique};
