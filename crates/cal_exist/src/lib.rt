//! Laws of the runs of Calyx designs: by C1 to C12 and plain names, a design has a run of any inputs and words in its memories.
//!
//! What is proved of the program speaks of each run of a design, and `cal_runs` says that it has no second one. This law is the
//! other half: it has one, whatever its control does, so that nothing is said of none.
//!
//! In a row, what acts is told by how far control has come in the rows before, and by the row itself: an instance's `go`, and
//! the done of an actor. C12 counts what is so read among the edges of the wire graph, so each value of the row follows from
//! values that don't depend on it.
//!
//!     designs_have_runs   a design has a run up to its first Conflict (`DesignsHaveRuns`)
//!
//! What the layers above use is the law. There is no code.
#![tactic(auto)]

mod laws;

pub use laws::designs_have_runs;
