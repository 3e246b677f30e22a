//! Laws of the runs of netlists: by N1 to N6, a netlist has a run.
//!
//! What is proved of the program speaks of each run of a netlist: whatever run there is from these inputs and words, what is
//! printed is what it shows. This law is the other half: there is such a run, so that nothing is said of none. For instance
//!
//!     netlist n
//!     in a 8
//!     out b 8
//!     b = a
//!     end
//!
//! has a run of each number of rows, whatever the values of `a` are.
//!
//!     netlists_have_runs   by N1 to N6 a netlist has a run up to its first Conflict (`NetlistsHaveRuns`)
//!
//! It is `net_sim` that makes the rows of a run, where there is memory for it; the law says that the definitions alone leave
//! room for one.
//!
//! What the layers above use is the law. There is no code.
#![tactic(auto)]

mod laws;

pub use laws::netlists_have_runs;
