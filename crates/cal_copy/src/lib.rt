//! Parts of a Calyx design once more, in memory of their own: what a step of lowering leaves as it is.
//!
//! In: a loan of guards, assignments, groups or cells of a design, or of its names. Out: the same once more, owned. The copies
//! name the same things by the same numbers, so a design that is made of them starts with the source's names (`copy_names`), and
//! adds its own after them (`add_name`). With the names
//!
//!     0 main   1 a   2 left   3 x        and then   4 c$start
//!
//! the assignment `a.left = x` is the numbers 1, 2 and 3 in the source and in its copy, and lowering names its own wire by 4.
//!
//! A guard may stand behind many `!`; these are counted, so only lists of guards make the copying recur.
//!
//! What the layer above uses: a copy has the other's tree, whatever the names are, and numbers of names where the other has
//! (`IsCopy`, of a list each item in its place). A text that is added has the number that is told, and all others keep theirs
//! (`KeepsTexts`).
#![tactic(auto)]

mod copy;
mod names;

pub use copy::{copy_cells, copy_groups, copy_guard, copy_guards, copy_sets, copy_when};
pub use names::{add_name, copy_names};
