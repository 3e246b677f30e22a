//! Steps over numbered slots of 64 bits: what they make of the slots before them, how they come from guards, assignments and
//! primitives, and how they run.
//!
//! In: comparisons, truths, assignments and primitives, one after another, each over slots that are there (`compare`, `choose`,
//! `drive`, `gate_of_two`, ..). Out: the list of steps, each once, and a table of choices beside it (`Steps`), and the pairs of
//! slots under which a port has a Conflict (`Clash`). Of
//!
//!     w = g.out ? a.out;  w = !g.out ? b.out;         with g.out, a.out, b.out in slots 3, 4, 5
//!
//! comes one step, `Choose { on: 3, value: 4, other: 5 }`: the two never act at once, so no Conflict has to be looked for. A port
//! with three assignments or more has a part of the table, a `Choice { on, value }` for each: `Only` makes the value of the one
//! that is on, and `Several` tells the Conflict, unless the guards each ask one slot for a number or for one of a few, and those
//! that ask for the same one deny each other.
//!
//! Steps may be for those rows alone in which some slots have given numbers (`assume`). A comparison whose numbers are known is then
//! told and makes no step, an assignment that never acts is left out, and one of two by what is known is that one.
//!
//! A row is one walk over the steps: each makes its slot of slots below its own, without a branch on what is there. The steps are
//! first cut into runs (`cut`): many of one kind, one after another, have a loop of their own, and those between go by their kind,
//! step by step (`run_all`). Then `find_conflict` looks at the pairs, and the edge moves what is kept (`step_kept`) and the cells
//! that keep their state by themselves (`step_others`). The words of a memory are numbers of 64 bits too (`HeldState`).
//!
//! What the layer above uses: each function that adds steps says what is then in its slot in *every* row that the steps make
//! (`AddsSlot`, `AddsTruth`, `AddsPort`, `AddsGate`), whatever else is added later; and `run_all` makes such a row (`AreMade`).
#![tactic(auto)]

mod apart;
mod asked;
mod choice;
mod clashes;
mod drivers;
mod edge;
mod equality;
mod gates;
mod held;
mod inputs;
mod kinds;
mod operation;
mod other;
mod row;
mod runs;
mod steps;
mod truth;
mod words;

pub use choice::Choice;
pub use clashes::{Clash, find_conflict};
pub use drivers::{Driver, chosen_slot, drive};
pub use edge::{step_kept, step_others};
pub use equality::Equality;
pub use gates::{constant, gate_of_none, gate_of_one, gate_of_three, gate_of_two, product};
pub use held::HeldState;
pub use inputs::{INPUTS, Places};
pub use kinds::{AddStep, BothStep, ButNotStep, ChooseStep, EqualStep, PickStep};
pub use operation::Operation;
pub use other::Other;
pub use row::{are_below, run_all};
pub use runs::{Run, cut, step_count};
pub use steps::{ProgramEnd, Steps};
pub use truth::{Truth, choose, compare};
