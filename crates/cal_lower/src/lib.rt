//! The lowering of Calyx's control: registers of one bit that say how far control has come, and for each group a rule over them
//! that says when it acts.
//!
//! In: a design without invokes that keeps the rules (`PlainDesign`). Out: the same components, in the same order, with further
//! cells and assignments in place of control, and an activity rule for each group (`HoleDesign`); groups stay.
//!
//!     control { seq { a; b; } }
//!
//! becomes, beside the component's own cells and wires,
//!
//!     c$start  is 1 where go is 1 and control neither runs nor is over
//!     c$goes1  the token of `a`: a register that is 1 in the rows in which `a` goes on
//!     c$next2, c$goes2  those of `b`: it starts in the row after the one in which `a` ends
//!     c$over   a register that is 1 in the done row;  done = c$over
//!     a acts   where it starts or goes on, and is not done
//!
//! How it goes: control is a plan whose parts are numbered (`sizes`); `parts` makes the tokens of each part, `ends` the guards of
//! the rows in which a part ends, `acts` gathers for each group the guards under which it is wanted, `instance` has what belongs
//! to a component as a whole. A bare component, which nothing starts, only loses its control (`bare`).
//!
//! What the layer above uses: `lower_control` makes a design that keeps what its source has (`ReplacesControl`): the components
//! with their ports and cells, the rules of a design without control, plain names, and every run. How it is made, which `cal_state`
//! goes by, stands in `specs/inside` (`IsLoweringOf`).
#![tactic(auto)]

mod acts;
mod bare;
mod component;
mod ends;
mod groups;
mod guards;
mod instance;
mod labels;
mod lower;
mod made;
mod parts;
mod pieces;
mod sizes;
mod texts;

pub use lower::lower_control;
pub use sizes::{after_part, is_over};
