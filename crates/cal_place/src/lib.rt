//! What the names of a Calyx design mean: in the design as a whole, and at the items of a component.
//!
//! In: a design as `cal_parse` read it, names by their numbers. Out: `Tables`, what its names mean; `Nesting`, which components have
//! cells of which; and of each component a `Place`, which is asked what stands around an item. Of
//!
//!     component part(go: 1, a: 8) -> (done: 1, out: 8) { .. }
//!     component main(go: 1) -> (done: 1) {
//!       cells { p = part(); r = std_reg(8); }
//!       ..
//!     }
//!
//! the tables tell that `main` has an input `go` and an output `done`, each of a bit, that `p` is made of component 0 and `r` of
//! a register of 8 bits. The nesting tells that `part` comes before `main`. And at the place of `main` the port `p.out` is an output of
//! 8 bits.
//!
//! How it goes: `first_places` finds a name's first place in a list, in which it may stand more than once, since designs are looked
//! at that break rules. By it `signature` finds the ports of a component, written and implied, `prototype` what a cell is made of, and
//! `tables` both for all components. `nesting` puts each component after its parts, or tells the first that is a part of itself.
//! `place` joins these for one component. `reads` lists the ports that a line reads; `statement` tells the control statements that
//! stand for none.
//!
//! What the layers above use: `Tables::of` and `Nesting::of` show what the names of the design mean (`ShowsTables`) and how its components
//! nest (`ShowsNesting`); `Place::of` makes of both a place, which stands for the design, the component's number and the component
//! (`Around`). What a place answers is said in the words of `cal_ast`: the port that a line names (`port_in`), what a cell is made
//! of (`IsMadeOf`), whether a name is the first (`IsFirst`).
#![tactic(auto)]

mod first_places;
mod nesting;
mod place;
mod prototype;
mod reads;
mod signature;
mod statement;
mod tables;

pub use first_places::FirstPlaces;
pub use nesting::{Nesting, PartOrder};
pub use place::{Overview, Place};
pub use prototype::{Prototype, component_of, is_primitive};
pub use reads::ports_read;
pub use signature::{Pin, Side, Signature, is_own};
pub use statement::is_empty_seq;
pub use tables::Tables;
