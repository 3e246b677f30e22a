//! The rule F14: no port of a component reads itself within a row, by way of others.
//!
//! In goes a place whose tables show the whole body of a component that keeps F1 to F13 (`fil_place`), and what is kept of the
//! components before it. Out comes what is kept of it for those that use it, or that it has a loop.
//!
//! So this component has the loop `X.in`, `Y.out`, `Y.in`, `X.out`, in which each port reads the next, and the last the first:
//!
//! ```text
//! comp Cross<G: 2>(@interface[G] go: 1, @[G, G+2] a: 8) -> () {
//!   X := new Not[8];
//!   Y := new Not[8];
//!   x := X<G>(a);
//!   y := Y<G>(x.out);
//!   v := Y<G+1>(a);
//!   w := X<G+1>(v.out);
//! }
//! ```
//!
//! There are two ways. By levels ([`add_levels`], `levels`): a number for each port of a component, above those of all that it reads,
//! which is all that is kept of it for its holders. A component may have none, since ports go in a loop or since a holder needs two ports
//! in another order. By graphs ([`add_wires`], `wires`): a graph of each component is kept, in which those of its instances are
//! copied (`cells`), or one of its ports alone where that is smaller (`inside`); it tells the least loop of the first component that has
//! one. `edges` has which ports read which, statement by statement. Ports are known by the numbers of their names (`ports`,
//! `graph`); full names are made only of the loop that is told.
//!
//! The layer above uses: where `add_levels` gives levels, the component has no loop, and they show what it passes on (`ShowAllLevels`);
//! after `add_wires` either none of the components has a loop, or the first that has one is told, with its least loop (`IsWired`).
#![tactic(auto)]

mod cells;
mod edges;
mod graph;
mod inside;
mod levels;
mod ports;
mod wires;

pub use levels::{Levels, add_levels};
pub use wires::{Wired, add_wires};
