//! The rule C12 of Calyx designs: the first component whose ports read one another in a loop within a row, and its least loop.
//!
//! In: a design that keeps C1 to C11, with its tables and its nesting (`cal_place`). Out: none where no component has a loop, else a
//! `Looped`: the number of the first component in text order that has one, and the full names of the least loop's ports. Of
//!
//!     component main(go: 1) -> (done: 1) {
//!       cells { a = std_add(8); }
//!       wires { a.left = a.out; }
//!       control { seq { } }
//!     }
//!
//! it is component 0 with `a.left, a.out`: each of the two reads the other within a row.
//!
//! How it goes. `levels` asks `hw_levels` for levels of each component's ports, parts first, from those of its parts: where all have
//! them none has a loop. Only where one has none are graphs made (`first_loop`): `hw_cells` makes one graph of a component's own text
//! (`cal_wires`) and of its cells' graphs (`cells`), which is what is kept of it for its holders (`cells::inside`). `hw_graph` is asked
//! for an order, and where there is none for the least loop by the order of full names; full names are made of that loop's ports alone
//! (`least_loop`).
//!
//! A component may have very many holders, and each would walk over its graph. So first all cells that are made of components are
//! collected, with those of their ports that are named (`cells::named_ports`), and as soon as a component's graph is known, `hw_cells`
//! tells of all cells made of it at once which outputs reach which inputs (`cells::reached_inputs`, `cells::told_cells`).
//!
//! What the layer above uses is `first_looped`: `None` exactly where no component has a loop (`HasNoLoops`), and else the first that
//! has one, and the least of its loops (`HasFirstLoop`).
#![tactic(auto)]

mod cells;
mod first_loop;
mod least_loop;
mod levels;

pub use first_loop::{Looped, first_looped};
