//! Flattening: a hierarchical design of wires as one netlist.
//!
//! In: a Calyx design of wires alone, without groups and control, that keeps C1 to C12 (`IsWired`). Out: the netlist of its top
//! component: a cell for each cell of a primitive in each instance, a wire for each port of an instance below the top, and the
//! assignments of all instances, with full names.
//!
//!     component unit(a: 8) -> (out: 8) {                wire m.a 8
//!       cells { s = std_add(8); }                       wire m.out 8
//!       wires { s.left = a;  .. }                       cell m.s std_add 8
//!     }                                                 ..
//!     component main(x: 8) -> (..) {                    set m.a = x
//!       cells { m = unit(); }                           ..
//!       wires { m.a = x;  .. }                          set m.s.left = m.a
//!     }
//!
//! How it goes: the instances are listed level by level from the top (`instances`), so a deep design takes no stack; then
//! `listing` puts the wires, the cells and the assignments of each one after another (`lines`, `guards`), and `texts` numbers the
//! full names.
//!
//! What the layer above uses: `flatten` gives a netlist that lists the design's instances (`IsListing`) and is the design
//! flattened (`IsFlatTop`): it has the same runs, at the same full names, with the same Conflicts (`IsFlattened`), and it keeps
//! N1 to N6. The laws say the same of any such listing: `listings_are_flattened`, `listings_are_valid`, `listings_have_no_loop`,
//! `flattened_keeps_runs`.
#![tactic(auto)]

mod comps;
mod flat;
mod flattened;
mod guards;
mod instances;
mod keeps_runs;
mod lines;
mod listing;
mod no_loop;
mod texts;
mod top;
mod valid;

pub use flat::flatten;
pub use flattened::listings_are_flattened;
pub use keeps_runs::flattened_keeps_runs;
pub use no_loop::listings_have_no_loop;
pub use valid::listings_are_valid;
