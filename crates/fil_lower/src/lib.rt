//! Filament to wires: guarded wires that carry overlapping transactions.
//!
//! In: a design that keeps F1 to F14 (`FilOk`). Out: a Calyx design of wires alone (`WireDesign`), with the same components in
//! the same order: a cell for each instance, a shift register for each event with an interface port, and guarded assignments.
//!
//!     comp Twice<G: 1>(@[G, G+1] a: 8, @interface[G] go: 1) -> (@[G+1, G+2] o: 8) {
//!       D := new Delay[8];
//!       s := D<G>(a);
//!       o = s.out;
//!     }
//!
//! becomes
//!
//!     component Twice(go: 1, a: 8) -> (o: 8) { cells { D = fil_delay(8); } wires { D.in = go ? a; o = D.out; } }
//!
//! An argument that is needed in row `G+3` alone has bit 3 of the event's shift register for its guard; bit 0 is `go` itself. An
//! event without an interface port has no register, and its arguments have no guards.
//!
//! How it goes: `bits` makes the shift registers (`fil_fsm`), `cells` the cells, `arguments` and `starts` the assignments of
//! arguments and of interface ports, each under a guard (`guards`) that one of the bits of its rows is 1; `component` puts them
//! together, and `body` and `calls` have what names mean.
//!
//! What the layer above uses: where the names of the source are plain, `lower_fil` makes a design that keeps what the source
//! promises (`Lowers`): each component's name, ports and instances, C1 to C12, plain names; and each run, from any component as
//! the top, whose inputs carry a legal list of transactions has no Conflict, and every instance at every path is given a legal list
//! and carries it, however the transactions overlap. A law says that an output depends on inputs of its own event alone
//! (`components_stay_separate`).
//!
//! Why that is so, in `specs/inside` and in the proofs: a component with its names resolved is its plan (`Plan`), which keeps
//! Filament's rules of time (`PlanRules`); rows of wires that show what plans say (`Lowered`) are timed, instance by instance; and
//! the wires that are made show it (`Lowering`).
#![tactic(auto)]

mod arguments;
mod bits;
mod body;
mod calls;
mod cells;
mod component;
mod guards;
mod interval;
mod laws;
mod lower;
mod names;
mod parts;
mod place;
mod starts;

pub use laws::components_stay_separate;
pub use lower::lower_fil;
