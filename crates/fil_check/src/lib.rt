//! The rules F1 to F14 of Filament designs, the first that is broken, and what a design weighs.
//!
//! In goes a design, the tree of `fil_ast` with names by their numbers. Out of [`check_fil`] comes either the same design
//! as one that keeps all rules (`FilOk`), or the first rule that is broken, with its evidence (`FilEnd::Refused`):
//! components in text order, in each the items in order (0 is the signature, then the statements from 1 on, then the end
//! of the body), at each item the least rule; F14 after all others. Out of [`fil_weight`] comes what a component weighs.
//!
//! So of this design the third statement is refused, by F11 at cycle 0, since both invocations hold `X` in that row:
//!
//! ```text
//! comp Twice<G: 2>(@interface[G] go: 1, @[G, G+2] a: 8) -> () {
//!   X := new Not[8];
//!   x := X<G>(a);
//!   y := X<G>(a);
//! }
//! ```
//!
//! With `y := X<G+1>(a);` in the place of the last invocation it is accepted.
//!
//! The layer above uses three clauses of `check_fil`: `kept` (what is accepted keeps `FilRules`), `design` (it is the
//! design that was given) and `refused` (`TellsFirst`: what is told is the first broken rule, with what it shows).
//!
//! A component is judged by F1 to F13 in `fil_rules`, over the tables of `fil_place`, which say what its names mean, and then by F14 in
//! `fil_loops`, over the tables of its whole body; here components are gone through in text order (`check`). F14 is judged by levels of
//! ports first. Only where a component has none is the design judged once more, by a graph of each component, which tells the
//! least loop. A loop is told only where all components keep F1 to F13.
//!
//! Where a design is weighed it is known to keep the rules: its tables are filled, and nothing is judged (`weight`). `laws` says what
//! F11 and F12 are for.
#![tactic(auto)]

mod check;
mod laws;
mod rules;
mod weight;

pub use check::check_fil;
pub use fil_rules::Evidence;
pub use laws::{
    gap_has_one_meaning, gap_is_real, meeting_has_one_meaning, meeting_is_real,
    refused_gap_is_real, refused_meeting_is_real, sharing_goes_by_events, sharing_has_one_meaning,
    sharing_rules_are_exact,
};
pub use rules::FilEnd;
pub use weight::fil_weight;
