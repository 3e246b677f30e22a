//! The rules F1 to F13 of a component, and the first that is broken.
//!
//! In go a component and what is known of those before it (`Earlier` of `fil_place`). Out of [`judge_component`] come either the tables
//! of its whole body, as one that keeps all these rules, or the first item at which a rule is broken, the least such rule, and its evidence: items in
//! order (0 is the signature, then the statements from 1 on, then the end of the body).
//!
//! So of this component the third statement is refused, by F11 at cycle 0, since both invocations hold `X` in that row:
//!
//! ```text
//! comp Twice<G: 2>(@interface[G] go: 1, @[G, G+2] a: 8) -> () {
//!   X := new Not[8];
//!   x := X<G>(a);
//!   y := X<G>(a);
//! }
//! ```
//!
//! A statement is judged in `statement`, a signature in `signature`, by the modules of the rules: `naming` F1 and F2, `typing` F3 to
//! F5, `timeline` F6 to F8 and F10, `connections` F9, `sharing` F11 to F13. Each looks up what names mean in the tables of its place
//! (`fil_place`), and a statement that keeps the rules is put into them. The uses by an invocation are compared with the uses next to
//! them alone; only where F11 is broken are the earlier invocations gone over, for what is told.
//!
//! The layer above uses three clauses of `judge_component`: `kept` (what is accepted keeps `KeepsComponent`), `tables` (its tables show
//! the scope of its whole body) and `broken` (`TellsItem`: what is told is the first broken rule, with what it shows).
#![tactic(auto)]

mod component;
mod connections;
mod naming;
mod rules;
mod sharing;
mod signature;
mod statement;
mod timeline;
mod typing;

pub use component::judge_component;
pub use rules::{Broken, CompEnd, Evidence, Rule};
