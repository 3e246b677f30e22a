//! What names mean at a place of a component's body, and what is known of the components before it. No rule is judged here.
//!
//! In goes a component of a design, the tree of `fil_ast` with names by their numbers, and the components before it
//! (`Earlier`, which `add_component` makes longer). Out come tables (`Tables`) that say what each name means before a statement:
//! an event, a port, an instance and what it is made of, an invocation and the times that it gives. [`add_statement`] takes them
//! from statement to statement. So before the third statement of
//!
//! ```text
//! comp Twice<G: 2>(@interface[G] go: 1, @[G, G+2] a: 8) -> () {
//!   X := new Not[8];
//!   x := X<G>(a);
//!   y := X<G+1>(a);
//! }
//! ```
//!
//! `a` is a data input, `X` is instance 0, made of the primitive `Not[8]`, and `x` is invocation 0, of instance 0 at offset 0 of event 0.
//!
//! What travels with an item is a `Place`, or an `Around` where there are no tables yet. `lookup` has what a name means there,
//! `instances` what a statement's instance is made of, `signature_names` the names with which the tables begin, and `statement_parts`
//! what a statement puts into them. Times are offsets of events by number (`times`, `offsets`). `Starts` has the uses so far of the
//! events of instances, which F11 to F13 ask for: what is held, and from when on (`uses`, `starts`). Where a component is known to keep the
//! rules, [`tables_of`] fills the tables of its whole body (`body_tables`).
//!
//! The layers above use: that a place's tables show a scope (`IsPlace`, by which each look-up is what `fil_ast` means by the name), that
//! they show the scope after one more statement once it is put in (`shown`), that the uses so far are all listed (`listed`), and that
//! `Earlier` shows the components before (`ShowsEarlier`).
#![tactic(auto)]

mod body_tables;
mod callee;
mod earlier;
mod instances;
mod lookup;
mod offsets;
mod place;
mod signature_names;
mod starts;
mod statement_parts;
mod tables;
mod times;
mod uses;

pub use body_tables::tables_of;
pub use callee::Callee;
pub use earlier::{Earlier, add_component};
pub use instances::made_at;
pub use lookup::{
    callee_at, callee_made, callee_named, given_by, input, invoked_by, output, result_port,
    value_width,
};
pub use offsets::given_at;
pub use place::{Around, Place};
pub use signature_names::{take_signature_names, used_event_ids};
pub use starts::Starts;
pub use statement_parts::{StatementParts, add_statement};
pub use tables::{Made, Tables};
pub use times::{Interval, Offset, interval_at};
pub use uses::{Use, use_of};
