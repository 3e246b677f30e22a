//! Laws over Filament's definitions that a reader takes for granted: legal lists can be given, what they give each instance is
//! legal there, down every path, a component over instances that keep their promises keeps its own, events don't feed one
//! another, and nothing weaker than the rules would do.
//!
//! In and out: nothing that runs. Each function is a law, whose contract is the statement and whose body is empty. Of the component
//!
//!     comp Twice<G: 2>(@interface[G] go: 1, @[G, G+1] a: 8) -> (@[G+2, G+3] o: 8) {
//!       D := new Delay[8];
//!       s := D<G>(a);
//!       t := D<G+1>(s.out);
//!       o = t.out;
//!     }
//!
//! the starts 0, 2 and 5 are a legal list. Inputs that carry it have `go` and a value of `a` in the rows 0, 2 and 5. It gives `D`
//! starts in the rows 0 and 1, 2 and 3, 5 and 6: a legal list for a `Delay`, which is held a row at a time, in no row twice.
//!
//! What stands above: the reader of the headline, who learns that its clause on legal lists is not empty, that what an output
//! promises in a row is one value and goes by its own event, that sharing is safe wherever an instance stands, and that a component
//! can be judged by itself.
#![tactic(auto)]

mod alone;
mod events;
mod lists;
mod needed;
mod paths;
mod spans;

pub use alone::{components_keep_promises, instances_carry_theirs, wired_designs_keep_promises};
pub use events::{
    events_stay_apart, given_lists_stay_alike, other_inputs_are_free, own_values_suffice,
};
pub use lists::legal_lists_can_be_given;
pub use needed::{designs_hold_nothing_twice, holding_rules_are_exact, overlong_is_real};
pub use paths::{
    each_instance_is_given, given_lists_are_legal, nothing_is_held_twice, promises_agree,
    rows_are_of_one_transaction, what_is_given_is_one,
};
pub use spans::{holds_are_given, program_holds_are_given, starts_are_given};
