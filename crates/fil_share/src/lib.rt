//! When two uses of a unit meet: the rules F11 and F12 over the uses of one event of a unit. What transactions hold.
//!
//! A unit is an event of an instance, and a use holds it in the rows `[from, to)` (`Hold`). In: the uses that one transaction
//! makes of a unit, and the delay of the component's event on which they are. Out: none where the rules hold, else the first
//! `Meet`. In
//!
//!     x := M<G>(a, a);   y := M<G+3>(a, a);        with M := new SeqMult[8], which is held for three rows
//!
//! the uses are [0, 3) and [3, 6). They are apart, so F11 holds. With a delay of 6 so does F12; with one of 5 two transactions
//! that start 5 rows apart meet in row 5, and `meeting` tells the gap 5 and the cycle 5.
//!
//! Besides, `holds` lists what the transactions of a stimulus hold: transaction by transaction, in each the invocations in order.
//!
//! How it goes: `callees` and `instances` have what each instance of a component is made of, `uses` what its invocations use and
//! how many rows after an event, `judge` and `span` judge the uses of a unit, and `transactions` makes the holds.
//!
//! What the layers above use: `meeting` is `None` exactly where F11 and F12 hold, and else the first meet (`IsFirstMeet`);
//! `holds` is exactly the definition `holds_of`, whose list has each hold and nothing else (`holds_are_listed`). Laws say what
//! the rules are for: of uses no longer than the delay they hold exactly where no legal transactions make two holds meet
//! (`rules_are_exact`); and in a design that keeps F1 to F14 what a legal list of transactions holds of one event of an instance
//! is apart (`own_holds_are_apart`).
#![tactic(auto)]

mod callees;
mod carried;
mod hold;
mod instances;
mod judge;
mod laws;
mod own;
mod span;
mod transactions;
mod uses;

pub use callees::add_component_name;
pub use carried::{transactions_are_legal, transactions_have_own_values, transactions_keep_flow};
pub use hold::{Hold, Meet};
pub use instances::Instances;
pub use judge::meeting;
pub use laws::{forms_agree, meet_is_real, rules_are_exact, sharing_keeps_apart};
pub use own::{holds_are_listed, own_holds_are_apart, spaced_holds_are_apart};
pub use transactions::holds;
pub use uses::{Use, component_uses};
