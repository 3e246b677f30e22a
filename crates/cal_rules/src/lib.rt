//! The rules C1 to C11 of a component of a Calyx design, item by item, and the first that is broken.
//!
//! In: the place of a component in its design (`cal_place`). Out: nothing where the component keeps the rules, or a `CompEnd`: the
//! number of the first item at which one is broken, and the least rule there. Of
//!
//!     component main(go: 1) -> (done: 1) {
//!       cells { a = std_add(8); }
//!       wires { a.left = 8'd1; a.right = 4'd1; }
//!       control { seq { } }
//!     }
//!
//! item 0 is the signature, 1 the cell `a`, 2 and 3 the assignments, and 4 the `seq`. At item 3 the widths differ, so the end is
//! item 3 and C4.
//!
//! How it goes: `component` goes over the items in the order of the text and counts them (`walk`); `item` judges one of each kind, the
//! rules by their numbers: `naming` has C1 and C2, `typing` C3 and C4, `sides` C5 and C6, `controlling` C7 to C11. An assignment of a
//! group and one outside are judged alike.
//!
//! What the layer above uses is `judge_component`: it is `Ok` exactly where each item keeps the rules (`KeepsComponent`), and its end
//! is the first item and the least rule (`IsFirstItem`).
#![tactic(auto)]

mod component;
mod controlling;
mod item;
mod naming;
mod rule;
mod sides;
mod typing;
mod walk;

pub use component::judge_component;
pub use rule::{CompEnd, Rule};
