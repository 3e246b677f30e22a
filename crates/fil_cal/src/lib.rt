//! A Filament design as a Calyx text.
//!
//! In: a design that a text spells (`DesignIsWritten`) and that keeps F1 to F14 (`FilOk`). Out: the canonical text of a Calyx
//! design of wires alone, with the same components in the same order.
//!
//!     comp Sum<G: 1>(@[G, G+1] a: 8) -> (@[G, G+1] o: 8) { s := new Add[8]<G>(a, 8'd1); o = s.out; }
//!
//! becomes
//!
//!     component Sum(a: 8) -> (o: 8) {
//!       cells {
//!         s = std_add(8);
//!       }
//!       wires {
//!         s.left = a;
//!         s.right = 8'd1;
//!         o = s.out;
//!       }
//!     }
//!
//! How it goes: `lower_fil` makes the wires, and `print_calyx` prints them.
//!
//! What the layer above uses is `calyx_of`: its text is that of a design which keeps C1 to C12 and each component's name, ports
//! and instances, and carries every legal list of transactions (`IsLoweredText`). Where the names are Calyx's (`HaveCalNames`),
//! the text spells that design, so it is read back to the same tree.
#![tactic(auto)]

mod text;

pub use text::calyx_of;
