//! Calyx designs: their trees, and what their rules and their meaning are.
//!
//! The trees are types of code (`CalDesign`, `CalComp`, `Group`, `Control`, ..), in which each name is a number of the design's
//! names. The definitions are about the same trees with texts for names (`design_of`), and say
//!
//!     CalRules, IsRefusal    the rules C1 to C12; the first of them that is broken, and where
//!     plan_of                control without its syntax: a plan of actors, which are the groups and the invokes
//!     Spans, Acts            which rows a plan takes, and which actors act in them, read over a whole run
//!     Run                    the run of a design: what acts is what the schedule says of that same run
//!     IsPlainDesign          designs without invokes; IsHoleDesign those without control, IsWired those of wires alone
//!     Refines                what a netlist is to the design that it was made of
//!
//! As an example, the plan of
//!
//!     control { seq { a; b; } }
//!
//! starts in row 2; `a` is done first in row 3, and `b`, from row 4 on, first in row 7. Then `a` acts in row 2, `b` in the rows
//! 4, 5 and 6, and row 8 is the one after the plan's last.
//!
//! What the layers above use: these definitions, which their contracts cite, and the designs that the steps of lowering hand on
//! (`PlainDesign`, `HoleDesign`, `WireDesign`). `CalOk` is a loan of a design that has a component and keeps C1 to C12: its
//! invariant says so. Of the four laws, two are about designs whose names are plain: by `drives_are_local` what drives a port of
//! an instance is told by the names of its component alone, so a component can be judged by itself; by `no_loop_over_paths` no
//! loop runs over instances where C1 to C12 are kept.
#![tactic(auto)]

mod laws;
mod lowered;
mod ok;
mod tree;

pub use laws::{
    assignments_are_plain, drives_are_local, known_ports_are_plain, no_loop_over_paths,
};
pub use lowered::{ActRule, HoleDesign, PlainDesign, WireDesign};
pub use ok::CalOk;
pub use tree::{
    Assign, CalCell, CalComp, CalDesign, CalPin, CalPort, Control, ControlPart, DoneSet, Group,
    InBind, OutBind,
};
