//! The printer of Calyx's designs.
//!
//! In: a design, read or made by lowering. Out: its canonical text, with one item a line, two spaces for each block round it, a
//! line feed after each line, and literals in decimal. Of
//!
//!     component a(){cells{}wires{}}
//!
//! come the lines
//!
//!     component a() -> () {
//!       cells {
//!       }
//!       wires {
//!       }
//!     }
//!
//! What the reader drops is not printed: comments, imports and attributes. The mark of an external cell is, as `@external`.
//!
//! How it goes: `design` writes components, `cell` signatures and cells, `group` assignments and groups, `control` statements,
//! `guard` and `port` what stands in them, each at the end of one text (`put`). Only blocks, and parentheses in guards, make the
//! printing recur.
//!
//! What the layer above uses is `print_calyx`: its text is exactly `design_text` of the design, and where some text spells the
//! design, this one spells it too (`PrintsWhatIsRead`), so it is read back to the same tree.
#![tactic(auto)]

mod cell;
mod control;
mod design;
mod group;
mod guard;
mod port;
mod put;

pub use design::print_calyx;
