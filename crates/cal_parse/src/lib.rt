//! The reader of Calyx's texts.
//!
//! In: the bytes of a text. Out: the design that it spells, with names and numbers for them, or the first cause against it
//! (`CalTextEnd`): a byte at which no token starts, brackets that nest deeper than `MOST_NESTING`, or the byte that the grammar
//! refuses. Of
//!
//!     component a(){cells{}wires{}}
//!
//! comes a component `a` without ports, cells, groups and control. A text that ends before its last brace is refused at its
//! length. Where the refused token is `repeat` or another of six words of Calyx that are left out here, the end says so
//! (`LeftOut`).
//!
//! What leaves no trace is dropped: comments, imports, inputs named `clk` and `reset`, and attributes but `@external` at a cell.
//!
//! How it goes: `hw_lex` cuts the text into tokens, `hw_grammar` makes terminals of them. Then each file of `src/` reads one part
//! of the grammar from a list of terminals, and gives what is left of the list. Only blocks, and parentheses in guards, make the
//! reading recur, so `MOST_NESTING` bounds the stack.
//!
//! What the layer above uses is `parse_calyx`: it is `Ok` only with the design that the text spells by the written grammar
//! (`SpellsDesign`), which has numbers and plain names; else the end is the cause, and each cause says that those before it are
//! not met (`EndsBy`). The law `one_calyx` says that a text spells at most one design.
#![tactic(auto)]

mod attribute;
mod binding;
mod cell;
mod component;
mod control;
mod group;
mod guard;
mod parse;
mod pin;
mod port;
mod setting;

pub use parse::{CalTextEnd, one_calyx, parse_calyx};
