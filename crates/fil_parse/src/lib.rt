//! The reader and the printer of Filament's texts.
//!
//! In: the bytes of a text. Out: the design that it spells, with names and numbers for them, or the first cause against it
//! (`FilTextEnd`): a byte at which no token starts, brackets that nest deeper than `MOST_NESTING`, the byte that the grammar
//! refuses, or an offset or a delay above 4096.
//!
//!     comp A<G: 1>() -> () {}         a component without ports and statements
//!     comp A<>() -> () {}             Grammar { at: 7 }: there an event is wanted
//!     comp A<G: 4097>() -> () { .. }  Offset { count: 4097 }
//!
//! The printer goes the other way, to the canonical text: a line for each statement, literals in decimal, interface ports first.
//!
//!     v := new B [8, 4] <G, H+4>(a, 8'xfF, w.o,);        is printed        v := new B[8, 4]<G, H+4>(a, 8'd255, w.o);
//!
//! How it goes: `hw_lex` cuts the text into tokens, `hw_grammar` makes terminals of them. `component`, `port`, `input`,
//! `statement` and `value` each read one part of the grammar, `offsets` finds what is too large, and `print` writes the text.
//!
//! What the layer above uses: `parse_fil` is `Ok` only with the design that the text spells by the written grammar
//! (`SpellsDesign`), which has numbers and small offsets; else the end is the cause, and each cause says that those before it are
//! not met (`EndsBy`). The law `one_design` says that a text spells at most one design. `print_fil` gives exactly `fil_text`, and
//! where some text spells the design, this one does too.
#![tactic(auto)]

mod component;
mod input;
mod offsets;
mod parse;
mod port;
mod print;
mod statement;
mod value;

pub use parse::{FilTextEnd, one_design, parse_fil};
pub use print::print_fil;
