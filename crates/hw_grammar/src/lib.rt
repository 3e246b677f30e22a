//! Tokens as terminals of grammars, grammars as relations, places at which a text is refused, and what readers are made of.
//!
//! In: the tokens of a text (`hw_lex`). Out: a terminal for each, with its sort, and with the number of a name or the value of a
//! number (`terminals_of`); and, for a reader that stops, the byte at which it tells that the text is refused (`refused_byte`).
//!
//!     a := 1 // end        the terminals  Name, ColonEquals, Number
//!
//! A reader that takes a name and then wants `=` stops before the second terminal: the text is refused at byte 2. A reader that
//! stops after the last terminal refuses it at its end, at byte 13.
//!
//! A grammar is a relation, `Lang`: terminals spell a value, and others follow. `specs/Grammar.antt` has the marks of a written
//! grammar (`Then`, `Either`, `Many`, `Separated`, ..), from which `fil_parse` and `cal_parse` write theirs; `specs/Reading.antt`
//! has the same as functions (`then`, `either`, `many`, ..), which say what a reader gives.
//!
//! What the layer above uses: `terminals_of` gives the terminals of the tokens (`AreTerminals`) and keeps the numbers of earlier
//! names; `read_one`, `read_special`, `read_name` and `read_number` give what their functions say, unless for want of memory
//! (`Gives`). `Place` says what a right refusal is: the terminals before it can be gone on with to a text of the grammar, and no
//! more of them.
#![tactic(auto)]

mod end;
mod place;
mod reading;
mod sort;
mod terminal;
mod terminals;

pub use end::ReadEnd;
pub use place::refused_byte;
pub use reading::{read_name, read_number, read_one, read_special, starts, starts_any};
pub use sort::Sort;
pub use terminal::{Special, Terminal};
pub use terminals::terminals as terminals_of;
