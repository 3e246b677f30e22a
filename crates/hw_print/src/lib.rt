//! Texts, numbers and names at the end of a text: what all printers are made of.
//!
//! In: a text that is being made, and what comes next. Out: the same text with it at its end, or want of memory.
//!
//!     after  cell r std_reg          put(b" ")          cell r std_reg
//!     after  cell r std_reg          put_number(8)      cell r std_reg 8
//!
//! What the layer above uses: each function puts exactly its words at the end, and nothing else (`put`, `put_if`, `put_number`,
//! `put_name`); `numbered` makes a name of a text and a number.
#![tactic(auto)]

mod printer;

pub use printer::{numbered, put, put_if, put_name, put_number};
