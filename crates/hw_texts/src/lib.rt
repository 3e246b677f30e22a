//! Texts by numbers: those of a list of names, and after them others.
//!
//! In: a list of names that stays as it is, and texts, one after another. Out: a number for each text. A text that is among the
//! names has its number there; another goes behind them, by first appearance:
//!
//!     names  go  mul        texts  mul  left  go  out  left      get the numbers  1  2  0  3  2
//!
//! So what is known by a name already, as a cell, and what is told by a text alone, as a port of it, have numbers of one kind,
//! and no name is copied.
//!
//! `Texts` lends the names and keeps the others: `number` gives a text's number and puts a new text last, `find` looks a text up
//! and adds none, `named` looks among the names alone, and `text` goes from a number back. `text_at` does so in any list of names.
//!
//! What the layer above uses: `Texts` is seen as a `TextList`, the names and all texts. The number from `number` or `find` has the
//! text among all, and that from `named` among the names; `find` and `named` give none exactly where the text is not there. A
//! number keeps its text whatever is added later, the names have their own numbers among all (`KeepsTexts`), and the texts are
//! distinct (`AreDistinct`).
#![tactic(auto)]

mod texts;

pub use texts::{Texts, text_at};
