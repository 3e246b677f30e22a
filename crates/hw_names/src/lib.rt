//! Names, and numbers for them.
//!
//! In: texts, as bytes, one after another. Out: a number for each (`NameId`), so that trees and tables keep and compare numbers
//! in place of texts. Equal texts get one number; numbers go by first appearance, from 0 on:
//!
//!     clk  go  clk  clk.go  go      get the numbers      0  1  0  2  1
//!
//! `Names` is the list of the texts, over a hash table: `intern` gives a text's number and puts a new text last, `find` looks a
//! text up and adds none, `text` goes from a number back. `Word` is a text that owns its bytes.
//!
//! What the layer above uses: the number from `intern` or `find` has the text in the list; `find` gives none exactly where the
//! text is not there; the texts are distinct (`AreDistinct`), and a number once given keeps its text, whatever is added later
//! (`KeepsTexts`). Where there was no memory the list is as it was.
//!
//! `specs/Name.antt` also says how names are joined: `full_name` is the dotted text of a path and a name, and a name is `IsPlain`
//! where it is not empty and has no dot.
#![tactic(auto)]

mod names;
mod text;
mod word;

pub use names::{Keyed, NameId, Names};
pub use word::Word;
