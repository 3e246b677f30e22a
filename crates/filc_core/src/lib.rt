//! The program's one top call, `filc`: from the words to the answer.
//!
//! In: the words after the program's name, the files, and two sinks. Out: an `Ended`; a report in the one sink, one line in the
//! other.
//!
//!     filc check pair.fil               ->   Done; the report is "accepted", and there is no line
//!     filc sim lookup.net none.json     ->   ReadFault; no report, and the line "read fault: none.json"
//!
//! A command is a file of each kind: `src/commands/X.rt` does it, `specs/commands/X.antt` says its files and what comes of it,
//! and `proofs/commands/XLaws.antt` has its laws. `src/name.rt` and `specs/Request.antt` list the commands, each with the words
//! that ask for it; `shape` reads what follows a command's word, and `words` judges each word.
//!
//! What stands above is a program's `main`, and its reader. The headline is the contract of `filc`, `Answers` of
//! `specs/TopCall.antt`: where the content of what is read is told, a verdict comes with its whole report and its whole line
//! (`IsAnswered`), every other answer has its cause, after a fault a part of such a report was written, no file is touched but
//! those that are asked for, and what is asked for is done where nothing fails (`IsComplete`).
#![tactic(auto)]

mod arguments;
mod commands;
mod name;
mod request;
mod shape;
mod top_call;
mod words;

pub use commands::Product;
pub use filc_report::{Drive, Inputs, RowEnd, Transactions, View, run_transactions, stream_rows};
pub use filc_stop::Ended;
pub use name::CommandName;
pub use top_call::filc;
