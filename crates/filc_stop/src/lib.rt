//! How the program ends: its answers, why a command stops before its report is whole, and the line that says so.
//!
//! In: a `Stop`, as the crates above come to it: a refused byte, a broken rule, a limit, a fault of a file or a stream, want of
//! memory. Out: an `Ended`, which is the exit status, and one line on standard error:
//!
//!     Stop::Refused(..)    ->   status 1, "refused F12 Pair item 3 gap 5 cycle 5"
//!     Stop::ReadFault      ->   status 3, "read fault: pair.fil"
//!
//! `language` has the languages by their files' endings, with the limits of `hw_limits`; `refusal` has what is told of a refused
//! source; `line` writes the line's bytes.
//!
//! What the layer above uses: `Stop::tell` appends exactly the line of the stop (`IsTold`), or a prefix of it where the stream
//! failed, and answers the stop's `Ended`.
#![tactic(auto)]

mod ended;
mod language;
mod line;
mod refusal;
mod stop;

pub use ended::Ended;
pub use language::Language;
pub use refusal::Refusal;
pub use stop::Stop;
