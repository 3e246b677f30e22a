//! Worked cases of the whole program: lists of cases in, a transcript of what `filc` answers out.
//!
//! In: the names of the lists, as words, and the folder it runs in, which has the lists and other files (`data/`). Out: on standard
//! output the transcript. What is wanted stands in `stdout`, and the two are compared byte for byte.
//!
//!     # A counter: two rows               a title, or a note          # A counter: two rows
//!     file counter.net                    a file is written ..
//!     | net counter                       .. with these lines
//!     | out q 8
//!     | (and so on)
//!     $ rows counter.net 2                the program is called       $ rows counter.net 2
//!                                         its report                  | 0 q=0
//!                                                                     | 1 q=1
//!                                         its answer                  = 0 done
//!     $ rows counter.net 02                                           $ rows counter.net 02
//!                                         its line                    ! usage: filc COMMAND FILE [STIMULUS or NUMBER]
//!                                                                     = 2 usage
//!
//! On the left is a list, on the right its transcript; docs/CASES.md has all that can stand in a list. What is read goes through
//! these files from left to right:
//!
//!     list (a list, line by line) --> line (what a line says) --> text (files)          --> transcript
//!                                                             --> answer (calls)
//!                                                             --> comparison (questions)
//!
//! Each call of `filc` reads real files, and what it writes is kept in memory. Nothing is proved of what a case shows: a case is
//! tested by its transcript, which is written by hand, from the meaning of the designs.
#![tactic(auto)]

mod answer;
mod comparison;
mod line;
mod list;
mod text;
mod transcript;

use anyhow::Result;
use list::run_list;
use std::env;
use transcript::Transcript;

fn main(rt: HostRuntime) -> Result<()> {
    let mut transcript = Transcript::new(&rt)?;
    for name in env::args(&rt)?.skip(1) {
        run_list(&rt, name.as_str(), &mut transcript)?;
    }
    transcript.finish()
}
