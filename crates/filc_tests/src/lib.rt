//! Tests of the whole program that no real file can show: files and sinks that fail.
//!
//!     faults      the tests: each call of a file or a sink fails in its turn
//!     calls       the program over files and sinks in memory    texts, words      what it is asked
//!
//! They show what no contract says: that a file or a sink which fails at any of its calls is told, and nothing else in its place.
//! What the program answers of files that can be read is tested by `filc_cases`, as lists of cases.
//!
//! No other crate stands on this one.
#![tactic(auto)]

#[cfg(test)]
mod calls;
#[cfg(test)]
mod faults;
#[cfg(test)]
mod texts;
#[cfg(test)]
mod words;
