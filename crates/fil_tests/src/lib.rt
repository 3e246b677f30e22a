//! Tests of the crates of Filament and of stimuli, through what they offer: tables, one file for each subject.
//!
//!     texts        what is printed of the design of a text
//!     parameters   what is read of texts with parameters, and the bytes at which some are refused
//!     signatures   signatures of primitives, counted by hand, and uses that break F2 or F3
//!     sharing      meets of a few uses: [0, 3) and [3, 6) with a delay of 5 meet with the gap 5 in row 5
//!     registers    a shift register in full, beside names like those that it makes
//!     flow         dataflow of components: a chain of sixty above one, and the order of outputs
//!     stimuli      the idle number of a stimulus
//!
//! They show what no contract says: that definitions mean what a reader counts by hand; and that in a chain of components each
//! call runs once, since else the time would double with each of the sixty. What the program shows of texts that are refused stands in the lists
//! of `filc_cases`.
#![tactic(auto)]

#[cfg(test)]
mod flow;
#[cfg(test)]
mod parameters;
#[cfg(test)]
mod registers;
#[cfg(test)]
mod sharing;
#[cfg(test)]
mod signatures;
#[cfg(test)]
mod stimuli;
#[cfg(test)]
mod texts;
