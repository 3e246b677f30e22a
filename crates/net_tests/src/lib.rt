//! Tests of netlists, their text and their simulation: tables, one file for each subject.
//!
//! Tests alone, of the crates `net_core`, `net_text` and `net_sim`. `texts` has texts that are read and printed, and the byte at
//! which others are refused; `rules` the first rule that a netlist breaks; `orders` the order of its ports, or the least loop;
//! `rows` rows told by hand, with guards and Conflicts; `memories` words that are loaded, written and read.
//!
//!     wire z 1
//!     wire y 1
//!     wire d 1
//!     wire c 1
//!     set z = y
//!     set y = z
//!     set d = c
//!     set c = d        in orders.rt: of two loops the one that starts at the lesser name,  c d
//!
//! No other crate stands on this one.
#![tactic(auto)]

#[cfg(test)]
mod case;
#[cfg(test)]
mod memories;
#[cfg(test)]
mod orders;
#[cfg(test)]
mod rows;
#[cfg(test)]
mod rules;
#[cfg(test)]
mod texts;
