//! Tests of values, names, short names, graphs, levels, cells, files, tokens, terminals and primitives: tables, one file for each subject.
//!
//! Tests alone, of the crates `hw_bits`, `hw_names`, `hw_graph`, `hw_short`, `hw_levels`, `hw_cells`, `hw_io`, `hw_lex`, `hw_grammar` and `hw_prims`. They
//! stand in a crate of their own, since a crate with tests would be proved twice. Each table has what goes in and what comes out, told by
//! hand; so it is also a list of examples to read:
//!
//!     ("std_sub", &[8], &[&[3, 5], &[5, 3]], &[254, 2])      in primitives.rt: in 8 bits, 3 - 5 is 254 and 5 - 3 is 2
//!
//! No other crate stands on this one.
#![tactic(auto)]

#[cfg(test)]
mod bits;
#[cfg(test)]
mod cells;
#[cfg(test)]
mod disk;
#[cfg(test)]
mod files;
#[cfg(test)]
mod graphs;
#[cfg(test)]
mod levels;
#[cfg(test)]
mod names;
#[cfg(test)]
mod primitives;
#[cfg(test)]
mod short_names;
#[cfg(test)]
mod terminals;
#[cfg(test)]
mod tokens;
