//! The simulation by steps beside the plain one, row by row, on netlists that are made at random.
//!
//! One test, in `rows`: 1,800 netlists are made from their numbers (`maker`, `cells`), each is read, judged and put in order, and
//! `net_row` and `net_sim` run it for 20 rows with the same inputs and loaded words. In each row both are to have the same values
//! at all ports, the same words in the shown memories and the same Conflict, if there is one.
//!
//! The test also counts: the 1,500 netlists whose ports have at most 64 bits are all to go by steps and the 300 with wider ones
//! not, and at least a tenth of each kind are to come to a Conflict. The numbers are the same in each run of the test (`random`),
//! so a netlist that fails can be made again; its text is told.
//!
//! No other crate stands on this one.
#![tactic(auto)]

#[cfg(test)]
mod cells;
#[cfg(test)]
mod maker;
#[cfg(test)]
mod random;
#[cfg(test)]
mod rows;
