//! Tokens: one-bit registers by which control is lowered, and the law that they walk it forward.
//!
//! The parts of a plan are numbered, the plan first and then those inside it, in their order. A part that takes a row has tokens:
//! it goes on (`Going`), it starts by itself (`Starting`), it has ended and others beside it have not (`Ended`), or it is a loop
//! that is tested again (`Again`). Of the plan of
//!
//!     seq { a; b; }       where the plan is 0, a is 1 and b is 2, and each is done in the row after its start,
//!
//!     row       0                 1           2              3           4
//!     tokens    none: it starts   Going 1     Starting 2     Going 2     none
//!     acts      a                             b
//!     is done                     a                          b
//!
//! The definitions say of tokens in a row which actors they let act (`enables_by`, `tests_by`), whether the plan ends in it
//! (`ends`), and what they are in the next row (`Steps`). `cal_lower` writes these as guards of registers.
//!
//! What the layers above use is the law `tokens_walk_control`: tokens that stand for what is left of a plan (`Leaves`) let act
//! what that lets act, end where it ends, and stand in the next row for what is left then. Where the plan is not on (`IsOff`),
//! nothing acts, ends or comes. What is left of a plan, row by row, is defined in `cal_walk`, whose law joins it to the schedule.
#![tactic(auto)]

mod laws;

pub use laws::tokens_walk_control;
