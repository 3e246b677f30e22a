//! What lowers the events of a Filament component: shift registers of one-bit cells.
//!
//! In: a port that is 1 in the rows in which an event starts, and a number of bits. Out: cells, assignments and bits of a Calyx
//! component (`FsmParts`), of which bit i is 1 exactly i rows after the port was. Of `go` and four bits, as `examples/pair.fil`
//! asks for, come three registers, whose names are new to the design:
//!
//!     go --> f$20 --> f$21 --> f$22        f$20.in = go;  f$20.write_en = 1'd1;  f$21.in = f$20.out;  ..
//!
//!     row          0   1   2   3   4
//!     go           1   0   0   0   0
//!     f$20.out     0   1   0   0   0
//!     f$22.out     0   0   0   1   0
//!
//! What the layer above uses: `shift_register` makes a chain (`IsShiftRegister`), each register of which takes the bit before it
//! in every row, by names of `f$` and digits. The law `parts_make_chains` says that a component with these parts, whose registers
//! nothing else drives, has the chain; `chains_delay` says that then in every run and every instance bit i is the port as it was
//! i rows before, and 0 before that.
#![tactic(auto)]

mod laws;
mod names;
mod register;
mod shift;

pub use laws::{chains_delay, parts_make_chains};
pub use names::intern;
pub use shift::{FsmParts, shift_register};
