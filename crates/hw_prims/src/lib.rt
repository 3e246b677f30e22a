//! The primitives: their ports, and what they compute and keep.
//!
//! In: a primitive's name and its parameters, as a design writes them. Out: the `Primitive`, with its ports and their widths; and
//! a cell of it (`CellState`), which gives outputs from its state and its inputs in a row (`comb`) and goes to the next state at
//! the edge that ends the row (`step`).
//!
//!     std_reg 4       row              0    1    2
//!                     in, write_en    9,1  5,0  5,0
//!                     out, done       0,0  9,1  9,0
//!
//! The table has the primitives of Calyx (`std_`), of which `comb_mem_d1` and `comb_mem_d2` are second names, and those of
//! Filament (`fil_`). Of a name that it lacks `Primitive::make` says `UnknownPrim`, of parameters out of their range `BadParams`.
//! Only a memory takes memory, for its words; they may be loaded before row 0 (`load`) and looked at (`word`).
//!
//! `specs/Table.antt` has the names, the parameters and the ports; `specs/Meaning.antt` what each primitive computes:
//! `opening_state`, `output_values`, `next_state`, and `is_through`, by which an output depends on an input within a row. A new
//! primitive begins there.
//!
//! What the layer above uses: `comb` and `step` give what `output_values` and `next_state` say, and `through` what `is_through`
//! says. The laws tell what all primitives have in common: an output is the same where the state and the inputs that it depends
//! on are (`outputs_follow_through`), values keep within their widths (`states_keep_widths`), and loaded words are those of the
//! opening state (`loads_give_opening`).
#![tactic(auto)]

mod cell;
mod filament;
mod gate;
mod kept;
mod laws;
mod memory;
mod name;
mod phase;
mod pinout;
mod prim;

pub use cell::{Cell, CellState};
pub use filament::{primitives_are_timed, primitives_are_timed_through};
pub use laws::{loads_give_opening, outputs_follow_through, states_keep_widths};
pub use name::{input_names, is_memory, output_names};
pub use prim::{Dir, MAX_WORDS, Prim, PrimEnd, PrimPort, Primitive};
