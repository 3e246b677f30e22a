//! Signatures of Filament's primitives and of a design's components.
//!
//! In: a design, and a name with parameters. Out: a `TimeSig`, which has the events with their delays and interface ports, and
//! the data ports with their intervals and widths; or the least of the rules F2, F3 and F5 that is broken.
//!
//!     FastMult[8]    event G, of delay 1; inputs of 8 bits in [G, G+1); its output of 8 bits in [G+2, G+3)
//!     Mac            event G, of delay 1, with the interface port go; a, b and c in [G, G+1); out in [G+2, G+3)
//!     FastMult[0]    F3: a width is 1 to 128
//!     Nothing[8]     F2, where no primitive and no component has this name
//!
//! In a signature an event is its number, counted from 0, and a time is so many rows after one (`Off`). A primitive's name means
//! the primitive, any other name the first component that has it (`component_named`); `table_name` gives the name that the table
//! of `hw_prims` has for a primitive of Filament. `has_widths` and `has_shape` judge F3 and F5 of a component's own signature,
//! and `add_name` tells whether a name is new.
//!
//! What the layer above uses is `signature`: it is `Ok` with the one signature that the definition `signature_in` gives, and then
//! breaks none of the three rules (`IsUsable`); else its refusal is the first of them that is broken (`IsCause`).
//! `used_signature` says the same to a caller that has looked the component up already.
#![tactic(auto)]

mod component;
mod named;
mod names;
mod primitive;
mod shape;
mod time_sig;

pub use component::{component_named, component_signature, event_number, interface_of};
pub use named::{SigEnd, signature, used_signature};
pub use names::add_name;
pub use primitive::table_name;
pub use shape::{has_shape, has_widths};
pub use time_sig::{Delay, Off, SigEvent, SigPort, TimeSig};
