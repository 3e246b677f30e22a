//! From a Calyx design to wires: invokes become groups, control becomes registers, groups become guarded wires. What is left is
//! printed as Calyx, or flattened into a netlist whose guards are folded.
//!
//! In: an accepted design (`CalOk`). Out: a netlist of its top component (`net_of`), or the text of the same components as wires
//! alone (`calyx_of`).
//!
//!     group inc { r.in = a.out; r.write_en = 1'd1; inc[done] = r.done; }        r.in = c$acts$inc.out ? a.out;
//!     control { inc; }                                                          r.write_en = c$acts$inc.out ? 1'd1;
//!
//! How it goes, and where each step is proved:
//!
//!     source --cal_group--> no invokes --cal_state--> no control, rules for groups --cal_group--> wires --net_flat, net_guard--> netlist
//!                                                                                                   \--cal_print--> text
//!
//! Each step keeps runs: what a run of the next one shows at a port of the source, a run of the one before shows. The clauses of
//! the three steps put in a row are that of `wires_of` (`LowersControl`); the laws here are about what comes after.
//!
//! What the layer above uses: `net_of` gives a netlist that shows, in every run, at every port of the source and in every row,
//! what the source's schedule says, with the same Conflict or none (`RefinesTop`), and that has a text and folded guards.
//! `calyx_of` gives a text that spells a design of wires alone for which the same is true (`IsLoweredText`).
#![tactic(auto)]

mod laws;
mod net;
mod text;
mod wires;

pub use laws::{flattened_wires_have_text, flattened_wires_refine, simplified_nets_refine};
pub use net::net_of;
pub use text::calyx_of;
