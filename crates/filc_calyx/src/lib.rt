//! The netlist of a Calyx design: its text, its Verilog, and its runs under a stimulus, as `net`, `verilog`, `sim` and `trace`
//! write them; the text of its wires, as `lower` does; and the schedule of its top, as `sched` does.
//!
//! In: a Calyx design that is ready, and for a run a stimulus of its netlist. Out: the report.
//!
//!     control { seq { one; inc; } }      sched    0 v=0 done=0 | one       a group acts until the cycle in which it is done,
//!                                                 1 v=1 done=0 |           and the next one starts in the cycle after
//!                                                 2 v=1 done=0 | inc
//!
//! `ready` makes the netlist, by `cal_net`; `text` prints it, as a netlist, as Verilog or as Calyx; `top` finds the component
//! that a run starts; `scheduler` walks its control beside the run (`cal_sched`), `lines` and `labels` write what acts.
//!
//! What the layer above uses: the netlist shows what the source's schedule says (`IsNetlistFor`), so a run of it is a run of the
//! source; and the actors that `sched` writes in a row are exactly those that act there (`Schedules`).
#![tactic(auto)]

mod labels;
mod lines;
mod memories;
mod ready;
mod schedule;
mod scheduler;
mod text;
mod top;

pub use ready::make_net;
pub use schedule::write_schedule;
pub use text::{lowered_text, text_of, verilog_of};
