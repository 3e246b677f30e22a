//! Reports, written as they come: the rows of a run with its memories, and what transactions compute and hold.
//!
//! In: what was loaded, and a sink. Out: the report's bytes in the sink, or a prefix of them and the `Stop`.
//!
//!     2 p=15 q=-                a line for each row of a run (`stream`, `net_run`), with a dash where a design promises no value
//!     5 found=30                a row of a netlist, after whose last row stand
//!     mem table 10 20 30 99     the words of the memories that are shown (`memories`)
//!
//! `drive` says what a row is given, from rows or from transactions (`inputs`, `tx_inputs`); `view` which ports a line shows. `report` makes a
//! row's line in a buffer of its own (`line`, `digits`), and passes it on as one piece; a port for which the buffer has no room goes on by itself.
//! `flows` writes what transactions compute, `holds` which units they hold; `sums` and `summary` add a run's rows up.
//!
//! What the layer above uses: a run leaves exactly the lines of the netlist's rows, or up to its Conflict (`RunLeaves`); after a
//! fault of the sink, a prefix of them. `sum_transactions` gives the sums over the run that `run_transactions` would write.
#![tactic(auto)]

mod digits;
mod drive;
mod flows;
mod holds;
mod inputs;
mod intervals;
mod line;
mod memories;
mod net_run;
mod report;
mod stream;
mod summary;
mod sums;
mod tx_inputs;
mod view;

pub use drive::Drive;
pub use flows::write_flows;
pub use holds::write_holds;
pub use inputs::Inputs;
pub use net_run::{Transactions, make_sim, run, run_transactions};
pub use report::{write_accepted, write_text};
pub use stream::{RowEnd, stream_rows};
pub use summary::write_summary;
pub use sums::{Sums, sum_transactions};
pub use view::View;
