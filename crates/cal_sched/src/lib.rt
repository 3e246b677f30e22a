//! The control of a component walked forward beside a run: which of its groups and invokes act in each row.
//!
//! In: the control of a component (`Controlled` of `cal_walk`), the ports of a netlist that has the component's ports, and row
//! after row of that netlist's simulation. Out: for each row, and each group or invoke by its number, whether it acts. Of a
//! component with
//!
//!     control { seq { set; double; } }
//!
//! whose groups each write a register, with `go` 1 in row 0 alone, `acts` tells
//!
//!     row 0: set    row 1: none, since set is done    row 2: double    row 3: none    row 4: none, and done is 1
//!
//! How it goes: `guards` and `ports` put sources and guards over the numbers of ports, `watch` the done lines of groups and
//! invokes. A `Walker` has these, and how far control has come. In a row that was evaluated `go_over` reads what is done, what
//! conditions read, and `go`; it marks what control wants, and goes on to the stage of the next row.
//!
//! What the layer above uses: a new `Walker` waits for `go` (`IsWalkerOf`), and each `go_over` brings it one row further, as the
//! definition `next_progress` of `cal_walk` says of what is seen in the row; an actor acts exactly where `acts_now` says so
//! (`GoesOver`).
#![tactic(auto)]

mod guards;
mod ports;
mod walker;
mod watch;

pub use walker::Walker;
