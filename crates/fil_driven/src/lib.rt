//! What a stimulus's transactions are to a netlist that a Filament design was lowered to: how they drive its inputs, and that
//! what is shown of its outputs is what the source means.
//!
//! In each row an interface port is 1 exactly where a transaction starts its event; a data input has a transaction's value in the
//! input's interval, and the low bits of the idle number elsewhere (`driven_by`). Of the component `Mac` with three transactions
//!
//!     start 0: a=2 b=3 c=1        start 1: a=4 b=5 c=6        start 2: a=255 b=255 c=0
//!
//! `go` is 1 in the rows 0, 1 and 2, and what is shown of the output, a dash where no transaction promises it, is
//!
//!     0 out=-    1 out=-    2 out=7    3 out=26    4 out=1
//!
//! What the layer above uses are five laws of netlists that keep what a design promises (`Refines`); there is no code:
//!
//!     transactions_fit        a component's transactions fit its signature, so that they can drive its netlist
//!     keepers_have_ports      such a netlist has the ports of the design's top component
//!     driven_runs_carry       in a run that transactions drive there is no Conflict, and each instance carries what it is given
//!     carried_rows_are_meant  what is shown of such rows is what the source's dataflow says (`meant_line`)
//!     nothing_else_matters    outputs depend on their own transaction alone, whatever else is in flight or on idle inputs
#![tactic(auto)]

mod laws;

pub use laws::{
    carried_rows_are_meant, driven_runs_carry, keepers_have_ports, nothing_else_matters,
    transactions_fit,
};
