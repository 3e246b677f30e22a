//! Laws of the Verilog modules of netlists: what they show in each cycle is what the netlists show.
//!
//! In and out: nothing that runs. Each function is a law, whose contract is the statement and whose body is empty.
//!
//!     ports_are_declared    the module declares each port with its width (`PortsAreDeclared`)
//!     ports_are_driven      a port has the value of its first assignment whose guard is true (`PortsAreDriven`)
//!     first_rows_are_rows   and that makes the row of the netlist, where it has no Conflict (`FirstRowsAreRows`)
//!
//! For the outputs of cells and for what they keep the laws of `ver_lang` speak.
#![tactic(auto)]

mod laws;

pub use laws::{first_rows_are_rows, ports_are_declared, ports_are_driven};
