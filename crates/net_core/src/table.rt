//! The numbers of a netlist's ports.
use hw_names::{NameId, Names};

/// A port: the number of its full name in the table, which is its own number, and its width in bits.
#[derive(Clone, Copy, Debug, PartialEq, Eq)]
pub struct PortInfo {
    pub name: NameId,
    pub width: u8,
}

/// The ports of a netlist: inputs, outputs, wires, then each cell's ports, its inputs first.
#[derive(Drop)]
pub struct Table {
    pub names: Names,
    pub ports: Vec<PortInfo>,
}
