//! Cells with graphs of their own.

use crate::told::Told;
use hw_graph::Groups;

/// A port of a holder that is one of a cell: its number among the holder's ports, and its node in the cell's graph.
#[derive(Clone, Copy, Debug)]
pub struct Pin {
    pub port: usize,
    pub node: usize,
}

/// A port of a cell, and whether it is an input.
#[derive(Clone, Copy, Debug)]
pub struct CellPin {
    pub pin: Pin,
    pub is_input: bool,
}

/// A cell: the graph of what it is made of, and its outputs and inputs. An output reads what its node reaches.
#[derive(Drop)]
pub struct Cell<'a> {
    /// The number of the component that it is made of: cells with one number have one graph.
    pub part: usize,
    /// For each node of the graph the nodes that it reads.
    pub reads: &'a Groups,
    /// What was told of its pins before, if that was asked for.
    pub told: Option<&'a Told>,
    pub outputs: Vec<Pin>,
    pub inputs: Vec<Pin>,
}
