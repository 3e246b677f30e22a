//! What the holders of a component's cells need to know of it.
ghost use Rattle.hw_graph.specs.Graph.{AreInRange};
ghost use Rattle.hw_cells.specs.Cells.{HasOwnNodes};

use hw_graph::Groups;

/// The graph of what a component is made of, and in it the nodes of the component's ports.
#[derive(Drop)]
pub struct PartGraph {
    /// For each node those that it reads.
    pub reads: Groups,
    /// The node of each port by its number, inputs first; none of a port that the graph does not have.
    pub nodes: Vec<Option<usize>>,
    /// How many of the ports are inputs.
    pub inputs: usize,
    pub ghost in_range: { AreInRange reads },
    pub ghost within: { HasOwnNodes reads nodes.items },
}
