//! What the components that have cells of a component need to know of it: which of its outputs reach which of its inputs.
ghost use Rattle.std.specs.Prelude.{◌≡◌, ◌↔◌, ℕ, Some, slice_get, IfOk};
ghost use Rattle.hw_names.specs.Name.{AreDistinct};
ghost use Rattle.cal_ast.specs.Rules.{KeepsRules};
ghost use Rattle.cal_ast.specs.Tree.{own};
ghost use Rattle.cal_place.specs.Around.{comp_at, design_at};
ghost use Rattle.cal_wires.specs.Nodes.{APort, key_of};
ghost use Rattle.cal_loops.specs.inside.Wiring.{AreNodes};

use crate::cells::told_cells::ToldCells;
use cal_place::Place;
use cal_wires::{PinName, Ports, own_port, port_names};
use hw_bits::Memory;
use hw_cells::PartGraph;
use hw_texts::text_at;
use std::alloc::Global;

/// What is known of a component.
#[derive(Drop)]
pub struct Inside {
    /// Its graph, its cells' graphs among it.
    pub graph: PartGraph,
    /// What is told of cells that are made of it.
    pub told: ToldCells,
}

/// The node of the component's own port of this name, if the graph has it.
pub fn own_node(ports: &Ports, name: &[u8]) -> Option<usize>
    requires { AreDistinct ports.now.keys }
    ensures { (node : ℕ) → result ≡ Some node ↔ slice_get ports.now.keys node ≡ Some (key_of (APort (own name.now))) }
{
    ports.find(own_port(PinName::Text(name)))
}

/// The nodes of the component's own ports in a graph.
pub fn own_nodes(alloc: Global, place: &Place, ports: &Ports) -> Result<Vec<Option<usize>>, Memory>
    requires kept { KeepsRules (design_at place.now) }
    requires distinct { AreDistinct ports.now.keys }
    ensures { IfOk result (λ nodes. AreNodes (comp_at place.now) ports.now.keys nodes.items) }
{
    let names = port_names(place);
    let mut nodes = Vec::new(alloc);
    for number in 0..names.len() {
        nodes.push(own_node(ports, text_at(names, number)))?;
    }
    Ok(nodes)
}
