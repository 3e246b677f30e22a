//! What the components that have instances of a component need to know of it: which of its outputs reach which of its inputs.
ghost use Rattle.std.specs.Prelude.{◌≡◌, ◌++◌, ◌<◌, Some, length, map, All, IfOk, OnOk};
ghost use Rattle.hw_graph.specs.Graph.{AreInRange};
ghost use Rattle.hw_names.specs.Name.{AreDistinct};
ghost use Rattle.fil_ast.specs.Numbers.{ComponentHasNumbers, PortHasNumbers};
ghost use Rattle.fil_ast.specs.Rules.{KeepsComponent, all_rules};
ghost use Rattle.fil_ast.specs.Tree.{Component, Design, component_tree};
ghost use Rattle.fil_loops.specs.OwnPorts.{own_port_names};
ghost use Rattle.fil_loops.specs.inside.Reached.{port_names};
ghost use Rattle.fil_loops.specs.Wiring.{IsInside};

use fil_ast::FilPort;
use fil_place::Place;
use fil_sig::add_name;
use hw_bits::Memory;
use hw_cells::{PartGraph, condense_graph};
use hw_graph::Groups;
use hw_names::Names;
use std::alloc::Global;

/// What is known of a component.
#[derive(Drop)]
pub struct Inside {
    /// The names of its ports, inputs first.
    pub names: Names,
    /// The graph of it, its instances' graphs among it, in which each port has a node.
    pub graph: PartGraph,
}

/// Puts the names of the ports last.
fn add_names(own: &mut Names, names: &Names, ports: &[FilPort]) -> Result<(), Memory>
    requires { All (PortHasNumbers names.now) ports.now }
    ensures { AreDistinct (own.old ++ port_names names.now ports.now) → OnOk result (own.new ≡ own.old ++ port_names names.now ports.now) }
{
    for port in ports {
        let _new = add_name(own, names.text(port.name))?;
    }
    Ok(())
}

/// The nodes of ports that have one each.
fn all_of(alloc: Global, nodes: &[usize]) -> Result<Vec<Option<usize>>, Memory>
    ensures { IfOk result (λ all. all.items ≡ map Some nodes.now) }
{
    let mut all = Vec::new(alloc);
    for node in nodes {
        all.push(Some(*node))?;
    }
    Ok(all)
}

/// What is known of a component, whose ports have these nodes in the graph, inputs first.
pub fn inside_of(
    alloc: Global,
    place: &Place,
    nodes: &[usize],
    reads: Groups,
) -> Result<Inside, Memory>
    requires in_range { AreInRange reads }
    requires within { All (λ node. node < length reads) nodes.now }
    requires numbers { ComponentHasNumbers place.now.names.now place.now.comp.now }
    ensures names { (comps : Design) → KeepsComponent all_rules comps (component_tree place.now.names.now place.now.comp.now)
        → IfOk result (λ inside. inside.names ≡ own_port_names (component_tree place.now.names.now place.now.comp.now)) }
    ensures distinct { IfOk result (λ inside. AreDistinct inside.names) }
    ensures inputs { IfOk result (λ inside. inside.graph.inputs ≡ length place.now.comp.now.ins.items) }
    ensures nodes { IfOk result (λ inside. inside.graph.nodes.items ≡ map Some nodes.now) }
    ensures reads { IfOk result (λ inside. inside.graph.reads ≡ reads) }
{
    let mut names = place.names.beside();
    add_names(&mut names, place.names, &place.comp.ins)?;
    add_names(&mut names, place.names, &place.comp.outs)?;
    // They are distinct.
    let _count = names.len();
    let nodes = all_of(alloc, nodes)?;
    let inputs = place.comp.ins.len();
    Ok(Inside {
        names,
        graph: PartGraph {
            reads,
            nodes,
            inputs,
        },
    })
}

/// The same with a graph of the ports alone, where that is smaller: each instance of the component is a search of the graph, or a copy.
pub fn condensed(alloc: Global, inside: Inside) -> Result<Inside, Memory>
    ensures { (earlier : Design) (c : Component) → IsInside earlier c inside → IfOk result (IsInside earlier c) }
{
    let Inside { names, graph } = inside;
    let graph = condense_graph(alloc, graph)?;
    Ok(Inside { names, graph })
}
