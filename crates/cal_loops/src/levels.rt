//! C12 by levels: where each component has levels of its ports, none has a loop.
//!
//! A component's levels are those of its graph, to which its cells give only what the levels of their components say. So no more
//! is kept of a component than a number for each port, and a cell costs as many steps as the text names ports of it.
ghost use Rattle.std.specs.Prelude.{◌≡◌, ◌<◌, ◌≤◌, ℕ, All, Contains, Some, length, slice_get, slice_index, slice_set, IfOk, IfSome, IsTrue};
ghost use Rattle.hw_names.specs.Name.{AreDistinct};
ghost use Rattle.cal_ast.specs.Numbers.{HasNumbers};
ghost use Rattle.cal_ast.specs.Rules.{HasNoLoops, KeepsRules};
ghost use Rattle.cal_ast.specs.Tree.{Component, design_of, own};
ghost use Rattle.cal_ast.specs.Wires.{HasNoLoop};
ghost use Rattle.cal_place.specs.Around.{comp_at, design_at};
ghost use Rattle.cal_place.specs.Nesting.{ShowsNesting};
ghost use Rattle.cal_place.specs.Tables.{ShowsTables};
ghost use Rattle.cal_loops.specs.inside.Levels.{IsCellPort, KeepsOwn, ShowsLevels, ShowsPartLevels};
ghost use Rattle.cal_wires.specs.Nodes.{APort, key_of};
ghost use Rattle.hw_levels.specs.declared.cells.CellPort as specs_port;

use crate::cells::inside::own_node;
use cal_place::{Overview, PartOrder, Place, component_of};
use cal_wires::{Ports, WireGraph, port_names, text_graph};
use hw_bits::Memory;
use hw_levels::{CellPort, levels_of};
use hw_texts::text_at;
use std::alloc::Global;

/// Levels of a component's ports by their numbers, inputs first; none of a port of which the component's text says nothing.
#[derive(Drop)]
pub struct Levels {
    pub ports: Vec<Option<usize>>,
}

/// The port of this number in the graph, if it is one of a cell that is made of a component, and has a level there.
fn cell_port(place: &Place, graph: &WireGraph, levels: &[Levels], node: usize) -> Option<CellPort>
    requires kept { KeepsRules (design_at place.now) }
    requires all { length levels.now ≡ length (design_at place.now) }
    requires node { node < length graph.now.ports.keys }
    ensures node { IfSome result (λ port. port.node ≡ node) }
    ensures found { (port : specs_port.CellPort) → port.node ≡ node → IsCellPort (design_at place.now) (comp_at place.now) graph.now levels.now port
        → result ≡ Some port }
{
    let (cell, pin) = graph.ports.cell_port(node)?;
    let number = place.cell(cell)?;
    let part = component_of(place.made(number))?;
    let signature = place.signature_of(part);
    let port = signature.names.find(pin)?;
    let level = levels[part].ports.get(port).copied().flatten()?;
    Some(CellPort {
        cell: number,
        level,
        node,
        is_input: port < signature.inputs,
    })
}

/// The ports of cells that are made of components, which the graph has and which have levels there.
fn cell_ports(place: &Place, graph: &WireGraph, levels: &[Levels]) -> Result<Vec<CellPort>, Memory>
    requires kept { KeepsRules (design_at place.now) }
    requires all { length levels.now ≡ length (design_at place.now) }
    ensures in_range { IfOk result (λ ports. All (λ port. port.node < length graph.now.ports.keys) ports.items) }
    ensures found { (port : specs_port.CellPort) → IsCellPort (design_at place.now) (comp_at place.now) graph.now levels.now port
        → IfOk result (λ ports. Contains ports.items port) }
{
    let mut ports = Vec::new(graph.alloc);
    for node in 0..graph.ports.len() {
        if let Some(port) = cell_port(place, graph, levels, node) {
            ports.push(port)?;
        }
    }
    Ok(ports)
}

/// Of levels of the graph's ports those of the component's own ports.
fn own_levels(
    alloc: Global,
    place: &Place,
    ports: &Ports,
    levels: &[usize],
) -> Result<Levels, Memory>
    requires kept { KeepsRules (design_at place.now) }
    requires levels { length ports.now.keys ≤ length levels.now }
    requires distinct { AreDistinct ports.now.keys }
    ensures { IfOk result (KeepsOwn (comp_at place.now) ports.now.keys levels.now) }
{
    let names = port_names(place);
    let mut own = Vec::new(alloc);
    for number in 0..names.len() {
        own.push(own_level(ports, levels, text_at(names, number)))?;
    }
    Ok(Levels { ports: own })
}

/// The level of the component's own port of this name, if the graph has it.
fn own_level(ports: &Ports, levels: &[usize], name: &[u8]) -> Option<usize>
    requires levels { length ports.now.keys ≤ length levels.now }
    requires distinct { AreDistinct ports.now.keys }
    ensures { (node : ℕ) → slice_get ports.now.keys node ≡ Some (key_of (APort (own name.now))) → result ≡ Some (slice_index levels.now node) }
{
    let node = own_node(ports, name)?;
    Some(levels[node])
}

/// Levels of the component's ports, where `levels` are those of the components that it has cells of; none where none were found.
fn levels_in(alloc: Global, place: &Place, levels: &[Levels]) -> Result<Option<Levels>, Memory>
    requires kept { KeepsRules (design_at place.now) }
    requires parts { ShowsPartLevels (design_at place.now) place.now.number levels.now }
    ensures levels { IfOk result (λ found. IfSome found (ShowsLevels (design_at place.now) (comp_at place.now))) }
    ensures no_loop { IfOk result (λ found. IfSome found (λ _. HasNoLoop (design_at place.now) (comp_at place.now))) }
{
    // The component stands in the design.
    let _comp = place.comp();
    let graph = text_graph(alloc, place)?;
    let cells = cell_ports(place, &graph, levels)?;
    let WireGraph { ports, entries, .. } = graph;
    match levels_of(alloc, entries, cells, ports.len())? {
        Some(found) => Ok(Some(own_levels(alloc, place, &ports, &found)?)),
        None => Ok(None),
    }
}

/// Levels of the ports of the component of this number, where those of the components that it has cells of are known.
fn levels_at(
    alloc: Global,
    overview: &Overview,
    levels: &[Levels],
    number: usize,
) -> Result<Option<Levels>, Memory>
    requires numbers { HasNumbers overview.now.design.now }
    requires tables { ShowsTables (design_of overview.now.design.now) overview.now.tables.now }
    requires nesting { ShowsNesting (design_of overview.now.design.now) overview.now.nesting.now }
    requires kept { KeepsRules (design_of overview.now.design.now) }
    requires number { number < length overview.now.design.now.comps.items }
    requires parts { ShowsPartLevels (design_of overview.now.design.now) number levels.now }
    ensures levels { (c : Component) → slice_get (design_of overview.now.design.now) number ≡ Some c
        → IfOk result (λ found. IfSome found (ShowsLevels (design_of overview.now.design.now) c)) }
    ensures no_loop { (c : Component) → slice_get (design_of overview.now.design.now) number ≡ Some c
        → IfOk result (λ found. IfSome found (λ _. HasNoLoop (design_of overview.now.design.now) c)) }
{
    let place = Place::of(alloc, overview, number)?;
    levels_in(alloc, &place, levels)
}

/// Keeps the levels of the component of this number.
fn keep_levels(levels: &mut Vec<Levels>, number: usize, own: Levels)
    requires { number < length levels.old.items }
    ensures { levels.new.items ≡ slice_set levels.old.items number own }
{
    levels[number] = own;
}

/// Whether each component has levels, where C1 to C11 are kept: then none has a loop. Where the answer is no, nothing is known.
pub fn have_levels(alloc: Global, overview: &Overview) -> Result<bool, Memory>
    requires numbers { HasNumbers overview.now.design.now }
    requires tables { ShowsTables (design_of overview.now.design.now) overview.now.tables.now }
    requires nesting { ShowsNesting (design_of overview.now.design.now) overview.now.nesting.now }
    requires kept { KeepsRules (design_of overview.now.design.now) }
    ensures { IfOk result (λ have. IsTrue have → HasNoLoops (design_of overview.now.design.now)) }
{
    let PartOrder::Parts(order) = &overview.nesting.order else {
        unreachable!();
    };
    let mut levels = no_levels(alloc, overview.design.comps.len())?;
    for number in order {
        match levels_at(alloc, overview, &levels, *number)? {
            Some(own) => keep_levels(&mut levels, *number, own),
            None => return Ok(false),
        }
    }
    Ok(true)
}

/// So many components, of whose ports no level is known.
fn no_levels(alloc: Global, count: usize) -> Result<Vec<Levels>, Memory>
    ensures { IfOk result (λ levels. length levels.items ≡ count) }
{
    let mut levels = Vec::new(alloc);
    for _ in 0..count {
        let ports = Vec::new(alloc);
        levels.push(Levels { ports })?;
    }
    Ok(levels)
}
