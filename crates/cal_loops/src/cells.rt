//! The cells of a component that are made of components, as its graph of ports has them.
//!
//! Only ports that the component's text names are in its graph. A port of a cell that is not named reads nothing or is read by
//! nothing, so it lies on no way between the component's own ports, and on no loop; and a cell costs nothing unless it is named.
ghost use Rattle.std.specs.Prelude.{◌≡◌, ◌↔◌, ◌<◌, ℕ, List, All, Some, length, slice_get, IfOk};
ghost use Rattle.hw_cells.specs.Cells.{AreOfParts};
ghost use Rattle.cal_ast.specs.Rules.{KeepsRules};
ghost use Rattle.cal_ast.specs.Tree.{Component};
ghost use Rattle.cal_place.specs.Around.{comp_at, design_at};
ghost use Rattle.cal_loops.specs.inside.CellPins.{AreCellPorts, ArePortsOfCell, HasPins, IsPortOfCell, TellsPin};
ghost use Rattle.cal_loops.specs.inside.Cells.{AreCells};
ghost use Rattle.cal_loops.specs.inside.Wiring.{ShowsParts};

pub mod inside;
pub mod named_ports;
pub mod reached_inputs;
pub mod told_cells;

use crate::cells::inside::Inside;
use crate::cells::told_cells::CellKey;
use cal_place::{Place, component_of};
use cal_wires::WireGraph;
use hw_bits::Memory;
use hw_cells::{Cell, CellPin, Pin};
use hw_graph::{Entry, Groups, gather};

/// The number of the cell whose port the node is, if that is made of a component.
fn cell_number(place: &Place, graph: &WireGraph, node: usize) -> Option<usize>
    requires { node < length graph.now.ports.keys }
    ensures { (cell : ℕ) → (result ≡ Some cell) ↔ IsPortOfCell (design_at place.now) (comp_at place.now) graph.now cell node }
{
    let (cell, _pin) = graph.ports.cell_port(node)?;
    let number = place.cell(cell)?;
    let _part = component_of(place.made(number))?;
    Some(number)
}

/// For each node that is a port of a cell that is made of a component the number of the cell.
fn cell_ports(place: &Place, graph: &WireGraph) -> Result<Vec<Entry>, Memory>
    ensures { IfOk result (λ entries. AreCellPorts (design_at place.now) (comp_at place.now) graph.now entries.items) }
{
    let mut entries = Vec::new(graph.alloc);
    for node in 0..graph.ports.len() {
        if let Some(number) = cell_number(place, graph, node) {
            entries.push(Entry {
                key: number,
                value: node,
            })?;
        }
    }
    Ok(entries)
}

/// For each cell that is made of a component its ports that the graph has.
pub fn cell_nodes(place: &Place, graph: &WireGraph) -> Result<Groups, Memory>
    ensures all { IfOk result (λ nodes. length nodes ≡ length (comp_at place.now).cells) }
    ensures each { IfOk result (λ nodes. (cell : ℕ) (ports : List ℕ) → slice_get nodes cell ≡ Some ports
        → ArePortsOfCell (design_at place.now) (comp_at place.now) graph.now cell ports) }
{
    let count = place.comp().cells.len();
    let entries = cell_ports(place, graph)?;
    gather(graph.alloc, entries.as_slice(), count)
}

/// A component that cells are made of: its number, and what is known of it.
#[derive(Clone, Copy)]
struct Part<'w> {
    number: usize,
    inside: &'w Inside,
}

/// The port of a cell that is made of the component of this number: a node of the graph, and its node inside.
fn cell_pin(
    place: &Place,
    graph: &WireGraph,
    part: usize,
    inside: &Inside,
    port: usize,
) -> Option<CellPin>
    requires part { part < length (design_at place.now) }
    requires port { port < length graph.now.ports.keys }
    ensures { (c : Component) → slice_get (design_at place.now) part ≡ Some c → TellsPin graph.now c inside.now port result }
{
    let (_cell, pin) = graph.ports.cell_port(port)?;
    let signature = place.signature_of(part);
    let number = signature.names.find(pin)?;
    let node = inside.graph.nodes.get(number).copied().flatten()?;
    Some(CellPin {
        pin: Pin { port, node },
        is_input: number < signature.inputs,
    })
}

/// The cell of this number, which is made of the component, with these ports.
fn cell_of<'w>(
    place: &Place,
    graph: &WireGraph,
    part: Part<'w>,
    number: usize,
    ports: &[usize],
) -> Result<Cell<'w>, Memory>
    requires part { part.number < length (design_at place.now) }
    requires ports { All (λ port. port < length graph.now.ports.keys) ports.now }
    ensures pins { (c : Component) → slice_get (design_at place.now) part.entry.number ≡ Some c
        → IfOk result (HasPins graph.now c part.entry.inside.now ports.now) }
    ensures graph { IfOk result (λ cell. (cell.part ≡ part.entry.number) × (cell.reads.now ≡ part.entry.inside.now.graph.reads)) }
{
    let key = CellKey {
        holder: place.number(),
        cell: number,
    };
    let mut cell = Cell {
        part: part.number,
        reads: &part.inside.graph.reads,
        told: part.inside.told.get(key),
        outputs: Vec::new(graph.alloc),
        inputs: Vec::new(graph.alloc),
    };
    for port in ports {
        if let Some(found) = cell_pin(place, graph, part.number, part.inside, *port) {
            if found.is_input {
                cell.inputs.push(found.pin)?;
            } else {
                cell.outputs.push(found.pin)?;
            }
        }
    }
    Ok(cell)
}

/// The cells that are made of components, each with those of its ports that the graph has. `insides` are those of the components, by
/// their numbers.
pub fn cells_of<'w>(
    place: &Place,
    graph: &WireGraph,
    insides: &'w [Option<Inside>],
) -> Result<Vec<Cell<'w>>, Memory>
    requires kept { KeepsRules (design_at place.now) }
    requires parts { ShowsParts (design_at place.now) place.now.number insides.now }
    ensures cells { IfOk result (λ cells. AreCells (design_at place.now) (comp_at place.now) graph.now cells.items) }
    ensures parts { IfOk result (λ cells. AreOfParts cells.items) }
{
    let count = place.comp().cells.len();
    let nodes = cell_nodes(place, graph)?;
    let mut cells = Vec::new(graph.alloc);
    for number in 0..count {
        if let Some(part) = component_of(place.made(number)) {
            if let Some(inside) = &insides[part] {
                let part = Part {
                    number: part,
                    inside,
                };
                cells.push(cell_of(place, graph, part, number, nodes.get(number))?)?;
            }
        }
    }
    Ok(cells)
}
