//! The cells of a design that are made of components, with those of their ports that the texts of their holders name.
//!
//! They are asked for before the components are gone through, so that as soon as a component's graph is known, all cells that are
//! made of it can be told of together (`reached_inputs`). Which cells are asked for, and with which ports, matters for speed alone, so
//! nothing is claimed of it.
ghost use Rattle.std.specs.Prelude.{◌≡◌, ◌<◌, All, length, IfOk};
ghost use Rattle.cal_ast.specs.Numbers.{HasNumbers};
ghost use Rattle.cal_ast.specs.Rules.{KeepsRules};
ghost use Rattle.cal_ast.specs.Tree.{design_of};
ghost use Rattle.cal_place.specs.Around.{design_at};
ghost use Rattle.cal_place.specs.Nesting.{ShowsNesting};
ghost use Rattle.cal_place.specs.Tables.{ShowsTables};

use crate::cells::cell_nodes;
use crate::cells::told_cells::CellKey;
use cal_place::{Overview, Place, Signature, component_of};
use cal_wires::{WireGraph, text_graph};
use hw_bits::Memory;
use std::alloc::Global;

/// A cell that is made of a component, and the numbers there of those of its outputs and inputs that its holder's text names.
#[derive(Drop)]
pub struct AskedCell {
    pub key: CellKey,
    pub outputs: Vec<usize>,
    pub inputs: Vec<usize>,
}

/// The number of the port, which is one of a cell that is made of a component with this signature.
fn port_number(graph: &WireGraph, signature: &Signature, port: usize) -> Option<usize>
    requires { port < length graph.now.ports.keys }
{
    let (_cell, pin) = graph.ports.cell_port(port)?;
    signature.names.find(pin)
}

/// The cell of this key, which is made of a component with this signature, with these ports.
fn asked_cell(
    graph: &WireGraph,
    signature: &Signature,
    key: CellKey,
    ports: &[usize],
) -> Result<AskedCell, Memory>
    requires { All (λ port. port < length graph.now.ports.keys) ports.now }
{
    let mut asked = AskedCell {
        key,
        outputs: Vec::new(graph.alloc),
        inputs: Vec::new(graph.alloc),
    };
    for port in ports {
        if let Some(number) = port_number(graph, signature, *port) {
            if number < signature.inputs {
                asked.inputs.push(number)?;
            } else {
                asked.outputs.push(number)?;
            }
        }
    }
    Ok(asked)
}

/// Adds the cell to those that are made of its component, if there is anything to tell of it.
fn add_cell(cells: &mut Vec<AskedCell>, cell: AskedCell) -> Result<(), Memory> {
    if !cell.outputs.is_empty() && !cell.inputs.is_empty() {
        cells.push(cell)?;
    }
    Ok(())
}

/// Adds each cell of a component to those that are made of the cell's own component.
fn add_cells(alloc: Global, place: &Place, asked: &mut [Vec<AskedCell>]) -> Result<(), Memory>
    requires kept { KeepsRules (design_at place.now) }
    requires all { length asked.old ≡ length (design_at place.now) }
{
    let holder = place.number();
    let count = place.comp().cells.len();
    let graph = text_graph(alloc, place)?;
    let nodes = cell_nodes(place, &graph)?;
    for cell in 0..count {
        if let Some(part) = component_of(place.made(cell)) {
            let signature = place.signature_of(part);
            let key = CellKey { holder, cell };
            let own = asked_cell(&graph, signature, key, nodes.get(cell))?;
            add_cell(&mut asked[part], own)?;
        }
    }
    Ok(())
}

/// So many components, of which no cell is known.
fn no_cells(alloc: Global, count: usize) -> Result<Vec<Vec<AskedCell>>, Memory>
    ensures { IfOk result (λ asked. length asked.items ≡ count) }
{
    let mut asked = Vec::new(alloc);
    for _ in 0..count {
        asked.push(Vec::new(alloc))?;
    }
    Ok(asked)
}

/// For each component the cells of the design that are made of it.
pub fn asked_cells(alloc: Global, overview: &Overview) -> Result<Vec<Vec<AskedCell>>, Memory>
    requires numbers { HasNumbers overview.now.design.now }
    requires tables { ShowsTables (design_of overview.now.design.now) overview.now.tables.now }
    requires nesting { ShowsNesting (design_of overview.now.design.now) overview.now.nesting.now }
    requires kept { KeepsRules (design_of overview.now.design.now) }
    ensures { IfOk result (λ asked. length asked.items ≡ length (design_of overview.now.design.now)) }
{
    let count = overview.design.comps.len();
    let mut asked = no_cells(alloc, count)?;
    for number in 0..count {
        let place = Place::of(alloc, overview, number)?;
        add_cells(alloc, &place, asked.as_mut_slice())?;
    }
    Ok(asked)
}
