//! One graph of a holder's ports and the nodes of its cells' graphs.
ghost use Rattle.std.specs.Prelude.{◌≡◌, ℕ, ◌+◌, ◌<◌, ◌^◌, ◌++◌, length, map, All, IfOk, OnOk};
ghost use Rattle.hw_graph.specs.Graph.{AreInRange};
ghost use Rattle.hw_cells.specs.Cells.{AreOfParts, IsFit, IsFlat};
ghost use Rattle.hw_cells.specs.inside.Copies.{cell_entries, input_entry, inside_entries, node_entries, output_entry};
ghost use Rattle.hw_cells.specs.inside.Parts.{cells_at};

use crate::cell::{Cell, Pin};
use crate::parts::{Split, split_cells};
use hw_bits::Memory;
use hw_graph::{Entry, Groups, gather};
use std::alloc::Global;

/// Graphs have less than this many nodes.
const NODES: usize = 4_294_967_296;

/// Adds that the node reads these, all behind `first`.
fn add_reads(
    entries: &mut Vec<Entry>,
    first: usize,
    node: usize,
    reads: &[usize],
) -> Result<(), Memory>
    requires node { first + node < 2 ^ 63 }
    requires reads { All (λ read. first + read < 2 ^ 63) reads.now }
    ensures { OnOk result (entries.new.items ≡ entries.old.items ++ node_entries first node reads.now) }
{
    for read in reads {
        entries.push(Entry {
            key: first + node,
            value: first + *read,
        })?;
    }
    Ok(())
}

/// Adds a copy of the graph, whose first node is `first`.
fn add_inside(entries: &mut Vec<Entry>, first: usize, reads: &Groups) -> Result<(), Memory>
    requires in_range { AreInRange reads.now }
    requires room { first + length reads.now < 2 ^ 63 }
    ensures { OnOk result (entries.new.items ≡ entries.old.items ++ inside_entries first reads.now) }
{
    for node in 0..reads.len() {
        add_reads(entries, first, node, reads.get(node))?;
    }
    Ok(())
}

/// Adds that the cell's outputs read their nodes.
fn add_outputs(entries: &mut Vec<Entry>, first: usize, outputs: &[Pin]) -> Result<(), Memory>
    requires room { All (λ pin. first + pin.node < 2 ^ 63) outputs.now }
    ensures { OnOk result (entries.new.items ≡ entries.old.items ++ map (output_entry first) outputs.now) }
{
    for pin in outputs {
        entries.push(Entry {
            key: pin.port,
            value: first + pin.node,
        })?;
    }
    Ok(())
}

/// Adds that the nodes of inputs read the cell's inputs.
fn add_inputs(entries: &mut Vec<Entry>, first: usize, inputs: &[Pin]) -> Result<(), Memory>
    requires room { All (λ pin. first + pin.node < 2 ^ 63) inputs.now }
    ensures { OnOk result (entries.new.items ≡ entries.old.items ++ map (input_entry first) inputs.now) }
{
    for pin in inputs {
        entries.push(Entry {
            key: first + pin.node,
            value: pin.port,
        })?;
    }
    Ok(())
}

/// Adds a copy of the cell's graph, and that it stands between the cell's outputs and inputs.
fn add_cell(entries: &mut Vec<Entry>, first: usize, cell: &Cell) -> Result<(), Memory>
    requires cell { (ports : ℕ) × IsFit ports cell.now }
    requires room { first + length cell.now.reads.now < 2 ^ 63 }
    ensures { OnOk result (entries.new.items ≡ entries.old.items ++ cell_entries first cell.now) }
{
    add_inside(entries, first, cell.reads)?;
    add_outputs(entries, first, &cell.outputs)?;
    add_inputs(entries, first, &cell.inputs)
}

/// One graph of ports, which read one another as the entries say and through the cells of these numbers, and of the nodes of copies
/// of those cells' graphs. The ports are the first nodes, by their numbers.
fn flat_copies(
    alloc: Global,
    mut entries: Vec<Entry>,
    ports: usize,
    cells: &[Cell],
    numbers: &[usize],
) -> Result<Groups, Memory>
    requires entries { All (λ entry. (entry.key < ports) × (entry.value < ports)) entries.items }
    requires within { All (λ number. number < length cells.now) numbers.now }
    requires cells { All (IsFit ports) cells.now }
    requires room { ports < 2 ^ 32 }
    ensures flat { IfOk result (IsFlat entries.items ports (cells_at cells.now numbers.now)) }
    ensures small { IfOk result (λ reads. length reads < 2 ^ 32) }
{
    let mut nodes = ports;
    for number in numbers {
        let cell = &cells[*number];
        if cell.reads.len() >= NODES - nodes {
            return Err(Memory);
        }
        add_cell(&mut entries, nodes, cell)?;
        nodes += cell.reads.len();
    }
    gather(alloc, entries.as_slice(), nodes)
}

/// One graph of ports, which read one another as the entries say and through the cells, and of the nodes of the graphs that are
/// copied. The ports are the first nodes, by their numbers.
pub fn flatten(
    alloc: Global,
    entries: Vec<Entry>,
    ports: usize,
    cells: &[Cell],
) -> Result<Groups, Memory>
    requires entries { All (λ entry. (entry.key < ports) × (entry.value < ports)) entries.items }
    requires cells { All (IsFit ports) cells.now }
    requires parts { AreOfParts cells.now }
    requires room { ports < 2 ^ 32 }
    ensures flat { IfOk result (IsFlat entries.items ports cells.now) }
    ensures small { IfOk result (λ reads. length reads < 2 ^ 32) }
{
    let Split { entries, left } = split_cells(alloc, entries, cells)?;
    flat_copies(alloc, entries, ports, cells, &left)
}
