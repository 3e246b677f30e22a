//! A graph of a component's ports alone, in place of the graph of all that it is made of, where that is smaller.
ghost use Rattle.std.specs.Prelude.{◌≡◌, ◌↔◌, ◌<◌, ℕ, Some, length, slice_get, Contains, IfOk, IfSome};
ghost use Rattle.hw_cells.specs.PartGraph.{LeadsAlike};
ghost use Rattle.hw_cells.specs.inside.Ports.{IsOfPorts, IsPinBetween};

use crate::cell::{Cell, Pin};
use crate::condensed::condense;
use crate::part_graph::PartGraph;
use hw_bits::Memory;
use hw_graph::Groups;
use std::alloc::Global;

/// The ports from one number to another that have nodes, with these.
fn pins_between(
    alloc: Global,
    nodes: &[Option<usize>],
    start: usize,
    end: usize,
) -> Result<Vec<Pin>, Memory>
    ensures { IfOk result (λ pins. (pin : Pin) → Contains pins.items pin ↔ IsPinBetween nodes.now start end pin) }
{
    let mut pins = Vec::new(alloc);
    for port in start..end {
        if let Some(node) = nodes.get(port).copied().flatten() {
            pins.push(Pin { port, node })?;
        }
    }
    Ok(pins)
}

/// A graph of the component's ports alone, by their numbers, where that is smaller than its own.
fn graph_of_ports(alloc: Global, part: &PartGraph) -> Result<Option<Groups>, Memory>
    ensures { IfOk result (λ kept. IfSome kept (IsOfPorts part.now)) }
{
    let ports = part.nodes.len();
    let nodes = part.nodes.as_slice();
    let cell = Cell {
        part: 0,
        reads: &part.reads,
        told: None,
        outputs: pins_between(alloc, nodes, part.inputs, ports)?,
        inputs: pins_between(alloc, nodes, 0, part.inputs)?,
    };
    condense(alloc, ports, &cell)
}

/// The numbers below the count, as nodes.
fn numbers(alloc: Global, count: usize) -> Result<Vec<Option<usize>>, Memory>
    ensures all { IfOk result (λ nodes. length nodes.items ≡ count) }
    ensures each { IfOk result (λ nodes. (n : ℕ) → n < count → slice_get nodes.items n ≡ Some (Some n)) }
{
    let mut nodes = Vec::new(alloc);
    for number in 0..count {
        nodes.push(Some(number))?;
    }
    Ok(nodes)
}

/// The same with a graph of the ports alone, by their numbers, where that is smaller: each cell of the component is a search of the graph,
/// or a copy.
pub fn condense_graph(alloc: Global, part: PartGraph) -> Result<PartGraph, Memory>
    ensures { IfOk result (LeadsAlike part) }
{
    let Some(reads) = graph_of_ports(alloc, &part)? else {
        return Ok(part);
    };
    let nodes = numbers(alloc, part.nodes.len())?;
    Ok(PartGraph {
        reads,
        nodes,
        inputs: part.inputs,
    })
}
