//! What is told of all cells that are made of a component, as soon as its graph is known.
//!
//! A holder of a cell has to know which of the cell's outputs reach which of its inputs, and each holder on its own would walk over
//! the graph for it. So it is told here for all of them, 64 outputs by one walk.
ghost use Rattle.std.specs.Prelude.{◌<◌, All, length, IfOk, IfSome, IsSome};
ghost use Rattle.hw_cells.specs.Cells.{IsAskable, IsTold};
ghost use Rattle.cal_ast.specs.Tree.{Component, Design};
ghost use Rattle.cal_loops.specs.inside.Wiring.{IsInside};

use crate::cells::inside::Inside;
use crate::cells::named_ports::AskedCell;
use crate::cells::told_cells::ToldCells;
use hw_bits::Memory;
use hw_cells::{PartGraph, TOGETHER, Told, tell};
use std::alloc::Global;

/// The nodes of those of these ports that have one.
fn nodes_of(alloc: Global, graph: &PartGraph, ports: &[usize]) -> Result<Vec<usize>, Memory>
    ensures { IfOk result (λ nodes. All (λ node. node < length graph.now.reads) nodes.items) }
{
    let mut nodes = Vec::new(alloc);
    for port in ports {
        if let Some(node) = graph.nodes.get(*port).copied().flatten() {
            nodes.push(node)?;
        }
    }
    Ok(nodes)
}

/// The cell by its ports' nodes, if it has few enough outputs, with nothing told yet.
fn untold(alloc: Global, graph: &PartGraph, asked: &AskedCell) -> Result<Option<Told>, Memory>
    ensures { IfOk result (λ untold. IfSome untold (IsAskable (length graph.now.reads))) }
{
    let outputs = nodes_of(alloc, graph, asked.outputs.as_slice())?;
    let inputs = nodes_of(alloc, graph, asked.inputs.as_slice())?;
    if outputs.len() > TOGETHER {
        return Ok(None);
    }
    Ok(Some(Told::new(alloc, outputs, inputs)))
}

/// These cells by their ports' nodes, with nothing told yet.
fn untold_cells(alloc: Global, graph: &PartGraph, asked: &[AskedCell]) -> Result<ToldCells, Memory>
    ensures { IfOk result (λ untold. All (IsAskable (length graph.now.reads)) untold.cells.items) }
{
    let mut untold_cells = ToldCells::none(alloc);
    for cell in asked {
        if let Some(untold) = untold(alloc, graph, cell)? {
            untold_cells.add(cell.key, untold)?;
        }
    }
    Ok(untold_cells)
}

/// What is known of a component, with what is told of these cells that are made of it.
fn with_told(alloc: Global, inside: Inside, asked: &[AskedCell]) -> Result<Inside, Memory>
    ensures { (design : Design) (c : Component) → IsInside design c inside → IfOk result (IsInside design c) }
{
    let Inside { graph, .. } = inside;
    let mut told = untold_cells(alloc, &graph, asked)?;
    tell(alloc, &graph.reads, told.cells.as_mut_slice())?;
    Ok(Inside { graph, told })
}

/// The same of a component that may be a part of none, of which nothing is known then.
pub fn tell_cells(
    alloc: Global,
    inside: Option<Inside>,
    asked: &[AskedCell],
) -> Result<Option<Inside>, Memory>
    ensures some { IsSome inside → IfOk result IsSome }
    ensures shows { (design : Design) (c : Component) → IfSome inside (IsInside design c) → IfOk result (λ told. IfSome told (IsInside design c)) }
{
    match inside {
        Some(inside) => Ok(Some(with_told(alloc, inside, asked)?)),
        None => Ok(None),
    }
}
