//! A graph of a component's ports alone, in place of the graph of all that it is made of.
ghost use Rattle.std.specs.Prelude.{ℕ, ◌^◌, ◌<◌, IfOk, IfSome};
ghost use Rattle.hw_cells.specs.Cells.{HasTwoSides, IsCondensed, IsFit};

use crate::cell::Cell;
use crate::pairs::{add_pairs, add_starts};
use crate::parts::order_of;
use hw_bits::Memory;
use hw_graph::{Groups, gather};
use std::alloc::Global;

/// A component with more pairs of an output and an input for each entry of its graph keeps it.
const PAIRS: usize = 16;

/// How many entries the graph has.
fn count_entries(reads: &Groups) -> usize {
    let mut count: usize = 0;
    for node in 0..reads.len() {
        count = count.saturating_add(reads.get(node).len());
    }
    count
}

/// Whether a graph of the cell's ports alone may have no more entries than its own, which has so many, and is soon found.
fn may_be_smaller(cell: &Cell, entries: usize) -> bool {
    let pairs = cell.outputs.len().saturating_mul(cell.inputs.len());
    pairs <= entries.saturating_mul(PAIRS)
}

/// A graph of the cell's ports alone, of which there are so many, in which each output reads the inputs that it reads through
/// the cell. None where the cell's own graph has fewer entries, or may have far fewer than the cell has pairs.
pub fn condense(alloc: Global, ports: usize, cell: &Cell) -> Result<Option<Groups>, Memory>
    requires fit { IsFit ports cell.now }
    requires sides { HasTwoSides cell.now }
    requires room { ports < 2 ^ 63 }
    ensures { IfOk result (λ kept. IfSome kept (IsCondensed ports cell.now)) }
{
    let most = count_entries(cell.reads);
    if !may_be_smaller(cell, most) {
        return Ok(None);
    }
    let Some(order) = order_of(alloc, cell.reads)? else {
        return Ok(None);
    };
    let mut starts = Vec::new(alloc);
    add_starts(&mut starts, cell)?;
    let mut pairs = Vec::new(alloc);
    add_pairs(alloc, &mut pairs, cell.reads, &order, &starts)?;
    if pairs.len() > most {
        return Ok(None);
    }
    let reads = gather(alloc, pairs.as_slice(), ports)?;
    Ok(Some(reads))
}
