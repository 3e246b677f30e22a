//! What cells' outputs reach of their inputs, told for many cells of one component together, before their holders are gone through.
ghost use Rattle.std.specs.Prelude.{◌≡◌, ◌+◌, ◌<◌, ◌≤◌, ℕ, [], All, length, take, IfOk, OnOk};
ghost use Rattle.hw_graph.specs.Graph.{AreInRange, IsReadOrder};
ghost use Rattle.hw_cells.specs.Cells.{IsAskable, IsTold};
ghost use Rattle.hw_cells.specs.declared.told.Told.{Told};
ghost use Rattle.hw_cells.specs.inside.Told.{IsShifted, IsSound, outputs_of};

use crate::parts::order_of;
use crate::together::{TOGETHER, reached_together};
use hw_bits::Memory;
use hw_graph::Groups;
use std::alloc::Global;

/// Some outputs and inputs of a cell, by their nodes in the graph of what it is made of, and which output is or reaches which input.
#[derive(Drop)]
pub struct Told {
    pub outputs: Vec<usize>,
    pub inputs: Vec<usize>,
    /// For each input a word whose k-th bit tells it of the k-th output; none as long as nothing is told.
    words: Vec<u64>,
}

impl Told {
    /// These outputs and inputs, of which nothing is told yet.
    pub fn new(alloc: Global, outputs: Vec<usize>, inputs: Vec<usize>) -> Told
        ensures outputs { result.outputs ≡ outputs }
        ensures inputs { result.inputs ≡ inputs }
        ensures words { result.words.items ≡ [] }
    {
        Told {
            outputs,
            inputs,
            words: Vec::new(alloc),
        }
    }

    /// What is told of the inputs, a word for each.
    pub fn words(&self) -> &[u64]
        ensures { result.now ≡ self.now.words.items }
    {
        &self.words
    }
}

/// How many of the first cells have no more outputs, together, than a word has bits; one at least.
fn count_together(cells: &[Told]) -> usize
    requires some { 0 < length cells.now }
    requires few { All (λ (told : Told). length told.outputs.items ≤ 64) cells.now }
    ensures some { 0 < result }
    ensures within { result ≤ length cells.now }
    ensures few { length (outputs_of (take result cells.now)) ≤ 64 }
{
    let mut outputs = 0;
    for (count, cell) in cells.iter().enumerate() {
        outputs += cell.outputs.len();
        if outputs > TOGETHER {
            return count;
        }
    }
    cells.len()
}

/// The outputs of the cells, one cell's after another's.
fn all_outputs(alloc: Global, cells: &[Told]) -> Result<Vec<usize>, Memory>
    ensures { IfOk result (λ nodes. nodes.items ≡ outputs_of cells.now) }
{
    let mut nodes = Vec::new(alloc);
    for cell in cells {
        nodes.extend_from_slice(&cell.outputs)?;
    }
    Ok(nodes)
}

/// Tells of the cell what the words of the graph's nodes tell from the bit of its first output on.
fn tell_cell(alloc: Global, cell: &mut Told, words: &[u64], first: usize) -> Result<(), Memory>
    requires room { first + length cell.old.outputs.items ≤ 64 }
    requires inputs { All (λ node. node < length words.now) cell.old.inputs.items }
    ensures outputs { cell.new.outputs.items ≡ cell.old.outputs.items }
    ensures inputs { cell.new.inputs.items ≡ cell.old.inputs.items }
    ensures told { OnOk result (IsShifted words.now first cell.new) }
{
    if cell.outputs.is_empty() {
        return Ok(());
    }
    let mut told = Vec::new(alloc);
    for input in &cell.inputs {
        told.push(words[*input] >> first)?;
    }
    cell.words = told;
    Ok(())
}

/// Tells of these cells, by one walk over the graph, whose nodes come in the order after all that they read.
fn tell_together(
    alloc: Global,
    reads: &Groups,
    order: &[usize],
    cells: &mut [Told],
) -> Result<(), Memory>
    requires in_range { AreInRange reads.now }
    requires order { IsReadOrder reads.now order.now }
    requires few { length (outputs_of cells.old) ≤ 64 }
    requires sound { All (IsSound reads.now) cells.old }
    ensures all { length cells.new ≡ length cells.old }
    ensures sound { OnOk result (All (IsSound reads.now) cells.new) }
{
    let nodes = all_outputs(alloc, cells)?;
    let words = reached_together(alloc, reads, order, &nodes)?;
    let mut first = 0;
    for cell in cells.iter_mut() {
        tell_cell(alloc, cell, &words, first)?;
        first += cell.outputs.len();
    }
    Ok(())
}

/// Tells of the first cells, as many as are told together, and gives how many these are.
fn tell_first(
    alloc: Global,
    reads: &Groups,
    order: &[usize],
    cells: &mut [Told],
) -> Result<usize, Memory>
    requires some { 0 < length cells.old }
    requires in_range { AreInRange reads.now }
    requires order { IsReadOrder reads.now order.now }
    requires sound { All (IsSound reads.now) cells.old }
    ensures some { IfOk result (λ count. 0 < count) }
    ensures within { IfOk result (λ count. count ≤ length cells.old) }
    ensures all { length cells.new ≡ length cells.old }
    ensures sound { OnOk result (All (IsSound reads.now) cells.new) }
{
    let count = count_together(cells);
    let (first, _) = cells.split_at_mut(count);
    tell_together(alloc, reads, order, first)?;
    Ok(count)
}

/// Tells for each of these cells, all of the component that has this graph, which of its inputs its outputs are or reach. Nothing is told
/// where the graph has a loop.
pub fn tell(alloc: Global, reads: &Groups, cells: &mut [Told]) -> Result<(), Memory>
    requires in_range { AreInRange reads.now }
    requires askable { All (IsAskable (length reads.now)) cells.old }
    ensures { OnOk result (All (IsTold reads.now) cells.new) }
{
    let Some(order) = order_of(alloc, reads)? else {
        return Ok(());
    };
    let mut done = 0;
    while done < cells.len() {
        let (_, left) = cells.split_at_mut(done);
        done += tell_first(alloc, reads, &order, left)?;
    }
    Ok(())
}
