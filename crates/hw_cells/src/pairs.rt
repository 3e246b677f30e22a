//! Entries between cells' ports alone, with no copy of the graph of what the cells are made of.
ghost use Rattle.std.specs.Prelude.{◌≡◌, ◌<◌, ◌≤◌, ◌++◌, ℕ, All, List, length, map, IfOk, OnOk};
ghost use Rattle.hw_graph.specs.Graph.{AreInRange, IsReadOrder};
ghost use Rattle.hw_cells.specs.inside.Pairs.{AddsPairs, AddsStarts, IsWithin, has_bit, pair_entries};
ghost use Rattle.hw_cells.specs.inside.Words.{TellReached};
ghost use Rattle.hw_cells.specs.declared.pairs.Start.{Start};

use crate::cell::{Cell, Pin};
use crate::together::{TOGETHER, reached_together};
use hw_bits::Memory;
use hw_graph::{Entry, Groups};
use std::alloc::Global;

/// An output of a cell, with the inputs of the cell.
#[derive(Clone, Copy, Debug)]
pub struct Start<'a> {
    pub output: Pin,
    pub inputs: &'a [Pin],
}

/// Adds the cell's outputs, each with the cell's inputs, where it has any.
pub fn add_starts<'a>(starts: &mut Vec<Start<'a>>, cell: &'a Cell) -> Result<(), Memory>
    ensures { OnOk result (AddsStarts cell.now starts.old.items starts.new.items) }
{
    if cell.inputs.is_empty() {
        return Ok(());
    }
    for output in cell.outputs.as_slice() {
        starts.push(Start {
            output: *output,
            inputs: &cell.inputs,
        })?;
    }
    Ok(())
}

/// Adds that the start's output reads those of its inputs whose word has this bit.
fn add_pairs_of(
    entries: &mut Vec<Entry>,
    words: &[u64],
    bit: usize,
    start: &Start,
) -> Result<(), Memory>
    requires bit { bit < 64 }
    requires words { All (λ input. input.node < length words.now) start.now.inputs.now }
    ensures { OnOk result (entries.new.items ≡ entries.old.items ++ pair_entries (has_bit words.now bit) start.now) }
{
    for input in start.inputs {
        if words[input.node] >> bit & 1 == 1 {
            entries.push(Entry {
                key: start.output.port,
                value: input.port,
            })?;
        }
    }
    Ok(())
}

/// The nodes of the starts' outputs.
fn output_nodes(alloc: Global, starts: &[Start]) -> Result<Vec<usize>, Memory>
    ensures { IfOk result (λ nodes. nodes.items ≡ map (λ (start : Start). start.output.node) starts.now) }
{
    let mut nodes = Vec::new(alloc);
    for start in starts {
        nodes.push(start.output.node)?;
    }
    Ok(nodes)
}

/// Adds which of its inputs the output of each of these starts reads: the words tell what the nodes of the outputs reach.
fn add_pairs_by(entries: &mut Vec<Entry>, words: &[u64], starts: &[Start]) -> Result<(), Memory>
    requires few { length starts.now ≤ 64 }
    requires within { All (IsWithin (length words.now)) starts.now }
    ensures { (reads : List (List ℕ)) → TellReached reads (map (λ (start : Start). start.output.node) starts.now) words.now
        → OnOk result (AddsPairs reads starts.now entries.old.items entries.new.items) }
{
    for (bit, start) in starts.iter().enumerate() {
        add_pairs_of(entries, words, bit, start)?;
    }
    Ok(())
}

/// Adds which of its inputs the output of each of these starts reads, of which there are no more than a word has bits.
fn add_pairs_together(
    alloc: Global,
    entries: &mut Vec<Entry>,
    reads: &Groups,
    order: &[usize],
    starts: &[Start],
) -> Result<(), Memory>
    requires in_range { AreInRange reads.now }
    requires order { IsReadOrder reads.now order.now }
    requires few { length starts.now ≤ 64 }
    requires within { All (IsWithin (length reads.now)) starts.now }
    ensures { OnOk result (AddsPairs reads.now starts.now entries.old.items entries.new.items) }
{
    let nodes = output_nodes(alloc, starts)?;
    let words = reached_together(alloc, reads, order, &nodes)?;
    add_pairs_by(entries, &words, starts)
}

/// Adds which of its inputs the output of each start reads through the graph, whose nodes come in the order after all that they
/// read.
pub fn add_pairs(
    alloc: Global,
    entries: &mut Vec<Entry>,
    reads: &Groups,
    order: &[usize],
    starts: &[Start],
) -> Result<(), Memory>
    requires in_range { AreInRange reads.now }
    requires order { IsReadOrder reads.now order.now }
    requires within { All (IsWithin (length reads.now)) starts.now }
    ensures { OnOk result (AddsPairs reads.now starts.now entries.old.items entries.new.items) }
{
    for some in starts.chunks(TOGETHER) {
        add_pairs_together(alloc, entries, reads, order, some)?;
    }
    Ok(())
}
