//! What an output reads, by a search that takes time and room for what it reaches alone.
ghost use Rattle.std.specs.Prelude.{◌≡◌, ◌<◌, ◌++◌, ℕ, All, length, nat_eq, IfOk, IfSome, OnOk};
ghost use Rattle.indexmap.specs.IndexSet.{insert_all};
ghost use Rattle.hw_graph.specs.Graph.{AreInRange};
ghost use Rattle.hw_cells.specs.inside.Pairs.{AddsFirst, AreReached, IsWithin, is_reached, pair_entries};

use crate::pairs::Start;
use hw_bits::Memory;
use hw_graph::{Entry, Groups};
use indexmap::IndexSet;
use std::alloc::Global;

/// A step of a search, which hashes, takes some eight times as long as one of a walk over the whole graph. So all searches together
/// may take an eighth of the steps of a walk: where they are given up, they have taken no longer than the walk that follows.
const SHARE: usize = 8;

/// A node and all that it reaches, and how many steps are left of those that a search for them might take.
#[derive(Drop)]
struct Reached {
    nodes: IndexSet<usize>,
    steps: usize,
}

/// Adds those of these nodes that are not there yet.
fn add_all(nodes: &mut IndexSet<usize>, more: &[usize]) -> Result<(), Memory>
    ensures { OnOk result (nodes.new.keys ≡ insert_all nat_eq nodes.old.keys more.now) }
{
    for node in more {
        nodes.insert(*node)?;
    }
    Ok(())
}

/// The start and all that it reaches; none where that takes more than so many steps. A step is a node, or a read of one. The nodes
/// from `next` on are also the queue of those whose reads are to be looked at.
fn reached_within(
    alloc: Global,
    reads: &Groups,
    start: usize,
    steps: usize,
) -> Result<Option<Reached>, Memory>
    requires in_range { AreInRange reads.now }
    requires start { start < length reads.now }
    ensures { IfOk result (λ found. IfSome found (λ reached. AreReached reads.now start reached.nodes.keys)) }
{
    let mut nodes = IndexSet::new(alloc);
    nodes.insert(start)?;
    let mut left = steps;
    let mut next = 0;
    while next < nodes.len() {
        let node_reads = reads.get(nodes[next]);
        let Some(rest) = left.checked_sub(1 + node_reads.len()) else {
            return Ok(None);
        };
        add_all(&mut nodes, node_reads)?;
        left = rest;
        next += 1;
    }
    Ok(Some(Reached { nodes, steps: left }))
}

/// Adds that the start's output reads those of its inputs whose nodes are reached.
fn add_reached(
    entries: &mut Vec<Entry>,
    nodes: &IndexSet<usize>,
    start: &Start,
) -> Result<(), Memory>
    ensures { OnOk result (entries.new.items ≡ entries.old.items ++ pair_entries (is_reached nodes.now.keys) start.now) }
{
    for input in start.inputs {
        if nodes.contains(&input.node) {
            entries.push(Entry {
                key: start.output.port,
                value: input.port,
            })?;
        }
    }
    Ok(())
}

/// Adds which of its inputs the output of each start reads through the graph, one start after another, as long as all that takes few
/// steps; gives whether it did so for all.
pub fn add_searched(
    alloc: Global,
    entries: &mut Vec<Entry>,
    reads: &Groups,
    starts: &[Start],
) -> Result<bool, Memory>
    requires in_range { AreInRange reads.now }
    requires within { All (IsWithin (length reads.now)) starts.now }
    ensures { IfOk result (AddsFirst reads.now starts.now entries.old.items entries.new.items) }
{
    let mut left = reads.len() / SHARE;
    for start in starts {
        // to look up an input is a step too
        let Some(steps) = left.checked_sub(start.inputs.len()) else {
            return Ok(false);
        };
        let Some(reached) = reached_within(alloc, reads, start.output.node, steps)? else {
            return Ok(false);
        };
        add_reached(entries, &reached.nodes, start)?;
        left = reached.steps;
    }
    Ok(true)
}
