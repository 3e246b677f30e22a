//! What several nodes of a graph reach: each has a bit of its own in a word of each node.
ghost use Rattle.std.specs.Prelude.{◌≡◌, ◌↔◌, ◌⊎◌, ℕ, ◌<◌, ◌≤◌, All, Contains, Some, length, slice_get, slice_index, IfOk};
ghost use Rattle.hw_graph.specs.Graph.{AreInRange, IsReadOrder};
ghost use Rattle.hw_cells.specs.Cells.{HasBit};
ghost use Rattle.hw_cells.specs.inside.Words.{TellReached, TellStarts};

use hw_bits::Memory;
use hw_graph::Groups;
use std::alloc::Global;

/// So many nodes at most have bits in a word.
pub const TOGETHER: usize = 64;

/// Words of so many nodes, in which the k-th start alone has the k-th bit.
fn begin(alloc: Global, nodes: usize, starts: &[usize]) -> Result<Vec<u64>, Memory>
    requires few { length starts.now ≤ 64 }
    requires within { All (λ start. start < nodes) starts.now }
    ensures all { IfOk result (λ words. length words.items ≡ nodes) }
    ensures starts { IfOk result (λ words. TellStarts starts.now words.items) }
{
    let mut words = vec![in alloc; 0; nodes]?;
    for (bit, start) in starts.iter().enumerate() {
        words[*start] |= 1 << bit;
    }
    Ok(words)
}

/// Adds the bits of the word to the words of these nodes.
fn add_bits(words: &mut [u64], word: u64, nodes: &[usize])
    requires { All (λ node. node < length words.old) nodes.now }
    ensures all { length words.new ≡ length words.old }
    ensures each { (bit other : ℕ) → HasBit (slice_index words.new other) bit
        ↔ HasBit (slice_index words.old other) bit ⊎ (Contains nodes.now other × HasBit word bit) }
{
    for node in nodes {
        words[*node] |= word;
    }
}

/// For each node of the graph a word whose k-th bit tells whether the k-th start is the node, or reaches it. In the order each
/// node comes after all that it reads, so each word is whole before it is passed on.
pub fn reached_together(
    alloc: Global,
    reads: &Groups,
    order: &[usize],
    starts: &[usize],
) -> Result<Vec<u64>, Memory>
    requires in_range { AreInRange reads.now }
    requires order { IsReadOrder reads.now order.now }
    requires few { length starts.now ≤ 64 }
    requires within { All (λ start. start < length reads.now) starts.now }
    ensures all { IfOk result (λ words. length words.items ≡ length reads.now) }
    ensures reached { IfOk result (λ words. TellReached reads.now starts.now words.items) }
{
    let mut words = begin(alloc, reads.len(), starts)?;
    for place in (0..order.len()).rev() {
        let node = order[place];
        let word = words[node];
        add_bits(words.as_mut_slice(), word, reads.get(node));
    }
    Ok(words)
}
