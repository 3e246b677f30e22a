//! Numbers of texts that stand in the order of the texts' bytes.
ghost use Rattle.std.specs.Prelude.{◌≡◌, ℕ, map, IfOk, Vec};
ghost use Rattle.std.specs.declared.alloc.Global.{Global};
ghost use Rattle.hw_short.specs.inside.Ranks.{AreSorted, HaveRanks, IsRank, TellTexts};

use hw_bits::Memory;
use std::alloc::Global;

/// How many of the sorted texts are less than this one.
fn rank_in(sorted: &[Vec<u8>], text: &[u8]) -> usize
    requires { AreSorted sorted.now }
    ensures { IsRank sorted.now text.now result }
{
    sorted.partition_point(|other| other.as_slice().cmp(text).is_lt())
}

/// For each text how many of the sorted ones are less.
fn ranks_in(alloc: Global, sorted: &[Vec<u8>], texts: &[Vec<u8>]) -> Result<Vec<usize>, Memory>
    requires { AreSorted sorted.now }
    ensures { IfOk result (λ ranks. HaveRanks sorted.now texts.now ranks.items) }
{
    let mut ranks = Vec::new(alloc);
    for text in texts {
        ranks.push(rank_in(sorted, text))?;
    }
    Ok(ranks)
}

/// Numbers of the texts that tell their order; `copies` are the same texts once more.
pub fn ranks_of(
    alloc: Global,
    texts: &[Vec<u8>],
    mut copies: Vec<Vec<u8>>,
) -> Result<Vec<usize>, Memory>
    requires { map (λ (t : Vec ℕ Global). t.items) copies.items ≡ map (λ (t : Vec ℕ Global). t.items) texts.now }
    ensures { IfOk result (λ ranks. TellTexts (map (λ (t : Vec ℕ Global). t.items) texts.now) ranks.items) }
{
    copies.sort()?;
    ranks_in(alloc, &copies, texts)
}
