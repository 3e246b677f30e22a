//! The entries of memories: the rules S3, S7 and S4, and what they load.
ghost use Rattle.std.specs.Prelude.{◌≡◌, ◌≤◌, ◌<◌, true, false, length, map, All, IfOk, MatchOption};
ghost use Rattle.std.specs.List.{list_all};
ghost use Rattle.hw_bits.specs.declared.bits.TheConstants.{MAX_WIDTH};
ghost use Rattle.hw_bits.specs.Values.{values_of, widths_of};
ghost use Rattle.hw_names.specs.Name.{AreDistinct};
ghost use Rattle.stim_read.specs.CycleText.{words_seen};
ghost use Rattle.stim_read.specs.CycleRules.{memory_targets, sizes_of, fits_width};
ghost use Rattle.stim_read.specs.CycleRun.{load_of, load_seen};
ghost use Rattle.stim_read.specs.inside.CycleWalk.{memory_fault, memories_fault};
ghost use Rattle.stim_read.specs.inside.Walk.{Tells};
ghost use Rattle.net_core.specs.declared.stimulus.MemShape.{MemShape};

use crate::cycle_text::MemoryWords;
use crate::places::{memory_names, place};
use crate::stim_end::{StimEnd, refused};
use hw_bits::{Bits, Memory};
use hw_names::Names;
use net_core::{MemLoad, MemShape};
use std::alloc::Global;

/// The words as values of this width; `None` where one is too wide.
fn fitted(alloc: Global, width: u8, words: &[u128]) -> Result<Option<Vec<Bits>>, Memory>
    requires wide { 1 ≤ width }
    requires narrow { width ≤ MAX_WIDTH }
    ensures { IfOk result (λ o. MatchOption o (list_all (fits_width width) words.now ≡ false)
        (λ v. (list_all (fits_width width) words.now ≡ true) × (values_of v.items ≡ words.now) × (widths_of v.items ≡ map (λ _. width) words.now))) }
{
    let mut values = Vec::new(alloc);
    for word in words {
        let Some(value) = Bits::new(*word, width) else {
            return Ok(None);
        };
        values.push(value)?;
    }
    Ok(Some(values))
}

/// Judges a memory, and gives what it loads.
fn load(
    alloc: Global,
    names: &Names,
    mems: &[MemShape],
    number: u64,
    memory: &MemoryWords,
) -> Result<MemLoad, StimEnd>
    requires names { names.now ≡ (memory_targets mems.now).names }
    requires widths { All (λ (m : MemShape). (1 ≤ m.width) × (m.width ≤ MAX_WIDTH)) mems.now }
    ensures told { Tells result (memory_fault (memory_targets mems.now) (sizes_of mems.now) number (words_seen memory.now)) }
    ensures load { IfOk result (λ load. load_seen load ≡ load_of (memory_targets mems.now) (words_seen memory.now)) }
{
    let Some(mem) = place(names, memory.name.bytes()) else {
        return Err(refused(3, number));
    };
    let shape = &mems[mem];
    if memory.words.len() as u64 > shape.size {
        return Err(refused(7, number));
    }
    match fitted(alloc, shape.width, &memory.words)? {
        Some(words) => Ok(MemLoad { mem, words }),
        None => Err(refused(4, number)),
    }
}

/// What the memories load, in their order, the first being the entry with this number; else the first rule
/// that is broken. An entry with no number finds no memory.
pub(crate) fn loads(
    alloc: Global,
    mems: &[MemShape],
    first: u64,
    memories: &[MemoryWords],
) -> Result<Vec<MemLoad>, StimEnd>
    requires names { AreDistinct (memory_targets mems.now).names }
    requires widths { All (λ (m : MemShape). (1 ≤ m.width) × (m.width ≤ MAX_WIDTH)) mems.now }
    ensures told { Tells result (memories_fault (memory_targets mems.now) (sizes_of mems.now) first (map words_seen memories.now)) }
    ensures loads { IfOk result (λ loads. map load_seen loads.items ≡ map (load_of (memory_targets mems.now)) (map words_seen memories.now)) }
{
    let names = memory_names(alloc, mems)?;
    let mut loads = Vec::new(alloc);
    for (index, memory) in memories.iter().enumerate() {
        let number = first.checked_add(index as u64).ok_or(Memory)?;
        loads.push(load(alloc, &names, mems, number, memory)?)?;
    }
    Ok(loads)
}
