//! Stimuli of cycles for runs side by side.
ghost use Rattle.std.specs.Prelude.{◌≡◌, ◌≤◌, ◌⊎◌, length, map, All, IfOk, IfErr, OnOk};
ghost use Rattle.hw_bits.specs.declared.bits.TheConstants.{MAX_WIDTH};
ghost use Rattle.hw_names.specs.Name.{AreDistinct};
ghost use Rattle.net_core.specs.declared.stimulus.InputShape.{InputShape};
ghost use Rattle.net_core.specs.declared.stimulus.MemShape.{MemShape};
ghost use Rattle.stim_read.specs.CycleRules.{input_targets, memory_targets, KeepsEntryRules};
ghost use Rattle.stim_read.specs.CycleRun.{run_of, run_seen};
ghost use Rattle.stim_read.specs.Fits.{FitsRun};
ghost use Rattle.stim_read.specs.Runs.{SayRuns, GiveRuns, AreUnsaid, IsRunsCause};
ghost use Rattle.stim_read.specs.RunsRules.{entry_count, row_count, KeepLimits, GoOver, BreakInRun};
ghost use Rattle.stim_read.specs.RunsText.{runs_seen};
ghost use Rattle.stim_read.specs.declared.runs_text.TheConstants.{MOST_RUNS};

use crate::cycle_text::CycleText;
use crate::cycles::{judge_entries, read_value};
use crate::runs_end::{RunsEnd, end_in_run};
use crate::runs_text::read_runs_text;
use crate::stim_end::{StimEnd, refused};
use hw_limits::{MOST_CYCLES, MOST_TRANSACTIONS};
use net_core::{CycleList, InputShape, MemShape};
use std::alloc::Global;

/// The stimuli that a text says.
fn read_text(alloc: Global, bytes: &[u8]) -> Result<Vec<CycleText>, StimEnd>
    ensures texts { IfOk result (λ texts. SayRuns bytes.now (runs_seen texts.items)) }
    ensures cause { IfErr result (AreUnsaid bytes.now) }
{
    let value = read_value(alloc, bytes)?;
    let Some(texts) = read_runs_text(alloc, &value)? else {
        return Err(refused(2, 0));
    };
    Ok(texts)
}

/// How many entries of inputs all runs have; it saturates.
fn entry_count(texts: &[CycleText]) -> u64
    ensures { result ≡ entry_count (runs_seen texts.now) }
{
    let mut count: u64 = 0;
    for text in texts {
        count = count.saturating_add(text.inputs.len() as u64);
    }
    count
}

/// How many rows all runs have; it saturates.
fn row_count(texts: &[CycleText]) -> u64
    ensures { result ≡ row_count (runs_seen texts.now) }
{
    let mut count: u64 = 0;
    for text in texts {
        count = count.saturating_add(text.cycles);
    }
    count
}

/// Judges all runs together by the limits.
fn check_limits(texts: &[CycleText]) -> Result<(), RunsEnd>
    ensures kept { OnOk result (KeepLimits (runs_seen texts.now)) }
    ensures cause { IfErr result (GoOver (runs_seen texts.now)) }
{
    let entries = entry_count(texts);
    if entries > MOST_TRANSACTIONS {
        return Err(RunsEnd::Limit {
            count: entries,
            limit: MOST_TRANSACTIONS,
            cycles: false,
        });
    }
    let rows = row_count(texts);
    if rows > MOST_CYCLES {
        return Err(RunsEnd::Limit {
            count: rows,
            limit: MOST_CYCLES,
            cycles: true,
        });
    }
    Ok(())
}

/// What each stimulus gives to a run; else the first rule that is broken.
fn judge_runs(
    alloc: Global,
    ins: &[InputShape],
    mems: &[MemShape],
    texts: &[CycleText],
) -> Result<Vec<CycleList>, RunsEnd>
    requires inputs { AreDistinct (input_targets ins.now).names }
    requires memories { AreDistinct (memory_targets mems.now).names }
    requires input_widths { All (λ (i : InputShape). (1 ≤ i.width) × (i.width ≤ MAX_WIDTH)) ins.now }
    requires memory_widths { All (λ (m : MemShape). (1 ≤ m.width) × (m.width ≤ MAX_WIDTH)) mems.now }
    ensures kept { OnOk result (All (KeepsEntryRules ins.now mems.now) (runs_seen texts.now)) }
    ensures runs { IfOk result (λ lists. map run_seen lists.items ≡ map (run_of ins.now mems.now) (runs_seen texts.now)) }
    ensures cause { IfErr result (λ end. (end ≡ RunsEnd.Memory) ⊎ BreakInRun ins.now mems.now (runs_seen texts.now) end) }
{
    let mut lists = Vec::new(alloc);
    for (number, text) in texts.iter().enumerate() {
        match judge_entries(alloc, ins, mems, text) {
            Ok(list) => lists.push(list)?,
            Err(end) => return Err(end_in_run(number as u64, end)),
        }
    }
    Ok(lists)
}

/// What a stimulus gives to up to eight runs side by side, all of them with these inputs and observable memories, of which the
/// names differ and the widths are 1 to 128 bits. It refuses a text that breaks one of the rules S1 to S7, the first run that
/// breaks one being told, and a text whose runs together have more than 100,000 entries of inputs or 1,000,000 rows; any call
/// may find no memory.
pub fn read_runs(
    alloc: Global,
    bytes: &[u8],
    ins: &[InputShape],
    mems: &[MemShape],
) -> Result<Vec<CycleList>, RunsEnd>
    requires inputs { AreDistinct (input_targets ins.now).names }
    requires memories { AreDistinct (memory_targets mems.now).names }
    requires input_widths { All (λ (i : InputShape). (1 ≤ i.width) × (i.width ≤ MAX_WIDTH)) ins.now }
    requires memory_widths { All (λ (m : MemShape). (1 ≤ m.width) × (m.width ≤ MAX_WIDTH)) mems.now }
    ensures runs { IfOk result (λ lists. GiveRuns bytes.now ins.now mems.now (map run_seen lists.items)) }
    ensures count { IfOk result (λ lists. (1 ≤ length lists.items) × (length lists.items ≤ MOST_RUNS)) }
    ensures fits { IfOk result (λ lists. All (FitsRun ins.now mems.now) lists.items) }
    ensures cause { IfErr result (IsRunsCause bytes.now ins.now mems.now) }
{
    let texts = match read_text(alloc, bytes) {
        Ok(texts) => texts,
        Err(end) => return Err(end_in_run(0, end)),
    };
    check_limits(&texts)?;
    judge_runs(alloc, ins, mems, &texts)
}
