//! Stimuli of cycles.
ghost use Rattle.std.specs.Prelude.{◌≡◌, ◌≤◌, Some, None, map, All, IfOk, IfErr, MatchResult};
ghost use Rattle.hw_bits.specs.declared.bits.TheConstants.{MAX_WIDTH};
ghost use Rattle.hw_names.specs.Name.{AreDistinct};
ghost use Rattle.net_core.specs.declared.stimulus.InputShape.{InputShape};
ghost use Rattle.net_core.specs.declared.stimulus.MemShape.{MemShape};
ghost use Rattle.serde_json.specs.View.{view};
ghost use Rattle.stim_read.specs.CycleText.{cycles_seen};
ghost use Rattle.stim_read.specs.CycleRules.{input_targets, memory_targets};
ghost use Rattle.stim_read.specs.CycleRun.{run_of, run_seen, IsJson, SayCycles, GiveRun, IsCause, IsNoJson, IsUnsaid};
ghost use Rattle.stim_read.specs.inside.CycleWalk.{limit_fault, entries_fault, cycles_fault};
ghost use Rattle.stim_read.specs.inside.Walk.{Tells};
ghost use Rattle.stim_read.specs.Fits.{FitsRun};

use crate::cycle_inputs::settings;
use crate::cycle_memories::loads;
use crate::cycle_text::{CycleText, read_cycle_text};
use crate::stim_end::{StimEnd, refused};
use hw_limits::{MOST_CYCLES, MOST_TRANSACTIONS};
use net_core::{CycleList, InputShape, MemShape};
use serde_json::Value;
use std::alloc::Global;

/// The JSON value of a text.
pub(crate) fn read_value(alloc: Global, bytes: &[u8]) -> Result<Value, StimEnd>
    ensures value { IfOk result (λ value. IsJson bytes.now (view value)) }
    ensures cause { IfErr result (IsNoJson bytes.now) }
{
    match Value::from_slice(alloc, bytes) {
        Ok(value) => Ok(value),
        Err(error) if error.is_memory() => Err(StimEnd::Memory),
        Err(_) => Err(refused(1, 0)),
    }
}

/// The stimulus of cycles that a text says.
fn read_text(alloc: Global, bytes: &[u8]) -> Result<CycleText, StimEnd>
    ensures text { IfOk result (λ text. SayCycles bytes.now (cycles_seen text)) }
    ensures cause { IfErr result (IsUnsaid bytes.now) }
{
    let value = read_value(alloc, bytes)?;
    let Some(text) = read_cycle_text(alloc, &value)? else {
        return Err(refused(2, 0));
    };
    Ok(text)
}

/// Judges a stimulus by the limits.
fn check_limits(text: &CycleText) -> Result<(), StimEnd>
    ensures { Tells result (limit_fault (cycles_seen text.now)) }
{
    let count = text.inputs.len() as u64;
    if count > MOST_TRANSACTIONS {
        return Err(StimEnd::Limit {
            count,
            limit: MOST_TRANSACTIONS,
            cycles: false,
        });
    }
    if text.cycles > MOST_CYCLES {
        return Err(StimEnd::Limit {
            count: text.cycles,
            limit: MOST_CYCLES,
            cycles: true,
        });
    }
    Ok(())
}

/// What a stimulus gives to a run, whatever the limits; else the first rule that an entry breaks.
pub(crate) fn judge_entries(
    alloc: Global,
    ins: &[InputShape],
    mems: &[MemShape],
    text: &CycleText,
) -> Result<CycleList, StimEnd>
    requires inputs { AreDistinct (input_targets ins.now).names }
    requires memories { AreDistinct (memory_targets mems.now).names }
    requires input_widths { All (λ (i : InputShape). (1 ≤ i.width) × (i.width ≤ MAX_WIDTH)) ins.now }
    requires memory_widths { All (λ (m : MemShape). (1 ≤ m.width) × (m.width ≤ MAX_WIDTH)) mems.now }
    ensures told { Tells result (entries_fault ins.now mems.now (cycles_seen text.now)) }
    ensures run { IfOk result (λ list. run_seen list ≡ run_of ins.now mems.now (cycles_seen text.now)) }
{
    let sets = settings(alloc, ins, &text.inputs)?;
    let loads = loads(alloc, mems, text.inputs.len() as u64, &text.memories)?;
    Ok(CycleList {
        cycles: text.cycles,
        sets,
        loads,
    })
}

/// What a stimulus gives to a run; else the first limit or rule that it does not keep.
fn judge(
    alloc: Global,
    ins: &[InputShape],
    mems: &[MemShape],
    text: &CycleText,
) -> Result<CycleList, StimEnd>
    requires inputs { AreDistinct (input_targets ins.now).names }
    requires memories { AreDistinct (memory_targets mems.now).names }
    requires input_widths { All (λ (i : InputShape). (1 ≤ i.width) × (i.width ≤ MAX_WIDTH)) ins.now }
    requires memory_widths { All (λ (m : MemShape). (1 ≤ m.width) × (m.width ≤ MAX_WIDTH)) mems.now }
    ensures told { Tells result (cycles_fault ins.now mems.now (cycles_seen text.now)) }
    ensures run { IfOk result (λ list. run_seen list ≡ run_of ins.now mems.now (cycles_seen text.now)) }
{
    check_limits(text)?;
    judge_entries(alloc, ins, mems, text)
}

/// What a stimulus of cycles gives to a run with these inputs and observable memories, of which the names
/// differ and the widths are 1 to 128 bits. It refuses a text that breaks one of the rules S1 to S7, or that
/// has more than 100,000 entries of inputs or 1,000,000 rows; any call may find no memory.
pub fn read_cycles(
    alloc: Global,
    bytes: &[u8],
    ins: &[InputShape],
    mems: &[MemShape],
) -> Result<CycleList, StimEnd>
    requires inputs { AreDistinct (input_targets ins.now).names }
    requires memories { AreDistinct (memory_targets mems.now).names }
    requires input_widths { All (λ (i : InputShape). (1 ≤ i.width) × (i.width ≤ MAX_WIDTH)) ins.now }
    requires memory_widths { All (λ (m : MemShape). (1 ≤ m.width) × (m.width ≤ MAX_WIDTH)) mems.now }
    ensures run { IfOk result (λ list. GiveRun bytes.now ins.now mems.now (run_seen list)) }
    ensures fits { IfOk result (FitsRun ins.now mems.now) }
    ensures cause { IfErr result (IsCause bytes.now ins.now mems.now) }
{
    let text = read_text(alloc, bytes)?;
    judge(alloc, ins, mems, &text)
}
