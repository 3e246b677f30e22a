//! The entries of inputs: the rules S3, S4 and S5, and what they set.
ghost use Rattle.std.specs.Prelude.{◌≡◌, ◌<◌, ◌≤◌, ◌++◌, [], true, false, length, map, flat_map, All, Ok, None, IfOk, OnOk, MatchOption};
ghost use Rattle.std.specs.List.{list_all};
ghost use Rattle.hw_bits.specs.declared.bits.TheConstants.{MAX_WIDTH};
ghost use Rattle.hw_names.specs.Name.{AreDistinct};
ghost use Rattle.net_core.specs.declared.stimulus.InputShape.{InputShape};
ghost use Rattle.stim_read.specs.CycleText.{entry_seen};
ghost use Rattle.stim_read.specs.CycleRules.{input_targets, has_known_name, given_fits};
ghost use Rattle.stim_read.specs.CycleRun.{setting_of, settings_of, setting_seen};
ghost use Rattle.stim_read.specs.inside.CycleWalk.{order_fault, input_fault, inputs_fault};
ghost use Rattle.stim_read.specs.inside.Walk.{Tells};

use crate::cycle_text::InputEntry;
use crate::given::Given;
use crate::places::{input_names, place};
use crate::stim_end::{StimEnd, refused};
use hw_bits::{Bits, Memory};
use hw_names::Names;
use net_core::{InputSet, InputShape};
use std::alloc::Global;

/// Whether each of these names is known.
fn are_known(names: &Names, given: &[Given]) -> bool
    ensures { result ≡ list_all (has_known_name names.now) given.now }
{
    for g in given {
        if place(names, g.name.bytes()).is_none() {
            return false;
        }
    }
    true
}

/// What a known input is set to from this row on; `None` where the value is too wide.
fn setting(names: &Names, ins: &[InputShape], from: u64, given: &Given) -> Option<InputSet>
    requires names { names.now ≡ (input_targets ins.now).names }
    requires widths { All (λ (i : InputShape). (1 ≤ i.width) × (i.width ≤ MAX_WIDTH)) ins.now }
    requires known { has_known_name names.now given.now ≡ true }
    ensures { MatchOption result (given_fits (input_targets ins.now) given.now ≡ false)
        (λ set. (given_fits (input_targets ins.now) given.now ≡ true) × (setting_seen set ≡ setting_of (input_targets ins.now) from given.now)) }
{
    let input = place(names, given.name.bytes())?;
    let value = Bits::new(given.value, ins[input].width)?;
    Some(InputSet { from, input, value })
}

/// Puts what an entry's known inputs are set to last; says whether each value fits.
fn push_settings(
    names: &Names,
    ins: &[InputShape],
    from: u64,
    given: &[Given],
    sets: &mut Vec<InputSet>,
) -> Result<bool, Memory>
    requires names { names.now ≡ (input_targets ins.now).names }
    requires widths { All (λ (i : InputShape). (1 ≤ i.width) × (i.width ≤ MAX_WIDTH)) ins.now }
    requires known { list_all (has_known_name names.now) given.now ≡ true }
    ensures fit { IfOk result (λ fit. fit ≡ list_all (given_fits (input_targets ins.now)) given.now) }
    ensures pushed { result ≡ Ok true
        → map setting_seen sets.new.items ≡ map setting_seen sets.old.items ++ map (setting_of (input_targets ins.now) from) given.now }
{
    for g in given {
        let Some(set) = setting(names, ins, from, g) else {
            return Ok(false);
        };
        sets.push(set)?;
    }
    Ok(true)
}

/// Judges by S5 an entry after the one with the first start.
fn check_order(before: Option<u64>, entry: u64, from: u64) -> Result<(), StimEnd>
    ensures { Tells result (order_fault before entry from) }
{
    match before {
        Some(first) if from <= first => Err(StimEnd::Refused {
            rule: 5,
            entry,
            first,
            second: from,
            delay: 1,
        }),
        _ => Ok(()),
    }
}

/// Judges an entry, and puts what it sets last.
fn take_entry(
    names: &Names,
    ins: &[InputShape],
    before: Option<u64>,
    number: u64,
    entry: &InputEntry,
    sets: &mut Vec<InputSet>,
) -> Result<(), StimEnd>
    requires names { names.now ≡ (input_targets ins.now).names }
    requires widths { All (λ (i : InputShape). (1 ≤ i.width) × (i.width ≤ MAX_WIDTH)) ins.now }
    ensures told { Tells result (input_fault (input_targets ins.now) before number (entry_seen entry.now)) }
    ensures pushed { OnOk result (map setting_seen sets.new.items ≡ map setting_seen sets.old.items ++ settings_of (input_targets ins.now) (entry_seen entry.now)) }
{
    if !are_known(names, &entry.given) {
        return Err(refused(3, number));
    }
    if !push_settings(names, ins, entry.from, &entry.given, sets)? {
        return Err(refused(4, number));
    }
    check_order(before, number, entry.from)
}

/// What the entries set, in their order; else the first rule that is broken.
pub(crate) fn settings(
    alloc: Global,
    ins: &[InputShape],
    entries: &[InputEntry],
) -> Result<Vec<InputSet>, StimEnd>
    requires names { AreDistinct (input_targets ins.now).names }
    requires widths { All (λ (i : InputShape). (1 ≤ i.width) × (i.width ≤ MAX_WIDTH)) ins.now }
    ensures told { Tells result (inputs_fault (input_targets ins.now) None 0 (map entry_seen entries.now)) }
    ensures settings { IfOk result (λ sets. map setting_seen sets.items ≡ flat_map (settings_of (input_targets ins.now)) (map entry_seen entries.now)) }
{
    let names = input_names(alloc, ins)?;
    let mut sets = Vec::new(alloc);
    let mut before = None;
    for (number, entry) in entries.iter().enumerate() {
        take_entry(&names, ins, before, number as u64, entry, &mut sets)?;
        before = Some(entry.from);
    }
    Ok(sets)
}
