//! A stimulus of cycles, as its JSON value says it.
ghost use Rattle.std.specs.Prelude.{◌≡◌, map, IfOk, option_map};
ghost use Rattle.serde_json.specs.View.{view};
ghost use Rattle.stim_read.specs.Parts.{each, member_seen};
ghost use Rattle.stim_read.specs.Amounts.{amount_in};
ghost use Rattle.stim_read.specs.CycleText.{entry_in, inputs_in, words_by, memories_in, cycles_by, cycles_in, entry_seen, words_seen, cycles_seen};

use crate::amounts::{Version, amount, number_at, read_version};
use crate::given::{Given, givens_at, is_object_of};
use hw_bits::Memory;
use hw_names::Word;
use serde_json::{Map, Value};
use std::alloc::Global;

/// From this row on, these inputs have these values.
#[derive(Drop)]
pub(crate) struct InputEntry {
    pub from: u64,
    pub given: Vec<Given>,
}

/// The first words of a memory.
#[derive(Drop)]
pub(crate) struct MemoryWords {
    pub name: Word,
    pub words: Vec<u128>,
}

/// How many rows a run has, its entries of inputs, and its memories in the order of their names.
#[derive(Drop)]
pub(crate) struct CycleText {
    pub cycles: u64,
    pub inputs: Vec<InputEntry>,
    pub memories: Vec<MemoryWords>,
}

/// An entry of `inputs`.
fn read_entry(alloc: Global, version: Version, value: &Value) -> Result<Option<InputEntry>, Memory>
    ensures { IfOk result (λ o. option_map entry_seen o ≡ entry_in version (view value.now)) }
{
    if !is_object_of(value, &["from", "set"]) {
        return Ok(None);
    }
    let Some(from) = number_at("from", value) else {
        return Ok(None);
    };
    let Some(given) = givens_at(alloc, version, "set", value)? else {
        return Ok(None);
    };
    Ok(Some(InputEntry { from, given }))
}

/// The entries of the list `inputs`.
fn read_entries(
    alloc: Global,
    version: Version,
    values: &[Value],
) -> Result<Option<Vec<InputEntry>>, Memory>
    ensures { IfOk result (λ o. option_map (λ v. map entry_seen v.items) o ≡ each (entry_in version) (map view values.now)) }
{
    let mut entries = Vec::new(alloc);
    for value in values {
        let Some(entry) = read_entry(alloc, version, value)? else {
            return Ok(None);
        };
        entries.push(entry)?;
    }
    Ok(Some(entries))
}

/// The words of a memory.
fn read_words(
    alloc: Global,
    version: Version,
    values: &[Value],
) -> Result<Option<Vec<u128>>, Memory>
    ensures { IfOk result (λ o. option_map (λ v. v.items) o ≡ each (amount_in version) (map view values.now)) }
{
    let mut words = Vec::new(alloc);
    for value in values {
        let Some(word) = amount(version, value) else {
            return Ok(None);
        };
        words.push(word)?;
    }
    Ok(Some(words))
}

/// A member of `memories`.
fn read_memory(
    alloc: Global,
    version: Version,
    name: &str,
    value: &Value,
) -> Result<Option<MemoryWords>, Memory>
    ensures { IfOk result (λ o. option_map words_seen o ≡ words_by version (name.now, view value.now)) }
{
    let Some(values) = value.as_array() else {
        return Ok(None);
    };
    let Some(words) = read_words(alloc, version, values)? else {
        return Ok(None);
    };
    let name = Word::make(alloc, name.as_bytes())?;
    Ok(Some(MemoryWords { name, words }))
}

/// The members of `memories`.
fn memories_of(
    alloc: Global,
    version: Version,
    members: &Map<String, Value>,
) -> Result<Option<Vec<MemoryWords>>, Memory>
    ensures { IfOk result (λ o. option_map (λ v. map words_seen v.items) o ≡ each (words_by version) (map member_seen members.now.entries)) }
{
    let mut memories = Vec::new(alloc);
    for (key, value) in members {
        let Some(memory) = read_memory(alloc, version, key.as_str(), value)? else {
            return Ok(None);
        };
        memories.push(memory)?;
    }
    Ok(Some(memories))
}

/// What the key `memories` has; it may be missing.
fn read_memories(
    alloc: Global,
    version: Version,
    value: Option<&Value>,
) -> Result<Option<Vec<MemoryWords>>, Memory>
    ensures { IfOk result (λ o. option_map (λ v. map words_seen v.items) o ≡ memories_in version (option_map (λ v. view v.now) value.entry)) }
{
    let Some(value) = value else {
        return Ok(Some(Vec::new(alloc)));
    };
    match value.as_object() {
        Some(members) => memories_of(alloc, version, members),
        None => Ok(None),
    }
}

/// The list `inputs` at its key.
fn read_inputs(
    alloc: Global,
    version: Version,
    value: &Value,
) -> Result<Option<Vec<InputEntry>>, Memory>
    ensures { IfOk result (λ o. option_map (λ v. map entry_seen v.items) o ≡ inputs_in version (view value.now)) }
{
    let Some(inputs) = value.get("inputs") else {
        return Ok(None);
    };
    match inputs.as_array() {
        Some(values) => read_entries(alloc, version, values),
        None => Ok(None),
    }
}

/// What the keys `cycles`, `inputs` and `memories` say.
pub(crate) fn read_cycles_by(
    alloc: Global,
    version: Version,
    value: &Value,
) -> Result<Option<CycleText>, Memory>
    ensures { IfOk result (λ o. option_map cycles_seen o ≡ cycles_by version (view value.now)) }
{
    let Some(cycles) = number_at("cycles", value) else {
        return Ok(None);
    };
    let Some(inputs) = read_inputs(alloc, version, value)? else {
        return Ok(None);
    };
    let Some(memories) = read_memories(alloc, version, value.get("memories"))? else {
        return Ok(None);
    };
    Ok(Some(CycleText {
        cycles,
        inputs,
        memories,
    }))
}

/// A stimulus of cycles.
pub(crate) fn read_cycle_text(alloc: Global, value: &Value) -> Result<Option<CycleText>, Memory>
    ensures { IfOk result (λ o. option_map cycles_seen o ≡ cycles_in (view value.now)) }
{
    if !is_object_of(value, &["version", "cycles", "inputs", "memories"]) {
        return Ok(None);
    }
    let Some(version) = read_version(value) else {
        return Ok(None);
    };
    read_cycles_by(alloc, version, value)
}
