//! A stimulus of transactions, as its JSON value says it.
ghost use Rattle.std.specs.Prelude.{◌≡◌, map, IfOk, option_map};
ghost use Rattle.serde_json.specs.View.{view};
ghost use Rattle.stim_read.specs.Parts.{each, is_object_of};
ghost use Rattle.stim_read.specs.TxText.{tx_keys, repeat_in, repeat_at, event_in, event_at, starts_fit, tx_entry_in, entries_in, idle_at, transactions_in, tx_entry_seen, transactions_seen};

use crate::amounts::{Version, amount, number_at, read_version};
use crate::given::{Given, givens_at, is_object_of};
use hw_bits::Memory;
use hw_names::Word;
use serde_json::Value;
use std::alloc::Global;

/// So many starts, so many rows apart.
#[derive(Clone, Copy)]
pub(crate) struct Repeat {
    pub times: u64,
    pub every: u64,
}

/// The event that starts: the first, or one by its name.
#[derive(Drop)]
pub(crate) enum EventName {
    First,
    Named(Word),
}

/// An entry of `transactions`: starts of an event with the same inputs.
#[derive(Drop)]
pub(crate) struct TxEntry {
    pub event: EventName,
    pub start: u64,
    pub given: Vec<Given>,
    pub repeat: Repeat,
}

/// The entries, and the number whose low bits stand where no transaction gives a value.
#[derive(Drop)]
pub(crate) struct TxText {
    pub entries: Vec<TxEntry>,
    pub idle: u128,
}

/// What the key `repeat` has; neither number is 0.
fn read_repeat(value: &Value) -> Option<Repeat>
    ensures { result ≡ repeat_in (view value.now) }
{
    if !is_object_of(value, &["times", "every"]) {
        return None;
    }
    let times = number_at("times", value)?;
    let every = number_at("every", value)?;
    if times == 0 || every == 0 {
        return None;
    }
    Some(Repeat { times, every })
}

/// The repeat of an entry; the key may be missing.
fn repeat_at(value: Option<&Value>) -> Option<Repeat>
    ensures { result ≡ repeat_at (option_map (λ v. view v.now) value.entry) }
{
    match value {
        Some(value) => read_repeat(value),
        None => Some(Repeat { times: 1, every: 0 }),
    }
}

/// What the key `event` has.
fn read_event(alloc: Global, value: &Value) -> Result<Option<EventName>, Memory>
    ensures { IfOk result (λ o. o ≡ event_in (view value.now)) }
{
    let Some(name) = value.as_str() else {
        return Ok(None);
    };
    let name = Word::make(alloc, name.as_bytes())?;
    Ok(Some(EventName::Named(name)))
}

/// The event of an entry; the key may be missing.
fn event_at(alloc: Global, value: Option<&Value>) -> Result<Option<EventName>, Memory>
    ensures { IfOk result (λ o. o ≡ event_at (option_map (λ v. view v.now) value.entry)) }
{
    match value {
        Some(value) => read_event(alloc, value),
        None => Ok(Some(EventName::First)),
    }
}

/// Whether the last start is below `2^64`.
fn starts_fit(start: u64, repeat: Repeat) -> bool
    ensures { result ≡ starts_fit start repeat }
{
    let span = u128::from(repeat.times.saturating_sub(1)) * u128::from(repeat.every);
    u128::from(start) + span <= u128::from(u64::MAX)
}

/// Whether an entry is an object with no other keys than this version has.
fn has_entry_keys(version: Version, value: &Value) -> bool
    ensures { result ≡ is_object_of (tx_keys version) (view value.now) }
{
    match version {
        Version::One => is_object_of(value, &["start", "inputs"]),
        Version::Two => is_object_of(value, &["start", "inputs", "repeat", "event"]),
    }
}

/// An entry of `transactions`.
fn read_tx_entry(alloc: Global, version: Version, value: &Value) -> Result<Option<TxEntry>, Memory>
    ensures { IfOk result (λ o. option_map tx_entry_seen o ≡ tx_entry_in version (view value.now)) }
{
    if !has_entry_keys(version, value) {
        return Ok(None);
    }
    let Some(start) = number_at("start", value) else {
        return Ok(None);
    };
    let Some(given) = givens_at(alloc, version, "inputs", value)? else {
        return Ok(None);
    };
    let Some(repeat) = repeat_at(value.get("repeat")) else {
        return Ok(None);
    };
    let Some(event) = event_at(alloc, value.get("event"))? else {
        return Ok(None);
    };
    if !starts_fit(start, repeat) {
        return Ok(None);
    }
    Ok(Some(TxEntry {
        event,
        start,
        given,
        repeat,
    }))
}

/// The entries of the list `transactions`.
fn read_tx_entries(
    alloc: Global,
    version: Version,
    values: &[Value],
) -> Result<Option<Vec<TxEntry>>, Memory>
    ensures { IfOk result (λ o. option_map (λ v. map tx_entry_seen v.items) o ≡ each (tx_entry_in version) (map view values.now)) }
{
    let mut entries = Vec::new(alloc);
    for value in values {
        let Some(entry) = read_tx_entry(alloc, version, value)? else {
            return Ok(None);
        };
        entries.push(entry)?;
    }
    Ok(Some(entries))
}

/// The list `transactions`, at its key.
fn entries_at(
    alloc: Global,
    version: Version,
    value: &Value,
) -> Result<Option<Vec<TxEntry>>, Memory>
    ensures { IfOk result (λ o. option_map (λ v. map tx_entry_seen v.items) o ≡ entries_in version (view value.now)) }
{
    let Some(entries) = value.get("transactions") else {
        return Ok(None);
    };
    match entries.as_array() {
        Some(values) => read_tx_entries(alloc, version, values),
        None => Ok(None),
    }
}

/// The number `idle`; the key may be missing.
fn idle_at(version: Version, value: Option<&Value>) -> Option<u128>
    ensures { result ≡ idle_at version (option_map (λ v. view v.now) value.entry) }
{
    match value {
        Some(value) => amount(version, value),
        None => Some(0),
    }
}

/// A stimulus of transactions.
pub(crate) fn read_tx_text(alloc: Global, value: &Value) -> Result<Option<TxText>, Memory>
    ensures { IfOk result (λ o. option_map transactions_seen o ≡ transactions_in (view value.now)) }
{
    if !is_object_of(value, &["version", "transactions", "idle"]) {
        return Ok(None);
    }
    let Some(version) = read_version(value) else {
        return Ok(None);
    };
    let Some(entries) = entries_at(alloc, version, value)? else {
        return Ok(None);
    };
    let Some(idle) = idle_at(version, value.get("idle")) else {
        return Ok(None);
    };
    Ok(Some(TxText { entries, idle }))
}
