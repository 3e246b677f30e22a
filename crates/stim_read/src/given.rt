//! Values for names.
ghost use Rattle.std.specs.Prelude.{◌≡◌, List, map, IfOk, option_map};
ghost use Rattle.serde_json.specs.View.{view};
ghost use Rattle.stim_read.specs.Parts.{each, has_only, is_object_of, is_one_of, member_seen};
ghost use Rattle.stim_read.specs.CycleText.{given_by, givens_in, givens_at};

use crate::amounts::{Version, amount};
use hw_bits::Memory;
use hw_names::Word;
use serde_json::{Map, Value};
use std::alloc::Global;

/// A name, and the value that it gets.
#[derive(Drop)]
pub(crate) struct Given {
    pub name: Word,
    pub value: u128,
}

/// Whether the key is one of these.
fn is_one_of(key: &str, keys: &[&str]) -> bool
    ensures { result ≡ is_one_of (map (λ k. k.now) keys.now) key.now }
{
    for other in keys {
        if key == *other {
            return true;
        }
    }
    false
}

/// Whether each key of the object is one of these.
fn has_only(members: &Map<String, Value>, keys: &[&str]) -> bool
    ensures { result ≡ has_only (map (λ k. k.now) keys.now) (map member_seen members.now.entries) }
{
    for (key, _value) in members {
        if !is_one_of(key.as_str(), keys) {
            return false;
        }
    }
    true
}

/// Whether the JSON value is an object with no other keys than these.
pub(crate) fn is_object_of(value: &Value, keys: &[&str]) -> bool
    ensures { result ≡ is_object_of (map (λ k. k.now) keys.now) (view value.now) }
{
    match value.as_object() {
        Some(members) => has_only(members, keys),
        None => false,
    }
}

/// The names and values of an object; `None` where a value is of another kind.
fn givens_of(
    alloc: Global,
    version: Version,
    members: &Map<String, Value>,
) -> Result<Option<Vec<Given>>, Memory>
    ensures { IfOk result (λ o. option_map (λ v. v.items) o ≡ each (given_by version) (map member_seen members.now.entries)) }
{
    let mut given = Vec::new(alloc);
    for (key, spelled) in members {
        let Some(value) = amount(version, spelled) else {
            return Ok(None);
        };
        let name = Word::make(alloc, key.as_bytes())?;
        given.push(Given { name, value })?;
    }
    Ok(Some(given))
}

/// The names and values that a JSON value is an object of.
fn read_givens(alloc: Global, version: Version, value: &Value) -> Result<Option<Vec<Given>>, Memory>
    ensures { IfOk result (λ o. option_map (λ v. v.items) o ≡ givens_in version (view value.now)) }
{
    match value.as_object() {
        Some(members) => givens_of(alloc, version, members),
        None => Ok(None),
    }
}

/// The names and values of the object at this key.
pub(crate) fn givens_at(
    alloc: Global,
    version: Version,
    key: &str,
    value: &Value,
) -> Result<Option<Vec<Given>>, Memory>
    ensures { IfOk result (λ o. option_map (λ v. v.items) o ≡ givens_at version key.now (view value.now)) }
{
    match value.get(key) {
        Some(object) => read_givens(alloc, version, object),
        None => Ok(None),
    }
}
