//! The values of a transaction: the rules S3, S6 and S4.
ghost use Rattle.std.specs.Prelude.{◌≡◌, ◌≤◌, None, true, false, is_some, length, map, replicate, All, IfOk, MatchOption};
ghost use Rattle.std.specs.List.{list_all};
ghost use Rattle.hw_bits.specs.declared.bits.TheConstants.{MAX_WIDTH};
ghost use Rattle.hw_bits.specs.Values.{values_of, widths_of};
ghost use Rattle.stim_read.specs.CycleRules.{has_known_name};
ghost use Rattle.stim_read.specs.TxEvents.{event_seen};
ghost use Rattle.stim_read.specs.TxRules.{value_given, value_or_0, or_0, all_fit};
ghost use Rattle.stim_read.specs.inside.TxWalk.{HasWidths, values_fault};
ghost use Rattle.stim_read.specs.inside.Walk.{Tells};

use crate::events::EventInputs;
use crate::given::Given;
use crate::places::place;
use crate::stim_end::{StimEnd, refused};
use hw_bits::{Bits, Memory};
use hw_names::Names;
use std::alloc::Global;

/// A place for each of so many values, none of which is there yet.
fn no_values(alloc: Global, count: usize) -> Result<Vec<Option<u128>>, Memory>
    ensures { IfOk result (λ found. found.items ≡ replicate count None) }
{
    let mut found = Vec::new(alloc);
    for _place in 0..count {
        found.push(None)?;
    }
    Ok(found)
}

/// The value that each name is given; `None` where another name is given one.
fn find_values(
    alloc: Global,
    names: &Names,
    given: &[Given],
) -> Result<Option<Vec<Option<u128>>>, Memory>
    ensures { IfOk result (λ o. MatchOption o (list_all (has_known_name names.now) given.now ≡ false)
        (λ found. (list_all (has_known_name names.now) given.now ≡ true) × (found.items ≡ map (value_given given.now) names.now))) }
{
    let mut found = no_values(alloc, names.len())?;
    for g in given {
        let Some(place) = place(names, g.name.bytes()) else {
            return Ok(None);
        };
        found[place] = Some(g.value);
    }
    Ok(Some(found))
}

/// Whether each value is there.
fn are_given(found: &[Option<u128>]) -> bool
    ensures { result ≡ list_all is_some found.now }
{
    for value in found {
        if value.is_none() {
            return false;
        }
    }
    true
}

/// The values at these widths; `None` where one is too wide.
fn fitted(alloc: Global, widths: &[u8], found: &[Option<u128>]) -> Result<Option<Vec<Bits>>, Memory>
    requires widths { All (λ w. (1 ≤ w) × (w ≤ MAX_WIDTH)) widths.now }
    requires paired { length found.now ≡ length widths.now }
    ensures { IfOk result (λ o. MatchOption o (all_fit widths.now (map or_0 found.now) ≡ false)
        (λ v. (all_fit widths.now (map or_0 found.now) ≡ true) × (values_of v.items ≡ map or_0 found.now) × (widths_of v.items ≡ widths.now))) }
{
    let mut values = Vec::new(alloc);
    for (place, width) in widths.iter().enumerate() {
        let Some(value) = Bits::new(found[place].unwrap_or(0), *width) else {
            return Ok(None);
        };
        values.push(value)?;
    }
    Ok(Some(values))
}

/// The values of an event's data inputs in the transaction with this number.
pub(crate) fn input_values(
    alloc: Global,
    event: &EventInputs,
    number: u64,
    given: &[Given],
) -> Result<Vec<Bits>, StimEnd>
    requires { HasWidths (event_seen event.now) }
    ensures told { Tells result (values_fault (event_seen event.now).inputs number given.now) }
    ensures values { IfOk result (λ v. (values_of v.items ≡ map (value_or_0 given.now) event.now.names) × (widths_of v.items ≡ event.now.widths.items)) }
{
    let Some(found) = find_values(alloc, &event.names, given)? else {
        return Err(refused(3, number));
    };
    if !are_given(&found) {
        return Err(refused(6, number));
    }
    match fitted(alloc, &event.widths, &found)? {
        Some(values) => Ok(values),
        None => Err(refused(4, number)),
    }
}
