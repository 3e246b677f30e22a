//! Assignments that never act at once, since what one asks is denied by what the other asks.
ghost use Rattle.std.specs.Prelude.{◌≡◌, true, nat_eq, unwrap_or, IfOk};
ghost use Rattle.indexmap.specs.IndexMap.{get};
ghost use Rattle.net_steps.specs.Apart.{AreDisjoint, AreNeverBoth, HasNoTwo, JoinsGroups, empty_group};

use crate::asked::{LOOKS, asked_numbers, asked_slot, compared_slot, deeper, numbers_of};
use crate::drivers::Driver;
use crate::steps::Steps;
use crate::truth::{Truth, are_opposite, parts};
use hw_bits::Memory;
use indexmap::IndexMap;
use std::alloc::Global;

/// Up to four truths that ask a slot for one number, or for it among others; a place that is free has one that is never true.
#[derive(Clone, Copy, Debug)]
pub struct Group {
    pub first: Truth,
    pub second: Truth,
    pub third: Truth,
    pub fourth: Truth,
}

impl Group {
    ghost use Rattle.std.specs.Prelude.{◌≡◌, IfSome};
    ghost use Rattle.net_steps.specs.Apart.{Joins, empty_group};

    /// No truths.
    fn empty() -> Group
        ensures { result ≡ empty_group }
    {
        let never = Truth::Fixed(false);
        Group {
            first: never,
            second: never,
            third: never,
            fourth: never,
        }
    }

    /// With one truth more, unless there is no room for it or it may be true beside another.
    fn joined(self, steps: &Steps, truth: Truth) -> Option<Group>
        ensures { IfSome result (Joins steps.now self truth) }
    {
        if never_both(steps, self.first, truth)
            && never_both(steps, self.second, truth)
            && never_both(steps, self.third, truth)
            && self.fourth.is_never()
        {
            return Some(Group {
                first: truth,
                second: self.first,
                third: self.second,
                fourth: self.third,
            });
        }
        None
    }
}

/// Whether no two of the drivers act at once: each asks a slot for numbers, and those that ask for the same one deny each other.
pub fn never_two(alloc: Global, steps: &Steps, drivers: &[Driver]) -> Result<bool, Memory>
    ensures { IfOk result (λ apart. apart ≡ true → HasNoTwo steps.now drivers.now) }
{
    let Some(slot) = first_slot(steps, drivers) else {
        return Ok(false);
    };
    let mut groups: IndexMap<u64, Group> = IndexMap::new(alloc);
    for driver in drivers {
        let Some(numbers) = asked_numbers(steps, driver.truth, slot) else {
            return Ok(false);
        };
        let joined = join_groups(steps, &mut groups, numbers.as_slice(), driver.truth)?;
        if !joined {
            return Ok(false);
        }
    }
    Ok(true)
}

/// Puts a truth into the group of each number that it asks for. It tells whether there was room, and none there may be true beside
/// it.
fn join_groups(
    steps: &Steps,
    groups: &mut IndexMap<u64, Group>,
    numbers: &[u64],
    truth: Truth,
) -> Result<bool, Memory>
    ensures { IfOk result (λ joined. joined ≡ true →
        JoinsGroups steps.now (get nat_eq groups.old) (get nat_eq groups.new) numbers.now truth) }
{
    for number in numbers {
        let Some(group) = group_of(groups, *number).joined(steps, truth) else {
            return Ok(false);
        };
        groups.insert(*number, group)?;
    }
    Ok(true)
}

/// The truths that ask for this number.
fn group_of(groups: &IndexMap<u64, Group>, number: u64) -> Group
    ensures { result ≡ unwrap_or (get nat_eq groups.now number) empty_group }
{
    match groups.get(&number) {
        Some(group) => *group,
        None => Group::empty(),
    }
}

/// Whether the two are never both true: a part of the one is denied by the other.
pub fn never_both(steps: &Steps, one: Truth, other: Truth) -> bool
    ensures { result ≡ true → AreNeverBoth steps.now one other }
{
    if denies(steps, other, one) {
        return true;
    }
    let mut rest = one;
    for _ in 0..LOOKS {
        let Some((left, right)) = parts(steps, rest) else {
            return false;
        };
        if denies(steps, other, left) || denies(steps, other, right) {
            return true;
        }
        rest = deeper(steps, left, right);
    }
    false
}

/// Whether the two are never both true: the one is denied by a part of the other.
fn denies(steps: &Steps, whole: Truth, truth: Truth) -> bool
    ensures { result ≡ true → AreNeverBoth steps.now truth whole }
{
    if are_contrary(steps, truth, whole) {
        return true;
    }
    let mut rest = whole;
    for _ in 0..LOOKS {
        let Some((left, right)) = parts(steps, rest) else {
            return false;
        };
        if are_contrary(steps, truth, left) || are_contrary(steps, truth, right) {
            return true;
        }
        rest = deeper(steps, left, right);
    }
    false
}

/// Whether the two are never both true, by the last step of each.
fn are_contrary(steps: &Steps, one: Truth, other: Truth) -> bool
    ensures { result ≡ true → AreNeverBoth steps.now one other }
{
    if one.is_never() {
        return true;
    }
    if are_opposite(one, other) {
        return true;
    }
    ask_apart(steps, one, other) || ask_apart(steps, other, one)
}

/// Whether the two ask numbers of a slot and have none in common, by the last steps.
fn ask_apart(steps: &Steps, one: Truth, other: Truth) -> bool
    ensures { result ≡ true → AreNeverBoth steps.now one other }
{
    let Some(slot) = compared_slot(steps, one) else {
        return false;
    };
    let Some(first) = numbers_of(steps, one, slot) else {
        return false;
    };
    let Some(second) = numbers_of(steps, other, slot) else {
        return false;
    };
    are_disjoint(first.as_slice(), second.as_slice())
}

/// Whether no number is among both.
fn are_disjoint(first: &[u64], second: &[u64]) -> bool
    ensures { result ≡ true → AreDisjoint first.now second.now }
{
    for number in first {
        if second.contains(number) {
            return false;
        }
    }
    true
}

/// A slot of which one of the drivers asks numbers.
fn first_slot(steps: &Steps, drivers: &[Driver]) -> Option<u32> {
    for driver in drivers {
        if let Some(slot) = asked_slot(steps, driver.truth) {
            return Some(slot);
        }
    }
    None
}
