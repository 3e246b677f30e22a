//! What guards ask of a slot: numbers of which it has to have one.
ghost use Rattle.std.specs.Prelude.{◌≡◌, ◌⊎◌, ◌++◌, ◌∷◌, [], false, IfSome};
ghost use Rattle.net_steps.specs.Apart.{Asks, Implies};
ghost use Rattle.net_steps.specs.Truths.{IsEitherOf};
ghost use Rattle.net_steps.specs.declared.truth.Truth.TheVariants.{Slot};

use crate::equality::Equality;
use crate::operation::Operation;
use crate::steps::Steps;
use crate::truth::{Truth, alternatives, parts};
use arrayvec::ArrayVec;

/// The most steps of a guard that are looked through.
pub const LOOKS: usize = 8;

/// The most numbers that a guard is found to ask for.
pub const NUMBERS: usize = 4;

/// Numbers that are asked for.
pub type Numbers = ArrayVec<u64, NUMBERS>;

/// A slot of which the guard asks numbers, if steps tell one.
pub fn asked_slot(steps: &Steps, truth: Truth) -> Option<u32> {
    if let Some(slot) = compared_slot(steps, truth) {
        return Some(slot);
    }
    let mut rest = truth;
    for _ in 0..LOOKS {
        let (left, right) = parts(steps, rest)?;
        if let Some(slot) = compared_slot(steps, left) {
            return Some(slot);
        }
        if let Some(slot) = compared_slot(steps, right) {
            return Some(slot);
        }
        rest = deeper(steps, left, right);
    }
    None
}

/// A slot that is compared with a number in an alternative of the truth.
pub fn compared_slot(steps: &Steps, truth: Truth) -> Option<u32> {
    let mut rest = truth;
    for _ in 0..NUMBERS {
        let Some((first, more)) = alternatives(steps, rest) else {
            return Some(told(steps, rest, None)?.slot);
        };
        if let Some(asked) = told(steps, first, None) {
            return Some(asked.slot);
        }
        rest = more;
    }
    None
}

/// The numbers of which the slot has to have one for this to be true, if steps tell them.
pub fn asked_numbers(steps: &Steps, truth: Truth, slot: u32) -> Option<Numbers>
    ensures { IfSome result (λ numbers. Asks steps.now truth slot numbers.items) }
{
    if let Some(numbers) = numbers_of(steps, truth, slot) {
        return Some(numbers);
    }
    let mut rest = truth;
    for _ in 0..LOOKS {
        let (left, right) = parts(steps, rest)?;
        if let Some(numbers) = numbers_of(steps, left, slot) {
            return Some(numbers);
        }
        if let Some(numbers) = numbers_of(steps, right, slot) {
            return Some(numbers);
        }
        rest = deeper(steps, left, right);
    }
    None
}

/// The one of two that has parts, if one has.
pub fn deeper(steps: &Steps, one: Truth, other: Truth) -> Truth
    ensures { (result ≡ one) ⊎ (result ≡ other) }
{
    if parts(steps, other).is_some() {
        other
    } else {
        one
    }
}

/// The numbers that the slot has to have by the last steps: a comparison, or several of which one has to come out.
pub fn numbers_of(steps: &Steps, truth: Truth, slot: u32) -> Option<Numbers>
    ensures { IfSome result (λ numbers. Asks steps.now truth slot numbers.items) }
{
    let mut numbers = Numbers::new();
    let mut rest = truth;
    for _ in 0..NUMBERS {
        let Some((first, more)) = alternatives(steps, rest) else {
            let number = number_of(steps, rest, slot)?;
            let numbers = with(numbers, number)?;
            return Some(numbers);
        };
        let number = number_of(steps, first, slot)?;
        numbers = with(numbers, number)?;
        rest = more;
    }
    None
}

/// With one number more, if there is room.
fn with(numbers: Numbers, number: u64) -> Option<Numbers>
    ensures { IfSome result (λ more. more.items ≡ numbers.items ++ number ∷ []) }
{
    let mut numbers = numbers;
    match numbers.try_push(number) {
        Ok(()) => Some(numbers),
        Err(_) => None,
    }
}

/// The number that the slot has to have for this to be true, if the last step tells it.
fn number_of(steps: &Steps, truth: Truth, slot: u32) -> Option<u64>
    ensures { IfSome result (λ number. Implies steps.now truth (record { slot = slot; number = number })) }
{
    let asked = told(steps, truth, Some(slot))?;
    if asked.slot == slot {
        Some(asked.number)
    } else {
        None
    }
}

/// What a slot has to be for this to be true, if the last step tells it: the wanted slot, or any.
fn told(steps: &Steps, truth: Truth, wanted: Option<u32>) -> Option<Equality>
    ensures { IfSome result (Implies steps.now truth) }
{
    match truth {
        Truth::Slot {
            slot,
            negated: false,
        } => told_by(steps, slot, wanted),
        _ => None,
    }
}

/// The same of a slot that has to be 1.
fn told_by(steps: &Steps, on: u32, wanted: Option<u32>) -> Option<Equality>
    ensures { IfSome result (Implies steps.now (Slot on false)) }
{
    let Some(slot) = wanted else {
        return compared(steps, on);
    };
    if slot == on {
        return Some(Equality {
            slot: on,
            number: 1,
        });
    }
    let asked = compared(steps, on)?;
    if asked.slot == slot {
        Some(asked)
    } else {
        None
    }
}

/// What a slot has to be for this one to be 1, if a step compares it with a number.
fn compared(steps: &Steps, on: u32) -> Option<Equality>
    ensures { IfSome result (Implies steps.now (Slot on false)) }
{
    let Some(Operation::Equal { a, b }) = steps.operation(on) else {
        return None;
    };
    if let Some(number) = steps.number(b) {
        return Some(Equality { slot: a, number });
    }
    let number = steps.number(a)?;
    Some(Equality { slot: b, number })
}
