//! The truth of guards, as slots.
ghost use Rattle.std.specs.Prelude.{◌≡◌, ◌==◌, ◌&&◌, ◌||◌, ℕ, List, nat_lt, not, true, false, if◌then◌else◌, slice_index, IfOk, IfSome};
ghost use Rattle.net_core.specs.Guard.{compare_values};
ghost use Rattle.net_steps.specs.Operations.{is_on};
ghost use Rattle.net_steps.specs.Steps.{AddsSlot};
ghost use Rattle.net_steps.specs.Truths.{is_true, AddsTruth, IsAlways, IsTruthOf, IsBothOf, IsEitherOf};

use crate::operation::Operation;
use crate::steps::Steps;
use hw_bits::Memory;
use net_core::Cmp;

/// What is true in a row: always or never, or where a slot is 1, or where it is not.
#[derive(Clone, Copy, Debug, PartialEq, Eq)]
pub enum Truth {
    Fixed(bool),
    Slot { slot: u32, negated: bool },
}

impl Truth {
    ghost use Rattle.std.specs.Prelude.{ℕ, List, ◌≡◌, true, false, not};
    ghost use Rattle.net_steps.specs.Truths.{is_true};

    /// What is true where this is not.
    pub fn not(self) -> Truth
        ensures { (slots : List ℕ) → is_true slots result ≡ not (is_true slots self) }
    {
        match self {
            Truth::Fixed(on) => Truth::Fixed(!on),
            Truth::Slot { slot, negated } => Truth::Slot {
                slot,
                negated: !negated,
            },
        }
    }

    /// Whether this is fixed as false.
    pub fn is_never(self) -> bool
        ensures { result ≡ true → (slots : List ℕ) → is_true slots self ≡ false }
    {
        match self {
            Truth::Fixed(on) => !on,
            Truth::Slot { .. } => false,
        }
    }
}

/// Whether one is true exactly where the other is not, by their slots.
pub fn are_opposite(first: Truth, second: Truth) -> bool
    ensures { result ≡ true → (slots : List ℕ) → is_true slots second ≡ not (is_true slots first) }
{
    match (first, second) {
        (
            Truth::Slot {
                slot: a,
                negated: not_a,
            },
            Truth::Slot {
                slot: b,
                negated: not_b,
            },
        ) => a == b && not_a != not_b,
        _ => false,
    }
}

/// True where the slot is.
fn at(slot: u32) -> Truth
    ensures { result ≡ Truth.Slot slot false }
{
    Truth::Slot {
        slot,
        negated: false,
    }
}

/// True where both are.
pub fn both(steps: &mut Steps, left: Truth, right: Truth) -> Result<Truth, Memory>
    ensures { IfOk result
        (AddsTruth steps.old steps.new (λ slots. is_true slots left && is_true slots right)) }
{
    match (left, right) {
        (Truth::Fixed(true), _) => Ok(right),
        (Truth::Fixed(false), _) => Ok(Truth::Fixed(false)),
        (_, Truth::Fixed(true)) => Ok(left),
        (_, Truth::Fixed(false)) => Ok(Truth::Fixed(false)),
        (
            Truth::Slot {
                slot: a,
                negated: not_a,
            },
            Truth::Slot {
                slot: b,
                negated: not_b,
            },
        ) => both_slots(steps, a, not_a, b, not_b),
    }
}

/// True where both slots are, each negated or not.
fn both_slots(steps: &mut Steps, a: u32, not_a: bool, b: u32, not_b: bool) -> Result<Truth, Memory>
    ensures { IfOk result
        (AddsTruth steps.old steps.new (λ slots. is_true slots (Truth.Slot a not_a) && is_true slots (Truth.Slot b not_b))) }
{
    if a == b {
        return Ok(twice(a, not_a, not_b));
    }
    Ok(match (not_a, not_b) {
        (false, false) => at(steps.define(Operation::Both { a, b })?),
        (false, true) => at(steps.define(Operation::ButNot { a, b })?),
        (true, false) => at(steps.define(Operation::ButNot { a: b, b: a })?),
        (true, true) => at(steps.define(Operation::Either { a, b })?).not(),
    })
}

/// True where a slot is, negated or not, and again so: never, where only one of the two is negated.
fn twice(slot: u32, first: bool, again: bool) -> Truth
    ensures { (slots : List ℕ) →
        is_true slots result ≡ (is_true slots (Truth.Slot slot first) && is_true slots (Truth.Slot slot again)) }
{
    if first == again {
        Truth::Slot {
            slot,
            negated: first,
        }
    } else {
        Truth::Fixed(false)
    }
}

/// True where either is.
pub fn either(steps: &mut Steps, left: Truth, right: Truth) -> Result<Truth, Memory>
    ensures { IfOk result
        (AddsTruth steps.old steps.new (λ slots. is_true slots left || is_true slots right)) }
{
    Ok(both(steps, left.not(), right.not())?.not())
}

/// True as one of two is, by whether `on` is true.
pub fn choose(steps: &mut Steps, on: Truth, yes: Truth, no: Truth) -> Result<Truth, Memory>
    ensures { IfOk result
        (AddsTruth steps.old steps.new (λ slots. if is_true slots on then is_true slots yes else is_true slots no)) }
{
    match yes {
        Truth::Fixed(fixed) => choose_fixed(steps, on, fixed, no),
        Truth::Slot { .. } => match no {
            Truth::Fixed(fixed) => choose_fixed(steps, on.not(), fixed, yes),
            Truth::Slot { .. } => choose_slot(steps, on, yes, no),
        },
    }
}

/// The same where the first of them is fixed.
fn choose_fixed(steps: &mut Steps, on: Truth, fixed: bool, other: Truth) -> Result<Truth, Memory>
    ensures { IfOk result
        (AddsTruth steps.old steps.new (λ slots. if is_true slots on then fixed else is_true slots other)) }
{
    if fixed {
        either(steps, on, other)
    } else {
        both(steps, on.not(), other)
    }
}

/// The same of two that are not fixed.
fn choose_slot(steps: &mut Steps, on: Truth, yes: Truth, no: Truth) -> Result<Truth, Memory>
    ensures { IfOk result
        (AddsTruth steps.old steps.new (λ slots. if is_true slots on then is_true slots yes else is_true slots no)) }
{
    if let Some(other) = beside(steps, no, yes) {
        let any = either(steps, on, other)?;
        return both(steps, any, yes);
    }
    let first = both(steps, on, yes)?;
    let second = both(steps, on.not(), no)?;
    either(steps, first, second)
}

/// What has to be true beside `part` for `whole` to be, if a step tells it.
fn beside(steps: &Steps, whole: Truth, part: Truth) -> Option<Truth>
    ensures { IfSome result (λ other. IsBothOf steps.now whole other part) }
{
    let (one, other) = parts(steps, whole)?;
    if other == part {
        return Some(one);
    }
    if one == part { Some(other) } else { None }
}

/// Two truths of which both have to be true for this one to be, if a step tells it.
pub fn parts(steps: &Steps, truth: Truth) -> Option<(Truth, Truth)>
    ensures { IfSome result (λ two. IsBothOf steps.now truth two.0 two.1) }
{
    let Truth::Slot {
        slot,
        negated: false,
    } = truth
    else {
        return None;
    };
    match steps.operation(slot) {
        Some(Operation::Both { a, b }) => Some((at(a), at(b))),
        Some(Operation::ButNot { a, b }) => Some((at(a), at(b).not())),
        _ => None,
    }
}

/// Two truths of which one has to be true for this one to be, if a step tells it.
pub fn alternatives(steps: &Steps, truth: Truth) -> Option<(Truth, Truth)>
    ensures { IfSome result (λ two. IsEitherOf steps.now truth two.0 two.1) }
{
    let Truth::Slot {
        slot,
        negated: false,
    } = truth
    else {
        return None;
    };
    match steps.operation(slot) {
        Some(Operation::Either { a, b }) => Some((at(a), at(b))),
        _ => None,
    }
}

/// A slot that is 1 where this is true, else not.
pub fn plain(steps: &mut Steps, truth: Truth) -> Result<u32, Memory>
    ensures truth { IfOk result (λ slot. AddsTruth steps.old steps.new (λ slots. is_true slots truth) (Truth.Slot slot false)) }
    ensures choices { IfOk result (λ _. steps.new.choices ≡ steps.old.choices) }
{
    match truth {
        Truth::Fixed(on) => steps.define(Operation::Constant(on as u64)),
        Truth::Slot {
            slot,
            negated: false,
        } => Ok(slot),
        Truth::Slot {
            slot,
            negated: true,
        } => {
            let one = steps.define(Operation::Constant(1))?;
            steps.define(Operation::ButNot { a: one, b: slot })
        }
    }
}

/// True where two slots compare so.
pub fn compare(steps: &mut Steps, op: Cmp, left: u32, right: u32) -> Result<Truth, Memory>
    ensures { IfOk result
        (AddsTruth steps.old steps.new (λ slots. compare_values op (slice_index slots left) (slice_index slots right))) }
{
    Ok(match op {
        Cmp::Eq => equal(steps, left, right)?,
        Cmp::Neq => equal(steps, left, right)?.not(),
        Cmp::Lt => less(steps, left, right)?,
        Cmp::Gt => less(steps, right, left)?,
        Cmp::Le => less(steps, right, left)?.not(),
        Cmp::Ge => less(steps, left, right)?.not(),
    })
}

/// Whether two slots are equal, where that is known: they are one slot, or both numbers are known.
pub fn known_equal(steps: &Steps, a: u32, b: u32) -> Option<bool>
    ensures { IfSome result (IsAlways steps.now (λ slots. slice_index slots a == slice_index slots b)) }
{
    if a == b {
        return Some(true);
    }
    let left = steps.number(a)?;
    let right = steps.number(b)?;
    Some(left == right)
}

/// Whether the slot `a` is below the slot `b`, where that is known: they are one slot, or both numbers are known.
pub fn known_less(steps: &Steps, a: u32, b: u32) -> Option<bool>
    ensures { IfSome result (IsAlways steps.now (λ slots. nat_lt (slice_index slots a) (slice_index slots b))) }
{
    if a == b {
        return Some(false);
    }
    let left = steps.number(a)?;
    let right = steps.number(b)?;
    Some(left < right)
}

/// True where two slots are equal: fixed where that is known. A slot that is compared with 1 tells it itself.
fn equal(steps: &mut Steps, a: u32, b: u32) -> Result<Truth, Memory>
    ensures { IfOk result
        (AddsTruth steps.old steps.new (λ slots. slice_index slots a == slice_index slots b)) }
{
    if let Some(same) = known_equal(steps, a, b) {
        return Ok(Truth::Fixed(same));
    }
    if steps.is_constant(b, 1) {
        return Ok(seen(steps, a));
    }
    Ok(at(steps.define(Operation::Equal { a, b })?))
}

/// True where the slot is 1. Where that is chosen by whether another is, it is told by the other.
fn seen(steps: &Steps, slot: u32) -> Truth
    ensures { IsTruthOf steps.now slot result }
{
    if let Some(Operation::Choose { on, value, other }) = steps.operation(slot)
        && let Some(Operation::Constant(1)) = steps.operation(value)
        && let Some(Operation::Constant(0)) = steps.operation(other)
    {
        return at(on);
    }
    at(slot)
}

/// True where the slot `a` is below the slot `b`: fixed where that is known.
fn less(steps: &mut Steps, a: u32, b: u32) -> Result<Truth, Memory>
    ensures { IfOk result
        (AddsTruth steps.old steps.new (λ slots. nat_lt (slice_index slots a) (slice_index slots b))) }
{
    if let Some(below) = known_less(steps, a, b) {
        return Ok(Truth::Fixed(below));
    }
    Ok(at(steps.define(Operation::Less { a, b })?))
}
