//! What a step of a row makes of the slots before it.
ghost use Rattle.std.specs.Prelude.{◌≡◌, ◌<◌, length, if◌then◌else◌};
ghost use Rattle.net_steps.specs.Operations.{picked, shifted_up, shifted_down};

use crate::choice::{Choice, are_below_in, only, part, several};
use crate::other::Other;

/// What a step makes of the values of slots. Slots are by their numbers; a slot is true where it is 1.
/// A mask has its low bits 1 and the others 0.
#[derive(Clone, Copy, PartialEq, Eq, Hash)]
pub enum Operation {
    /// This number.
    Constant(u64),
    /// The bits that are 1 in both.
    And {
        a: u32,
        b: u32,
    },
    /// The bits that are 1 in either.
    Or {
        a: u32,
        b: u32,
    },
    /// The bits that differ.
    Xor {
        a: u32,
        b: u32,
    },
    /// 1 where both are true, else 0.
    Both {
        a: u32,
        b: u32,
    },
    /// 1 where either is true, else 0.
    Either {
        a: u32,
        b: u32,
    },
    /// 1 where `a` is true and `b` is not, else 0.
    ButNot {
        a: u32,
        b: u32,
    },
    /// 1 where they are equal, else 0.
    Equal {
        a: u32,
        b: u32,
    },
    /// 1 where `a` is below `b`, else 0.
    Less {
        a: u32,
        b: u32,
    },
    /// One of two, by whether `on` is true.
    Choose {
        on: u32,
        value: u32,
        other: u32,
    },
    /// `value` where `first` alone is true, `other` where `second` alone is, else 0.
    Pick {
        first: u32,
        value: u32,
        second: u32,
        other: u32,
    },
    /// The value of the one choice that is on, of so many from a number on; 0 where none is, or several are.
    Only {
        from: u32,
        count: u32,
    },
    /// 1 where two or more of them are on, else 0.
    Several {
        from: u32,
        count: u32,
    },
    /// The sum, by the mask.
    Add {
        a: u32,
        b: u32,
        mask: u64,
    },
    /// The difference, by the mask.
    Subtract {
        a: u32,
        b: u32,
        mask: u64,
    },
    /// The product, by the mask.
    Multiply {
        a: u32,
        b: u32,
        mask: u64,
    },
    /// The mask's bits that are 0 in `a`.
    Invert {
        a: u32,
        mask: u64,
    },
    /// `a` shifted up by the number that is in `by`, by the mask.
    ShiftLeft {
        a: u32,
        by: u32,
        mask: u64,
    },
    /// `a` shifted down by the number that is in `by`.
    ShiftRight {
        a: u32,
        by: u32,
    },
    /// The bits of `a` from the bit `low` up, by the mask.
    Cut {
        a: u32,
        low: u8,
        mask: u64,
    },
    /// `high` above the `shift` bits of `low`.
    Join {
        high: u32,
        low: u32,
        shift: u8,
    },
    /// An output of one of the other cells, with the slots of the first two of its inputs.
    Output {
        other: u32,
        output: u8,
        first: u32,
        second: u32,
    },
}

impl Operation {
    ghost use Rattle.net_steps.specs.Operations.{value_of, IsBelow};
    ghost use Rattle.net_steps.specs.Others.{AreNarrow};

    /// What it makes of the slots.
    #[inline(always)]
    pub fn result(&self, slots: &[u64], others: &[Other], choices: &[Choice]) -> u64
        requires below { IsBelow others.now choices.now (length slots.now) self.now }
        requires others { AreNarrow others.now }
        ensures { result ≡ value_of others.now choices.now slots.now self.now }
    {
        match self {
            Operation::Constant(value) => *value,
            Operation::And { a, b } => slots[*a as usize] & slots[*b as usize],
            Operation::Or { a, b } => slots[*a as usize] | slots[*b as usize],
            Operation::Xor { a, b } => slots[*a as usize] ^ slots[*b as usize],
            Operation::Both { a, b } => {
                ((slots[*a as usize] == 1) & (slots[*b as usize] == 1)) as u64
            }
            Operation::Either { a, b } => {
                ((slots[*a as usize] == 1) | (slots[*b as usize] == 1)) as u64
            }
            Operation::ButNot { a, b } => {
                ((slots[*a as usize] == 1) & (slots[*b as usize] != 1)) as u64
            }
            Operation::Equal { a, b } => (slots[*a as usize] == slots[*b as usize]) as u64,
            Operation::Less { a, b } => (slots[*a as usize] < slots[*b as usize]) as u64,
            Operation::Choose { on, value, other } => {
                chosen(
                    slots[*on as usize] == 1,
                    slots[*value as usize],
                    slots[*other as usize],
                )
            }
            Operation::Pick {
                first,
                value,
                second,
                other,
            } => {
                let first = slots[*first as usize] == 1;
                let second = slots[*second as usize] == 1;
                picked(
                    first,
                    slots[*value as usize],
                    second,
                    slots[*other as usize],
                )
            }
            Operation::Only { from, count } => only(part(choices, *from, *count), slots),
            Operation::Several { from, count } => several(part(choices, *from, *count), slots),
            Operation::Add { a, b, mask } => {
                slots[*a as usize].wrapping_add(slots[*b as usize]) & *mask
            }
            Operation::Subtract { a, b, mask } => {
                slots[*a as usize].wrapping_sub(slots[*b as usize]) & *mask
            }
            Operation::Multiply { a, b, mask } => {
                slots[*a as usize].wrapping_mul(slots[*b as usize]) & *mask
            }
            Operation::Invert { a, mask } => mask.wrapping_sub(slots[*a as usize]),
            Operation::ShiftLeft { a, by, mask } => {
                shifted_up(slots[*a as usize], slots[*by as usize]) & *mask
            }
            Operation::ShiftRight { a, by } => {
                shifted_down(slots[*a as usize], slots[*by as usize])
            }
            Operation::Cut { a, low, mask } => slots[*a as usize] >> *low & *mask,
            Operation::Join { high, low, shift } => {
                slots[*high as usize] << *shift | slots[*low as usize]
            }
            Operation::Output {
                other,
                output,
                first,
                second,
            } => {
                let places = [*first, *second, *second, *second];
                others[*other as usize].output(*output as usize, places, slots)
            }
        }
    }
}

impl Operation {
    ghost use Rattle.std.specs.Prelude.{◌≡◌, true};
    ghost use Rattle.net_steps.specs.Operations.{IsBelow};
    ghost use Rattle.net_steps.specs.Others.{AreCounted};

    /// Whether each operand lies below this slot.
    pub fn is_below(&self, slot: usize, others: &[Other], choices: &[Choice]) -> bool
        requires { AreCounted others.now }
        ensures { result ≡ true → IsBelow others.now choices.now slot self.now }
    {
        match self {
            Operation::Constant(_) => true,
            Operation::And { a, b } => (*a as usize) < slot && (*b as usize) < slot,
            Operation::Or { a, b } => (*a as usize) < slot && (*b as usize) < slot,
            Operation::Xor { a, b } => (*a as usize) < slot && (*b as usize) < slot,
            Operation::Both { a, b } => (*a as usize) < slot && (*b as usize) < slot,
            Operation::Either { a, b } => (*a as usize) < slot && (*b as usize) < slot,
            Operation::ButNot { a, b } => (*a as usize) < slot && (*b as usize) < slot,
            Operation::Equal { a, b } => (*a as usize) < slot && (*b as usize) < slot,
            Operation::Less { a, b } => (*a as usize) < slot && (*b as usize) < slot,
            Operation::Choose { on, value, other } => (*on as usize) < slot
                && (*value as usize) < slot
                && (*other as usize) < slot,
            Operation::Pick {
                first,
                value,
                second,
                other,
            } => (*first as usize) < slot
                && (*value as usize) < slot
                && (*second as usize) < slot
                && (*other as usize) < slot,
            Operation::Only { from, count } => are_below_in(choices, slot, *from, *count),
            Operation::Several { from, count } => are_below_in(choices, slot, *from, *count),
            Operation::Add { a, b, .. } => (*a as usize) < slot && (*b as usize) < slot,
            Operation::Subtract { a, b, .. } => (*a as usize) < slot && (*b as usize) < slot,
            Operation::Multiply { a, b, .. } => (*a as usize) < slot && (*b as usize) < slot,
            Operation::Invert { a, .. } => (*a as usize) < slot,
            Operation::ShiftLeft { a, by, .. } => (*a as usize) < slot && (*by as usize) < slot,
            Operation::ShiftRight { a, by } => (*a as usize) < slot && (*by as usize) < slot,
            Operation::Cut { a, low, .. } => (*a as usize) < slot && *low < 64,
            Operation::Join { high, low, shift } => (*high as usize) < slot
                && (*low as usize) < slot
                && *shift < 64,
            Operation::Output {
                other,
                output,
                first,
                second,
            } => {
                (*first as usize) < slot
                    && (*second as usize) < slot
                    && (*other as usize) < others.len()
                    && (*output as usize) < others[*other as usize].outputs
            }
        }
    }
}

/// One of two.
#[inline(always)]
fn chosen(on: bool, yes: u64, no: u64) -> u64
    ensures { result ≡ (if on then yes else no) }
{
    if on { yes } else { no }
}

/// The value of the one that is on; 0 where none is, or both.
#[inline(always)]
fn picked(first: bool, value: u64, second: bool, other: u64) -> u64
    ensures { result ≡ picked first value second other }
{
    let one = if second { 0 } else { value };
    let two = if second { other } else { 0 };
    if first { one } else { two }
}

/// The number shifted up; nothing is left of it by 64 or more.
fn shifted_up(number: u64, by: u64) -> u64
    ensures { result ≡ shifted_up number by }
{
    if by < 64 { number << by } else { 0 }
}

/// The number shifted down; nothing is left of it by 64 or more.
fn shifted_down(number: u64, by: u64) -> u64
    ensures { result ≡ shifted_down number by }
{
    if by < 64 { number >> by } else { 0 }
}
