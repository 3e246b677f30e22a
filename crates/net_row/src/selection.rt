//! Which cases of a netlist are worth programs of their own: those of the numbers that guards ask a few slots for.
use crate::guess::{Guess, Register, cases_of};
use hw_bits::Memory;
use net_steps::{Equality, Operation, Steps};
use std::alloc::Global;

/// The most steps of all programs of a netlist that has more than one.
const MOST_STEPS: usize = 131_072;

/// The most places of a table.
const MOST_PLACES: usize = 4096;

/// The most slots by which a program is guessed: no table has places for more.
const MOST_REGISTERS: usize = 7;

/// The most steps that are made before a program is guessed.
const MOST_OPENING: usize = 64;

/// The steps up to the slots by which a program is guessed, what is assumed in each case, and how its number is guessed.
#[derive(Drop)]
pub struct Selection {
    pub opening: Vec<Operation>,
    pub cases: Vec<Vec<Equality>>,
    pub guesses: Vec<Guess>,
}

/// How many numbers a slot is asked for, and the greatest of them; 1 at least, since it takes no step to ask for 1.
#[derive(Clone, Copy)]
struct Asked {
    count: usize,
    greatest: u64,
}

impl Selection {
    /// Adds the cases of these slots, where all programs together have few enough steps.
    fn add(&mut self, alloc: Global, registers: &[Register], steps: usize) -> Result<(), Memory> {
        let cases = cases_of(alloc, registers)?;
        let first = self.cases.len();
        let programs = first.saturating_add(cases.len()).saturating_add(1);
        if programs.saturating_mul(steps) > MOST_STEPS {
            return Ok(());
        }
        self.guesses
            .push(Guess::new(alloc, registers, cases.as_slice(), first)?)?;
        for case in cases {
            self.cases.push(case)?;
        }
        Ok(())
    }
}

/// The cases of the slots that are asked for the most numbers, and after them those of the first of these slots alone. The first
/// step has the slot `base`.
pub fn select(alloc: Global, steps: &Steps, base: usize) -> Result<Selection, Memory> {
    let mut selection = Selection {
        opening: Vec::new(alloc),
        cases: Vec::new(alloc),
        guesses: Vec::new(alloc),
    };
    let registers = registers_of(alloc, steps, base)?;
    if let Some(first) = registers.as_slice().first()
        && let Some(opening) = steps_upto(steps, base, first.slot)
    {
        selection.opening = Vec::from_slice(alloc, opening)?;
        let count = steps.operations().len();
        selection.add(alloc, registers.as_slice(), count)?;
        if registers.len() > 1 {
            selection.add(alloc, &[*first], count)?;
        }
    }
    Ok(selection)
}

/// The slots that are asked for the most numbers, as far as one table has places for them. The first may be made by one of the
/// first steps; the others are kept or inputs.
fn registers_of(alloc: Global, steps: &Steps, base: usize) -> Result<Vec<Register>, Memory> {
    let mut asked = asked_of(alloc, steps, base.saturating_add(MOST_OPENING))?;
    let mut registers = Vec::new(alloc);
    let mut places = 1usize;
    let mut few = 3usize;
    for _register in 0..MOST_REGISTERS {
        let Some(register) = take_most_asked(asked.as_mut_slice(), few) else {
            return Ok(registers);
        };
        let more = places.saturating_mul(register.count());
        if more <= MOST_PLACES {
            registers.push(register)?;
            places = more;
            few = 2;
            asked.truncate(base);
        }
    }
    Ok(registers)
}

/// What each of so many slots is asked for.
fn asked_of(alloc: Global, steps: &Steps, count: usize) -> Result<Vec<Asked>, Memory> {
    let none = Asked {
        count: 0,
        greatest: 1,
    };
    let mut asked = vec![in alloc; none; count]?;
    for operation in steps.operations() {
        if let Some((slot, number)) = compared(steps, operation)
            && let Some(there) = asked.get_mut(slot as usize)
        {
            there.count = there.count.saturating_add(1);
            there.greatest = there.greatest.max(number);
        }
    }
    Ok(asked)
}

/// The slot and the number that a step compares, if it does.
fn compared(steps: &Steps, operation: &Operation) -> Option<(u32, u64)> {
    let Operation::Equal { a, b } = *operation else {
        return None;
    };
    if let Some(number) = steps.number(b) {
        return Some((a, number));
    }
    let number = steps.number(a)?;
    Some((b, number))
}

/// The slot that is asked for the most numbers, if these are not too few; it is not found again.
fn take_most_asked(asked: &mut [Asked], few: usize) -> Option<Register> {
    let mut most = few;
    let mut found = None;
    for (slot, there) in asked.iter().enumerate() {
        if there.count >= most {
            most = there.count.saturating_add(1);
            found = Some(slot);
        }
    }
    let slot = found?;
    let taken = asked.get_mut(slot)?;
    taken.count = 0;
    Some(Register {
        slot: u32::try_from(slot).ok()?,
        greatest: taken.greatest,
    })
}

/// The steps up to that of a slot, where they are few and take no choices; none where no step makes the slot.
fn steps_upto(steps: &Steps, base: usize, slot: u32) -> Option<&[Operation]> {
    let count = (slot as usize).saturating_add(1).saturating_sub(base);
    let opening = steps.operations().get(..count)?;
    if count > MOST_OPENING || opening.iter().any(takes_choices) {
        return None;
    }
    Some(opening)
}

/// Whether a step is made of choices.
fn takes_choices(operation: &Operation) -> bool {
    matches!(
        operation,
        Operation::Only { .. } | Operation::Several { .. }
    )
}
