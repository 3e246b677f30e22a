//! The case that a row is one of, guessed by the numbers in a few slots.
use hw_bits::Memory;
use net_steps::Equality;
use std::alloc::Global;

/// The most slots that are not 0 in a case.
const MOST_BUSY: usize = 2;

/// A slot that guards ask for numbers.
#[derive(Clone, Copy)]
pub struct Register {
    pub slot: u32,
    /// The greatest number that it is asked for.
    pub greatest: u64,
}

/// A place in a table for each number of each slot; it tells the number of a case, if there is one.
#[derive(Drop)]
pub struct Guess {
    registers: Vec<Register>,
    table: Vec<Option<usize>>,
}

impl Register {
    /// How many digits it has: one for each number up to the greatest, and one for all that are greater.
    pub fn count(&self) -> usize {
        self.greatest.saturating_add(2) as usize
    }

    /// The place, with one more digit.
    fn place_with(&self, place: usize, number: u64) -> usize {
        let digit = number.min(self.greatest.saturating_add(1)) as usize;
        place.wrapping_mul(self.count()).wrapping_add(digit)
    }
}

impl Guess {
    /// Guesses these cases of these slots, of which the first has the number `first`.
    pub fn new(
        alloc: Global,
        registers: &[Register],
        cases: &[Vec<Equality>],
        first: usize,
    ) -> Result<Guess, Memory> {
        let mut table = vec![in alloc; None; place_count(registers)]?;
        for (number, case) in cases.iter().enumerate() {
            if let Some(told) = table.get_mut(place_of(registers, case.as_slice())) {
                *told = Some(first.saturating_add(number));
            }
        }
        Ok(Guess {
            registers: Vec::from_slice(alloc, registers)?,
            table,
        })
    }

    /// The number of the case that has these numbers in its slots.
    pub fn case(&self, slots: &[u64]) -> Option<usize> {
        let mut place = 0usize;
        for register in &self.registers {
            let number = slots.get(register.slot as usize)?;
            place = register.place_with(place, *number);
        }
        *self.table.as_slice().get(place)?
    }
}

/// How many places there are for the numbers of these slots.
fn place_count(registers: &[Register]) -> usize {
    let mut count = 1usize;
    for register in registers {
        count = count.saturating_mul(register.count());
    }
    count
}

/// The place of a case of these slots.
fn place_of(registers: &[Register], case: &[Equality]) -> usize {
    let mut place = 0usize;
    for (register, equality) in registers.iter().zip(case) {
        place = register.place_with(place, equality.number);
    }
    place
}

/// The cases of these slots: each has one of its numbers, and at most two have another than 0.
pub fn cases_of(alloc: Global, registers: &[Register]) -> Result<Vec<Vec<Equality>>, Memory> {
    let mut cases = Vec::new(alloc);
    cases.push(Vec::new(alloc))?;
    for register in registers {
        cases = cases_with(alloc, cases.as_slice(), register)?;
    }
    Ok(cases)
}

/// Each of the cases with each number of one more slot.
fn cases_with(
    alloc: Global,
    cases: &[Vec<Equality>],
    register: &Register,
) -> Result<Vec<Vec<Equality>>, Memory> {
    let mut longer = Vec::new(alloc);
    for case in cases {
        add_longer(alloc, case.as_slice(), register, &mut longer)?;
    }
    Ok(longer)
}

/// Adds a case with each number of one more slot; with 0 alone where as many as may be are not 0.
fn add_longer(
    alloc: Global,
    case: &[Equality],
    register: &Register,
    longer: &mut Vec<Vec<Equality>>,
) -> Result<(), Memory> {
    let busy = case.iter().filter(|equality| equality.number != 0).count();
    let greatest = if busy < MOST_BUSY {
        register.greatest
    } else {
        0
    };
    for number in 0..=greatest {
        let mut equalities = Vec::from_slice(alloc, case)?;
        equalities.push(Equality {
            slot: register.slot,
            number,
        })?;
        longer.push(equalities)?;
    }
    Ok(())
}
