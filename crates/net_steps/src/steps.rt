//! The steps of a row, each once.
ghost use Rattle.std.specs.Prelude.{◌≡◌, ◌<◌, [], IfOk, IfSome};

use crate::choice::Choice;
use crate::equality::Equality;
use crate::operation::Operation;
use hw_bits::Memory;
use indexmap::IndexSet;
use std::alloc::{AllocError, AllocFailed, Global};
use std::marker::Model;

/// Why a netlist has no program.
#[derive(Clone, Copy, Debug, PartialEq, Eq)]
pub enum ProgramEnd {
    /// It is simulated otherwise: a port or a literal is wider than a slot.
    Unfit,
    Memory,
}

impl From<Memory> for ProgramEnd {
    fn from(_memory: Memory) -> ProgramEnd {
        ProgramEnd::Memory
    }
}

impl From<AllocError> for ProgramEnd {
    fn from(_error: AllocError) -> ProgramEnd {
        ProgramEnd::Memory
    }
}

impl<T: Drop> From<AllocFailed<T>> for ProgramEnd {
    fn from(_failed: AllocFailed<T>) -> ProgramEnd {
        ProgramEnd::Memory
    }
}

/// The steps so far, each once, and the choices that they are made of. The first has the slot `base`. They may be for those rows
/// alone in which some slots have given numbers: what is then said of rows is said of these.
#[derive(Drop)]
pub struct Steps {
    base: usize,
    set: IndexSet<Operation>,
    choices: Vec<Choice>,
    assumed: Vec<Equality>,
}

impl Model for Steps {
    ghost use Rattle.net_steps.specs.StepsValue.{StepsValue};

    ghost Value = { StepsValue };

    ghost view = { λ s. record { base = s.base; items = s.set.keys; choices = s.choices.items; assumed = s.assumed.items } };
}

impl Steps {
    ghost use Rattle.net_steps.specs.Operations.{IsStep};
    ghost use Rattle.std.specs.Prelude.{◌≡◌, true, [], ◌∷◌, ◌++◌, length, IfOk, IfSome};
    ghost use Rattle.net_steps.specs.Steps.{AddsChoice, Defines, IsConstant, IsBit};

    /// No steps, and nothing is assumed.
    pub fn new(alloc: Global, base: usize) -> Steps
        ensures { result ≡ record { base = base; items = []; choices = []; assumed = [] } }
    {
        Steps {
            base,
            set: IndexSet::new(alloc),
            choices: Vec::new(alloc),
            assumed: Vec::new(alloc),
        }
    }

    /// From now on the steps are for those rows in which this holds too.
    pub fn assume(&mut self, equality: Equality) -> Result<(), Memory>
        ensures { IfOk result (λ _. self.new ≡ record self.old { assumed = self.old.assumed ++ equality ∷ [] }) }
    {
        self.assumed.push(equality)?;
        Ok(())
    }

    /// What is assumed of each row, in the order in which it was.
    pub fn assumed(&self) -> &[Equality]
        ensures { result.now ≡ self.now.assumed }
    {
        self.assumed.as_slice()
    }

    /// The slot of the step that makes this; it goes last where there is none yet.
    pub fn define(&mut self, operation: Operation) -> Result<u32, Memory>
        ensures { IfOk result (Defines self.old self.new operation) }
    {
        let place = u32::MAX as usize;
        if self.base >= place || self.set.len() >= place - self.base {
            return Err(Memory);
        }
        let (index, _) = self.set.insert_full(operation)?;
        Ok((self.base + index) as u32)
    }

    /// Adds a choice, last.
    pub fn add_choice(&mut self, choice: Choice) -> Result<(), Memory>
        ensures { IfOk result (λ _. AddsChoice self.old self.new choice) }
    {
        self.choices.push(choice)?;
        Ok(())
    }

    /// The number of choices.
    pub fn choice_count(&self) -> Result<u32, Memory>
        ensures { IfOk result (λ count. count ≡ length self.now.choices) }
    {
        if self.choices.len() > u32::MAX as usize {
            return Err(Memory);
        }
        Ok(self.choices.len() as u32)
    }

    /// What is made in this slot, if it is a step's.
    pub fn operation(&self, slot: u32) -> Option<Operation>
        ensures { IfSome result (IsStep self.now.base self.now.items slot) }
    {
        let slot = slot as usize;
        if slot < self.base {
            return None;
        }
        self.set.as_slice().get(slot - self.base).copied()
    }

    /// The number that is in the slot in each row, if it is assumed or what is made in it tells it.
    pub fn number(&self, slot: u32) -> Option<u64>
        ensures { IfSome result (IsConstant self.now slot) }
    {
        match self.assumed_number(slot) {
            Some(number) => Some(number),
            None => self.made_number(slot),
        }
    }

    /// The same by what is assumed alone.
    fn assumed_number(&self, slot: u32) -> Option<u64>
        ensures { IfSome result (IsConstant self.now slot) }
    {
        for equality in &self.assumed {
            if equality.slot == slot {
                return Some(equality.number);
            }
        }
        None
    }

    /// The same by what is made in it alone.
    fn made_number(&self, slot: u32) -> Option<u64>
        ensures { IfSome result (IsConstant self.now slot) }
    {
        match self.operation(slot) {
            Some(Operation::Constant(number)) => Some(number),
            _ => None,
        }
    }

    /// Whether this number is in the slot in each row, by what is known of it.
    pub fn is_constant(&self, slot: u32, number: u64) -> bool
        ensures { result ≡ true → IsConstant self.now slot number }
    {
        match self.number(slot) {
            Some(there) => there == number,
            None => false,
        }
    }

    /// Whether the slot is 0 or 1 in each row, by what is made in it.
    pub fn is_bit(&self, slot: u32) -> bool
        ensures { result ≡ true → IsBit self.now slot }
    {
        match self.operation(slot) {
            Some(Operation::Both { .. }) => true,
            Some(Operation::Either { .. }) => true,
            Some(Operation::ButNot { .. }) => true,
            Some(Operation::Equal { .. }) => true,
            Some(Operation::Less { .. }) => true,
            _ => false,
        }
    }

    /// The steps, in the order of their slots.
    pub fn operations(&self) -> &[Operation]
        ensures { result.now ≡ self.now.items }
    {
        self.set.as_slice()
    }

    /// The choices, in the order in which they were added.
    pub fn choices(&self) -> &[Choice]
        ensures { result.now ≡ self.now.choices }
    {
        self.choices.as_slice()
    }
}
