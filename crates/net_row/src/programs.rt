//! The programs of a netlist: one for any row, and one for each number that many guards ask a slot for.
ghost use Rattle.std.specs.Prelude.{◌≡◌, ℕ, ◌+◌, ◌<◌, true, [], ◌∷◌, ◌++◌, length, slice_index, IfOk};
ghost use Rattle.net_steps.specs.Operations.{AreMade};
ghost use Rattle.net_steps.specs.Others.{AreCounted, AreNarrow};
ghost use Rattle.net_steps.specs.Runs.{all_operations};
ghost use Rattle.net_steps.specs.Steps.{IsAssumed};
ghost use Rattle.net_row.specs.Program.{steps_in};
ghost use Rattle.net_row.specs.Programs.{AreFit, IsFit, IsRunOf, IsSound, program_at};

use crate::guess::Guess;
use crate::program::Program;
use net_steps::{Equality, Other, ProgramEnd, Run, are_below, run_all, step_count};
use std::alloc::Global;

/// The programs of a netlist.
#[derive(Drop)]
pub struct Programs {
    /// The one for any row.
    pub general: Program,
    /// Each for the rows in which what it assumes holds.
    pub cases: Vec<Program>,
    /// The steps up to the slots by which a case is guessed.
    pub opening: Vec<Run>,
    /// How the place of a case is guessed: the first that finds one tells it.
    pub guesses: Vec<Guess>,
    /// The number of slots that there have to be.
    pub room: usize,
}

impl Programs {
    /// The case with this place, or the general one.
    #[inline(always)]
    pub fn at(&self, place: usize) -> &Program
        ensures { result.now ≡ program_at self.now place }
    {
        match self.cases.as_slice().get(place) {
            Some(program) => program,
            None => &self.general,
        }
    }

    /// Makes the steps of a row in its slots, from the first step's on, at `base`, and tells by which program.
    pub fn run(&self, base: usize, others: &[Other], slots: &mut [u64]) -> usize
        requires room { self.now.room ≡ length slots.old }
        requires fit { AreFit base others.now self.now }
        requires others { AreNarrow others.now }
        ensures opening { (k : ℕ) → k < base → slice_index slots.new k ≡ slice_index slots.old k }
        ensures made { IsRunOf base (program_at self.now result) others.now slots.new }
    {
        let place = self.guess(base, others, slots);
        if self.run_case(place, base, others, slots) {
            return place;
        }
        run_program(&self.general, base, others, slots);
        self.cases.len()
    }

    /// The place of the case that may be for the row, by the slots of the opening; past the last where there is none.
    fn guess(&self, base: usize, others: &[Other], slots: &mut [u64]) -> usize
        requires room { self.now.room ≡ length slots.old }
        requires fit { AreFit base others.now self.now }
        requires others { AreNarrow others.now }
        ensures { (k : ℕ) → k < base → slice_index slots.new k ≡ slice_index slots.old k }
    {
        run_all(self.opening.as_slice(), base, others, &[], slots);
        self.guessed(slots)
    }

    /// The place of the case that the slots of the opening tell; past the last where they tell none.
    fn guessed(&self, slots: &[u64]) -> usize {
        for guess in &self.guesses {
            if let Some(place) = guess.case(slots) {
                return place;
            }
        }
        self.cases.len()
    }

    /// Makes the steps of a case, and tells whether the row is one that it is for.
    fn run_case(&self, place: usize, base: usize, others: &[Other], slots: &mut [u64]) -> bool
        requires room { self.now.room ≡ length slots.old }
        requires fit { AreFit base others.now self.now }
        requires others { AreNarrow others.now }
        ensures opening { (k : ℕ) → k < base → slice_index slots.new k ≡ slice_index slots.old k }
        ensures made { result ≡ true → IsRunOf base (program_at self.now place) others.now slots.new }
    {
        let Some(program) = self.cases.as_slice().get(place) else {
            return false;
        };
        run_program(program, base, others, slots);
        holds(program.assumed.as_slice(), slots)
    }

    /// Guesses so from now on, where the opening is sound.
    pub fn guess_by(
        &mut self,
        opening: Vec<Run>,
        guesses: Vec<Guess>,
        base: usize,
        others: &[Other],
    ) -> Result<(), ProgramEnd>
        requires fit { AreFit base others.now self.old }
        requires counted { AreCounted others.now }
        ensures general { IfOk result (λ _. self.new.general ≡ self.old.general) }
        ensures cases { IfOk result (λ _. self.new.cases.items ≡ self.old.cases.items) }
        ensures fit { IfOk result (λ _. AreFit base others.now self.new) }
    {
        let room = room_of(base, opening.as_slice())?;
        if !are_below(opening.as_slice(), base, others, &[]) {
            return Err(ProgramEnd::Unfit);
        }
        self.opening = opening;
        self.guesses = guesses;
        self.room = self.room.max(room);
        Ok(())
    }

    /// Adds a case, last, where it is sound.
    pub fn add(&mut self, program: Program, base: usize, others: &[Other]) -> Result<(), ProgramEnd>
        requires fit { AreFit base others.now self.old }
        requires counted { AreCounted others.now }
        ensures general { IfOk result (λ _. self.new.general ≡ self.old.general) }
        ensures cases { IfOk result (λ _. self.new.cases.items ≡ self.old.cases.items ++ program ∷ []) }
        ensures fit { IfOk result (λ _. AreFit base others.now self.new) }
    {
        let room = room_of(base, program.runs.as_slice())?;
        if !is_sound(base, room, &program, others) {
            return Err(ProgramEnd::Unfit);
        }
        self.cases.push(program)?;
        self.room = self.room.max(room);
        Ok(())
    }
}

/// Makes the steps of a program.
fn run_program(program: &Program, base: usize, others: &[Other], slots: &mut [u64])
    requires fit { IsFit base (length slots.old) others.now program.now }
    requires others { AreNarrow others.now }
    ensures opening { (k : ℕ) → k < base → slice_index slots.new k ≡ slice_index slots.old k }
    ensures made { AreMade others.now program.now.choices.items base (steps_in program.now) slots.new }
{
    run_all(
        program.runs.as_slice(),
        base,
        others,
        program.choices.as_slice(),
        slots,
    );
}

/// Whether what is assumed of a row holds in it.
fn holds(assumed: &[Equality], slots: &[u64]) -> bool
    ensures { result ≡ true → IsAssumed slots.now assumed.now }
{
    assumed.iter().all(|equality| is_equal(equality, slots))
}

/// Whether the slot has the number.
fn is_equal(equality: &Equality, slots: &[u64]) -> bool
    ensures { result ≡ true → slice_index slots.now equality.now.slot ≡ equality.now.number }
{
    match slots.get(equality.slot as usize) {
        Some(number) => *number == equality.number,
        None => false,
    }
}

/// The general program alone, where it is sound. The first step has the slot `base`.
pub fn alone(
    alloc: Global,
    general: Program,
    base: usize,
    others: &[Other],
) -> Result<Programs, ProgramEnd>
    requires { AreCounted others.now }
    ensures general { IfOk result (λ programs. programs.general ≡ general) }
    ensures cases { IfOk result (λ programs. programs.cases.items ≡ []) }
    ensures fit { IfOk result (AreFit base others.now) }
{
    let room = room_of(base, general.runs.as_slice())?;
    if !general.assumed.is_empty() || !is_sound(base, room, &general, others) {
        return Err(ProgramEnd::Unfit);
    }
    Ok(Programs {
        general,
        cases: Vec::new(alloc),
        opening: Vec::new(alloc),
        guesses: Vec::new(alloc),
        room,
    })
}

/// How many slots there are with those of the steps, of which the first has the slot `base`.
fn room_of(base: usize, runs: &[Run]) -> Result<usize, ProgramEnd>
    ensures { IfOk result (λ room. room ≡ base + length (all_operations runs.now)) }
{
    let count = step_count(runs)?;
    match base.checked_add(count) {
        Some(room) => Ok(room),
        None => Err(ProgramEnd::Memory),
    }
}

/// Whether each slot that is named is one of `count`, and each operand of a step lies below it. The first step has the slot `base`.
fn is_sound(base: usize, count: usize, program: &Program, others: &[Other]) -> bool
    requires count { count ≡ base + length (steps_in program.now) }
    requires counted { AreCounted others.now }
    ensures { result ≡ true → IsSound base program.now others.now }
{
    let within = |slot: &u32| (*slot as usize) < count;
    are_below(
        program.runs.as_slice(),
        base,
        others,
        program.choices.as_slice(),
    ) && program.ports.iter().all(within)
        && program.next.iter().all(within)
        && program
            .clashes
            .iter()
            .all(|clash| within(&clash.first) && within(&clash.second))
        && program
            .places
            .iter()
            .all(|inputs| inputs.iter().all(within))
}
