//! A row of a program.
ghost use Rattle.std.specs.Prelude.{◌≡◌, ℕ, ◌+◌, ◌<◌, ◌≤◌, ◌^◌, true, length, map, slice_index};
ghost use Rattle.net_steps.specs.Operations.{AreMade, AreBelow};
ghost use Rattle.net_steps.specs.Others.{AreNarrow, AreCounted};
ghost use Rattle.net_steps.specs.Runs.{all_operations, operations_of};

use crate::choice::Choice;
use crate::kinds::Step;
use crate::other::Other;
use crate::runs::{Run, count};

/// Makes each step of each run in its slot; the first has the slot `base`.
pub fn run_all(runs: &[Run], base: usize, others: &[Other], choices: &[Choice], slots: &mut [u64])
    requires room { base + length (all_operations runs.now) ≤ length slots.old }
    requires below { AreBelow others.now choices.now base (all_operations runs.now) }
    requires others { AreNarrow others.now }
    ensures opening { (k : ℕ) → k < base → slice_index slots.new k ≡ slice_index slots.old k }
    ensures made { AreMade others.now choices.now base (all_operations runs.now) slots.new }
{
    let mut first = base;
    for run in runs {
        make_run(run, first, others, choices, slots);
        first += count(run);
    }
}

/// Makes each step of a run in its slot; the first has the slot `base`.
fn make_run(run: &Run, base: usize, others: &[Other], choices: &[Choice], slots: &mut [u64])
    requires room { base + length (operations_of run.now) ≤ length slots.old }
    requires below { AreBelow others.now choices.now base (operations_of run.now) }
    requires others { AreNarrow others.now }
    ensures opening { (k : ℕ) → k < base → slice_index slots.new k ≡ slice_index slots.old k }
    ensures made { AreMade others.now choices.now base (operations_of run.now) slots.new }
{
    match run {
        Run::Choose(steps) => make(steps.as_slice(), base, others, choices, slots),
        Run::Pick(steps) => make(steps.as_slice(), base, others, choices, slots),
        Run::Both(steps) => make(steps.as_slice(), base, others, choices, slots),
        Run::ButNot(steps) => make(steps.as_slice(), base, others, choices, slots),
        Run::Equal(steps) => make(steps.as_slice(), base, others, choices, slots),
        Run::Add(steps) => make(steps.as_slice(), base, others, choices, slots),
        Run::Mixed(steps) => make(steps.as_slice(), base, others, choices, slots),
    }
}

/// Makes each step in its slot; the first has the slot `base`.
fn make<S: Step>(steps: &[S], base: usize, others: &[Other], choices: &[Choice], slots: &mut [u64])
    requires room { base + length steps.now ≤ length slots.old }
    requires below { AreBelow others.now choices.now base (map S.meaning steps.now) }
    requires others { AreNarrow others.now }
    ensures opening { (k : ℕ) → k < base → slice_index slots.new k ≡ slice_index slots.old k }
    ensures made { AreMade others.now choices.now base (map S.meaning steps.now) slots.new }
{
    for (number, step) in steps.iter().enumerate() {
        let value = step.operation().result(slots, others, choices);
        slots[base + number] = value;
    }
}

/// Whether each operand of each step lies below the step's slot; the first has the slot `base`.
pub fn are_below(runs: &[Run], base: usize, others: &[Other], choices: &[Choice]) -> bool
    requires counted { AreCounted others.now }
    requires room { base + length (all_operations runs.now) < 2 ^ 64 }
    ensures { result ≡ true → AreBelow others.now choices.now base (all_operations runs.now) }
{
    let mut first = base;
    for run in runs {
        if !is_run_below(run, first, others, choices) {
            return false;
        }
        first += count(run);
    }
    true
}

/// The same of the steps of a run.
fn is_run_below(run: &Run, base: usize, others: &[Other], choices: &[Choice]) -> bool
    requires counted { AreCounted others.now }
    requires room { base + length (operations_of run.now) < 2 ^ 64 }
    ensures { result ≡ true → AreBelow others.now choices.now base (operations_of run.now) }
{
    match run {
        Run::Choose(steps) => is_part_below(steps.as_slice(), base, others, choices),
        Run::Pick(steps) => is_part_below(steps.as_slice(), base, others, choices),
        Run::Both(steps) => is_part_below(steps.as_slice(), base, others, choices),
        Run::ButNot(steps) => is_part_below(steps.as_slice(), base, others, choices),
        Run::Equal(steps) => is_part_below(steps.as_slice(), base, others, choices),
        Run::Add(steps) => is_part_below(steps.as_slice(), base, others, choices),
        Run::Mixed(steps) => is_part_below(steps.as_slice(), base, others, choices),
    }
}

/// The same of steps of one kind.
fn is_part_below<S: Step>(steps: &[S], base: usize, others: &[Other], choices: &[Choice]) -> bool
    requires counted { AreCounted others.now }
    requires room { base + length steps.now < 2 ^ 64 }
    ensures { result ≡ true → AreBelow others.now choices.now base (map S.meaning steps.now) }
{
    for (number, step) in steps.iter().enumerate() {
        if !step.operation().is_below(base + number, others, choices) {
            return false;
        }
    }
    true
}
