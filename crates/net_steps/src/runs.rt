//! A row's steps, cut into runs of one kind.
ghost use Rattle.std.specs.Prelude.{◌≡◌, ◌++◌, ◌≤◌, length, map, take, IfOk, IfSome};
ghost use Rattle.net_steps.specs.Runs.{all_operations, operations_of};

use crate::kinds::{AddStep, BothStep, ButNotStep, ChooseStep, EqualStep, PickStep, Step};
use crate::operation::Operation;
use hw_bits::Memory;
use std::alloc::Global;

/// The least length of a stretch of one kind that is a run of its own.
const LONG: usize = 8;

/// Steps of one kind, one after another; the others are in runs of mixed ones.
#[derive(Drop)]
pub enum Run {
    Choose(Vec<ChooseStep>),
    Pick(Vec<PickStep>),
    Both(Vec<BothStep>),
    ButNot(Vec<ButNotStep>),
    Equal(Vec<EqualStep>),
    Add(Vec<AddStep>),
    Mixed(Vec<Operation>),
}

/// The number of its steps.
pub fn count(run: &Run) -> usize
    ensures { result ≡ length (operations_of run.now) }
{
    match run {
        Run::Choose(steps) => steps.len(),
        Run::Pick(steps) => steps.len(),
        Run::Both(steps) => steps.len(),
        Run::ButNot(steps) => steps.len(),
        Run::Equal(steps) => steps.len(),
        Run::Add(steps) => steps.len(),
        Run::Mixed(steps) => steps.len(),
    }
}

/// The number of the steps of all runs.
pub fn step_count(runs: &[Run]) -> Result<usize, Memory>
    ensures { IfOk result (λ number. number ≡ length (all_operations runs.now)) }
{
    let mut number = 0usize;
    for run in runs {
        number = number.checked_add(count(run)).ok_or(Memory)?;
    }
    Ok(number)
}

/// The steps in runs, in their order.
pub fn cut(alloc: Global, steps: &[Operation]) -> Result<Vec<Run>, Memory>
    ensures { IfOk result (λ runs. all_operations runs.items ≡ steps.now) }
{
    let mut runs = Vec::new(alloc);
    let mut done = 0;
    for number in 0..steps.len() {
        if number >= done
            && let Some(run) = long_run(alloc, &steps[number..])?
        {
            push_mixed(alloc, &mut runs, &steps[done..number])?;
            done = number + count(&run);
            runs.push(run)?;
        }
    }
    push_mixed(alloc, &mut runs, &steps[done..])?;
    Ok(runs)
}

/// Adds a run of mixed steps, where there are any.
fn push_mixed(alloc: Global, runs: &mut Vec<Run>, steps: &[Operation]) -> Result<(), Memory>
    ensures { IfOk result (λ _. all_operations runs.new.items ≡ all_operations runs.old.items ++ steps.now) }
{
    if !steps.is_empty() {
        runs.push(Run::Mixed(steps.to_vec(alloc)?))?;
    }
    Ok(())
}

/// The steps at the front that are of one kind, where they are many.
fn long_run(alloc: Global, steps: &[Operation]) -> Result<Option<Run>, Memory>
    ensures { IfOk result (λ found. IfSome found (λ run. operations_of run ≡ take (length (operations_of run)) steps.now)) }
{
    let Some(first) = steps.first() else {
        return Ok(None);
    };
    let kind = kind_of(first);
    if kind == Kind::Mixed {
        return Ok(None);
    }
    let count = leading(steps, kind);
    if count < LONG {
        return Ok(None);
    }
    run_of(alloc, kind, &steps[..count])
}

/// The number of steps at the front that are of this kind.
fn leading(steps: &[Operation], kind: Kind) -> usize
    ensures { result ≤ length steps.now }
{
    for (number, step) in steps.iter().enumerate() {
        if kind_of(step) != kind {
            return number;
        }
    }
    steps.len()
}

/// A run of these steps, where each is of this kind.
fn run_of(alloc: Global, kind: Kind, steps: &[Operation]) -> Result<Option<Run>, Memory>
    ensures { IfOk result (λ found. IfSome found (λ run. operations_of run ≡ steps.now)) }
{
    match kind {
        Kind::Choose => Ok(gather(alloc, steps)?.map(Run::Choose)),
        Kind::Pick => Ok(gather(alloc, steps)?.map(Run::Pick)),
        Kind::Both => Ok(gather(alloc, steps)?.map(Run::Both)),
        Kind::ButNot => Ok(gather(alloc, steps)?.map(Run::ButNot)),
        Kind::Equal => Ok(gather(alloc, steps)?.map(Run::Equal)),
        Kind::Add => Ok(gather(alloc, steps)?.map(Run::Add)),
        Kind::Mixed => Ok(None),
    }
}

/// The steps without their kind, where each is of this one.
fn gather<S: Step>(alloc: Global, steps: &[Operation]) -> Result<Option<Vec<S>>, Memory>
    ensures { IfOk result (λ found. IfSome found (λ gathered. map S.meaning gathered.items ≡ steps.now)) }
{
    let mut gathered = Vec::new(alloc);
    for step in steps {
        match S::of(step) {
            Some(one) => gathered.push(one)?,
            None => return Ok(None),
        }
    }
    Ok(Some(gathered))
}

/// The kinds that make runs of their own.
#[derive(Clone, Copy, PartialEq, Eq)]
enum Kind {
    Choose,
    Pick,
    Both,
    ButNot,
    Equal,
    Add,
    Mixed,
}

/// The kind of a step.
fn kind_of(step: &Operation) -> Kind {
    match step {
        Operation::Choose { .. } => Kind::Choose,
        Operation::Pick { .. } => Kind::Pick,
        Operation::Both { .. } => Kind::Both,
        Operation::ButNot { .. } => Kind::ButNot,
        Operation::Equal { .. } => Kind::Equal,
        Operation::Add { .. } => Kind::Add,
        _ => Kind::Mixed,
    }
}
