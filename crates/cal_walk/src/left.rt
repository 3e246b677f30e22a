//! What is left of a plan as rows go by.
ghost use Rattle.std.specs.Prelude.{◌≡◌, ℕ, [], ◌∷◌, length, map, All, IfOk};
ghost use Rattle.cal_ast.specs.Actors.{Actor};
ghost use Rattle.cal_ast.specs.Tree.{PortName};
ghost use Rattle.cal_walk.specs.Left.{Sight, is_over, are_over, left, left_in_turn, left_at_once, before_others};
ghost use Rattle.cal_walk.specs.Trees.{plan_tree, left_tree, slice_trees, plans_of, IsSeen, IsWithin, LeftIsWithin};

use crate::plan::{Plan, are_over, first_lasting, is_over};
use crate::seen::Seen;
use hw_bits::Memory;
use std::alloc::Global;

/// What is left of a plan before a row.
#[derive(Drop)]
pub enum Left<'a> {
    Nothing,
    /// A plan that starts in this row, or an enabled actor that isn't done.
    Whole(&'a Plan),
    /// What is left of a plan, and the plans after it.
    InTurn {
        first: Box<Left<'a>>,
        others: &'a [Plan],
    },
    AtOnce(Vec<Left<'a>>),
    /// What is left of a turn of a loop, and the loop.
    Again {
        turn: Box<Left<'a>>,
        repeats: &'a Plan,
    },
}

/// Whether nothing is left that takes a row.
#[cycle(left_over)]
pub fn left_over(left: &Left) -> bool
    ensures { (f : ℕ → Actor) (h : ℕ → PortName) → result ≡ is_over (left_tree f h left.now) }
{
    match left {
        Left::Nothing => true,
        Left::Whole(plan) => is_over(plan),
        Left::InTurn { first, others } => left_over(first) && are_over(others),
        Left::AtOnce(all) => all_over(all),
        Left::Again { turn, repeats } => left_over(turn) && is_over(repeats),
    }
}

/// Whether of none anything is left that takes a row.
#[cycle(left_over)]
fn all_over(all: &[Left]) -> bool
    ensures { (f : ℕ → Actor) (h : ℕ → PortName) → result ≡ are_over (plans_of (map (left_tree f h) all.now)) }
{
    for left in all {
        if !left_over(left) {
            return false;
        }
    }
    true
}

/// What is left where plans follow, if any do.
fn before_others<'a>(alloc: Global, first: Left<'a>, others: &'a [Plan]) -> Result<Left<'a>, Memory>
    ensures tree { (f : ℕ → Actor) (h : ℕ → PortName)
        → IfOk result (λ all. left_tree f h all ≡ before_others (left_tree f h first.entry) (slice_trees f h others.now)) }
    ensures within { (actors conditions : ℕ) → LeftIsWithin actors conditions first.entry → All (IsWithin actors conditions) others.now
        → IfOk result (LeftIsWithin actors conditions) }
{
    if others.is_empty() {
        return Ok(first);
    }
    let first = Box::new(alloc, first)?;
    Ok(Left::InTurn { first, others })
}

/// What is left of a plan after the row in which it starts.
#[cycle(after_start)]
pub fn after_start<'a>(alloc: Global, plan: &'a Plan, seen: &Seen) -> Result<Left<'a>, Memory>
    requires { IsWithin (length seen.now.done.items) (length seen.now.reads.items) plan.now }
    ensures tree { (f : ℕ → Actor) (h : ℕ → PortName) (s : Sight) → IsSeen f h s seen.now
        → IfOk result (λ rest. left_tree f h rest ≡ left s (plan_tree f h plan.now)) }
    ensures within { IfOk result (LeftIsWithin (length seen.now.done.items) (length seen.now.reads.items)) }
{
    match plan {
        Plan::Enables(actor) => {
            if seen.done[*actor] {
                Ok(Left::Nothing)
            } else {
                Ok(Left::Whole(plan))
            }
        }
        Plan::InTurn(plans) => after_first(alloc, plans, seen),
        Plan::AtOnce(plans) => Ok(Left::AtOnce(after_each_start(alloc, plans, seen)?)),
        Plan::Chooses {
            condition,
            on,
            off,
            ..
        } => {
            if seen.reads[*condition] {
                Ok(Left::Whole(on))
            } else {
                Ok(Left::Whole(off))
            }
        }
        Plan::Repeats {
            condition,
            body,
            ..
        } => {
            if !seen.reads[*condition] {
                return Ok(Left::Nothing);
            }
            let turn = Box::new(alloc, Left::Whole(body))?;
            Ok(Left::Again {
                turn,
                repeats: plan,
            })
        }
    }
}

/// What is left of plans in turn after the row in which the first of them starts.
#[cycle(after_start)]
fn after_first<'a>(alloc: Global, plans: &'a [Plan], seen: &Seen) -> Result<Left<'a>, Memory>
    requires { All (IsWithin (length seen.now.done.items) (length seen.now.reads.items)) plans.now }
    ensures tree { (f : ℕ → Actor) (h : ℕ → PortName) (s : Sight) → IsSeen f h s seen.now
        → IfOk result (λ rest. left_tree f h rest ≡ left_in_turn s (slice_trees f h plans.now)) }
    ensures within { IfOk result (LeftIsWithin (length seen.now.done.items) (length seen.now.reads.items)) }
{
    let number = first_lasting(plans);
    if number == plans.len() {
        return Ok(Left::Nothing);
    }
    let first = after_start(alloc, &plans[number], seen)?;
    let others = &plans[number + 1..];
    before_others(alloc, first, others)
}

/// What is left of plans at once after the row in which they start.
#[cycle(after_start)]
fn after_each_start<'a>(
    alloc: Global,
    plans: &'a [Plan],
    seen: &Seen,
) -> Result<Vec<Left<'a>>, Memory>
    requires { All (IsWithin (length seen.now.done.items) (length seen.now.reads.items)) plans.now }
    ensures trees { (f : ℕ → Actor) (h : ℕ → PortName) (s : Sight) → IsSeen f h s seen.now
        → IfOk result (λ all. plans_of (map (left_tree f h) all.items) ≡ left_at_once s (slice_trees f h plans.now)) }
    ensures within { IfOk result (λ all. All (LeftIsWithin (length seen.now.done.items) (length seen.now.reads.items)) all.items) }
{
    let mut all = Vec::new(alloc);
    for plan in plans {
        all.push(after_start(alloc, plan, seen)?)?;
    }
    Ok(all)
}

/// What is left after one more row.
#[cycle(after_row)]
pub fn after_row<'a>(alloc: Global, before: &Left<'a>, seen: &Seen) -> Result<Left<'a>, Memory>
    requires { LeftIsWithin (length seen.now.done.items) (length seen.now.reads.items) before.now }
    ensures tree { (f : ℕ → Actor) (h : ℕ → PortName) (s : Sight) → IsSeen f h s seen.now
        → IfOk result (λ rest. left_tree f h rest ≡ left s (left_tree f h before.now)) }
    ensures within { IfOk result (LeftIsWithin (length seen.now.done.items) (length seen.now.reads.items)) }
{
    match before {
        Left::Nothing => Ok(Left::Nothing),
        Left::Whole(plan) => after_start(alloc, plan, seen),
        Left::InTurn { first, others } => {
            if left_over(first) {
                return after_first(alloc, others, seen);
            }
            let first = after_row(alloc, first, seen)?;
            before_others(alloc, first, others)
        }
        Left::AtOnce(all) => Ok(Left::AtOnce(after_each(alloc, all, seen)?)),
        Left::Again { turn, repeats } => {
            if left_over(turn) {
                return after_loop(alloc, repeats, seen);
            }
            let turn = Box::new(alloc, after_row(alloc, turn, seen)?)?;
            Ok(Left::Again { turn, repeats })
        }
    }
}

/// What is left of a plan that comes last, after the row in which it would start.
fn after_loop<'a>(alloc: Global, plan: &'a Plan, seen: &Seen) -> Result<Left<'a>, Memory>
    requires { IsWithin (length seen.now.done.items) (length seen.now.reads.items) plan.now }
    ensures tree { (f : ℕ → Actor) (h : ℕ → PortName) (s : Sight) → IsSeen f h s seen.now
        → IfOk result (λ rest. left_tree f h rest ≡ left_in_turn s (plans_of (plan_tree f h plan.now ∷ []))) }
    ensures within { IfOk result (LeftIsWithin (length seen.now.done.items) (length seen.now.reads.items)) }
{
    if is_over(plan) {
        return Ok(Left::Nothing);
    }
    after_start(alloc, plan, seen)
}

/// What is left of each after one more row.
#[cycle(after_row)]
fn after_each<'a>(alloc: Global, all: &[Left<'a>], seen: &Seen) -> Result<Vec<Left<'a>>, Memory>
    requires { All (LeftIsWithin (length seen.now.done.items) (length seen.now.reads.items)) all.now }
    ensures trees { (f : ℕ → Actor) (h : ℕ → PortName) (s : Sight) → IsSeen f h s seen.now
        → IfOk result (λ next. plans_of (map (left_tree f h) next.items) ≡ left_at_once s (plans_of (map (left_tree f h) all.now))) }
    ensures within { IfOk result (λ next. All (LeftIsWithin (length seen.now.done.items) (length seen.now.reads.items)) next.items) }
{
    let mut next = Vec::new(alloc);
    for left in all {
        next.push(after_row(alloc, left, seen)?)?;
    }
    Ok(next)
}
