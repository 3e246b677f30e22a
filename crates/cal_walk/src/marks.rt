//! Which actors control wants in a row.
ghost use Rattle.std.specs.Prelude.{◌≡◌, ◌<◌, ℕ, length, map, All, IfSome, option_map};
ghost use Rattle.cal_ast.specs.Actors.{Actor, same_actor};
ghost use Rattle.cal_ast.specs.Plan.{AtOnce, InTurn};
ghost use Rattle.cal_ast.specs.Tree.{PortName};
ghost use Rattle.cal_walk.specs.Left.{enables, tests, is_by};
ghost use Rattle.cal_walk.specs.Marking.{AddsMarks, AddsWanted, HaveOwnMarks, KeepsSizes};
ghost use Rattle.cal_walk.specs.Trees.{plan_tree, left_tree, slice_trees, plans_of, IsWithin, LeftIsWithin};

use crate::left::{Left, left_over};
use crate::plan::{Plan, first_lasting};

/// Marks for the actors of an instance, by their numbers.
#[derive(Drop)]
pub struct Marks {
    /// It is enabled, so it acts unless it is done.
    pub enabled: Vec<bool>,
    /// It acts in the row of a test.
    pub tested: Vec<bool>,
}

/// Marks what is wanted in a row before which this is left.
#[cycle(mark_left)]
pub fn mark_left(left: &Left, marks: &mut Marks)
    requires sized { length marks.old.tested.items ≡ length marks.old.enabled.items }
    requires within { (conditions : ℕ) × LeftIsWithin (length marks.old.enabled.items) conditions left.now }
    ensures sized { KeepsSizes marks.old marks.new }
    ensures marks { (f : ℕ → Actor) (h : ℕ → PortName) → HaveOwnMarks f (length marks.old.enabled.items)
        → AddsWanted f (enables (left_tree f h left.now)) (tests (left_tree f h left.now)) marks.old marks.new }
{
    match left {
        Left::Nothing => {}
        Left::Whole(plan) => mark_start(plan, marks),
        Left::InTurn { first, others } => {
            if left_over(first) {
                mark_first(others, marks);
            } else {
                mark_left(first, marks);
            }
        }
        Left::AtOnce(all) => mark_all(all, marks),
        Left::Again { turn, repeats } => {
            if left_over(turn) {
                mark_start(repeats, marks);
            } else {
                mark_left(turn, marks);
            }
        }
    }
}

/// Marks what each wants.
#[cycle(mark_left)]
fn mark_all(all: &[Left], marks: &mut Marks)
    requires sized { length marks.old.tested.items ≡ length marks.old.enabled.items }
    requires within { (conditions : ℕ) × All (LeftIsWithin (length marks.old.enabled.items) conditions) all.now }
    ensures sized { KeepsSizes marks.old marks.new }
    ensures marks { (f : ℕ → Actor) (h : ℕ → PortName) → HaveOwnMarks f (length marks.old.enabled.items)
        → AddsWanted f (enables (AtOnce (plans_of (map (left_tree f h) all.now)))) (tests (AtOnce (plans_of (map (left_tree f h) all.now)))) marks.old marks.new }
{
    for left in all {
        mark_left(left, marks);
    }
}

/// Marks what a plan wants in the row in which it starts.
#[cycle(mark_start)]
pub fn mark_start(plan: &Plan, marks: &mut Marks)
    requires sized { length marks.old.tested.items ≡ length marks.old.enabled.items }
    requires within { (conditions : ℕ) × IsWithin (length marks.old.enabled.items) conditions plan.now }
    ensures sized { KeepsSizes marks.old marks.new }
    ensures marks { (f : ℕ → Actor) (h : ℕ → PortName) → HaveOwnMarks f (length marks.old.enabled.items)
        → AddsWanted f (enables (plan_tree f h plan.now)) (tests (plan_tree f h plan.now)) marks.old marks.new }
{
    match plan {
        Plan::Enables(actor) => mark_enabled(*actor, marks),
        Plan::InTurn(plans) => mark_first(plans, marks),
        Plan::AtOnce(plans) => mark_each_start(plans, marks),
        Plan::Chooses { by, .. } => mark_tested(*by, marks),
        Plan::Repeats { by, .. } => mark_tested(*by, marks),
    }
}

/// Marks what the first of plans that takes a row wants.
#[cycle(mark_start)]
fn mark_first(plans: &[Plan], marks: &mut Marks)
    requires sized { length marks.old.tested.items ≡ length marks.old.enabled.items }
    requires within { (conditions : ℕ) × All (IsWithin (length marks.old.enabled.items) conditions) plans.now }
    ensures sized { KeepsSizes marks.old marks.new }
    ensures marks { (f : ℕ → Actor) (h : ℕ → PortName) → HaveOwnMarks f (length marks.old.enabled.items)
        → AddsWanted f (enables (InTurn (slice_trees f h plans.now))) (tests (InTurn (slice_trees f h plans.now))) marks.old marks.new }
{
    let number = first_lasting(plans);
    if number < plans.len() {
        mark_start(&plans[number], marks);
    }
}

/// Marks what each of plans wants in the row in which they start.
#[cycle(mark_start)]
fn mark_each_start(plans: &[Plan], marks: &mut Marks)
    requires sized { length marks.old.tested.items ≡ length marks.old.enabled.items }
    requires within { (conditions : ℕ) × All (IsWithin (length marks.old.enabled.items) conditions) plans.now }
    ensures sized { KeepsSizes marks.old marks.new }
    ensures marks { (f : ℕ → Actor) (h : ℕ → PortName) → HaveOwnMarks f (length marks.old.enabled.items)
        → AddsWanted f (enables (AtOnce (slice_trees f h plans.now))) (tests (AtOnce (slice_trees f h plans.now))) marks.old marks.new }
{
    for plan in plans {
        mark_start(plan, marks);
    }
}

/// Marks an actor that is enabled.
fn mark_enabled(actor: usize, marks: &mut Marks)
    requires { actor < length marks.old.enabled.items }
    ensures sized { KeepsSizes marks.old marks.new }
    ensures enabled { (f : ℕ → Actor) → HaveOwnMarks f (length marks.old.enabled.items)
        → AddsMarks f (λ other. same_actor (f actor) other) marks.old.enabled.items marks.new.enabled.items }
    ensures tested { marks.new.tested.items ≡ marks.old.tested.items }
{
    marks.enabled[actor] = true;
}

/// Marks the actor of a condition, if it has one.
fn mark_tested(by: Option<usize>, marks: &mut Marks)
    requires { IfSome by (λ actor. actor < length marks.old.tested.items) }
    ensures sized { KeepsSizes marks.old marks.new }
    ensures enabled { marks.new.enabled.items ≡ marks.old.enabled.items }
    ensures tested { (f : ℕ → Actor) → HaveOwnMarks f (length marks.old.tested.items)
        → AddsMarks f (is_by (option_map f by)) marks.old.tested.items marks.new.tested.items }
{
    if let Some(actor) = by {
        marks.tested[actor] = true;
    }
}
