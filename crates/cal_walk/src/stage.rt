//! How far the control of an instance has come.
ghost use Rattle.std.specs.Prelude.{◌≡◌, ℕ, length, IfOk};
ghost use Rattle.cal_ast.specs.Actors.{Actor};
ghost use Rattle.cal_ast.specs.Tree.{PortName};
ghost use Rattle.cal_walk.specs.Left.{Sight};
ghost use Rattle.cal_walk.specs.Marking.{AddsWanted, HaveOwnMarks, KeepsSizes};
ghost use Rattle.cal_walk.specs.StageTrees.{progress_tree, StageIsWithin};
ghost use Rattle.cal_walk.specs.Stages.{progress_of, next_progress, is_running_now, is_done_now, enabled_now, tested_now};
ghost use Rattle.cal_walk.specs.Trees.{plan_tree, left_tree, IsSeen, IsWithin, LeftIsWithin};

use crate::left::{Left, after_row, after_start, left_over};
use crate::marks::{Marks, mark_left, mark_start};
use crate::plan::Plan;
use crate::seen::Seen;
use hw_bits::Memory;
use std::alloc::Global;

/// How far the control of an instance has come before a row.
#[derive(Drop)]
pub enum Stage<'a> {
    /// It starts in the next row with go.
    Waiting,
    /// This is left of it.
    Running(Left<'a>),
    /// The row is its done row.
    Finished,
}

/// The stage after a row in which this is left, or else the done row.
fn stage_of(left: Left<'_>) -> Stage<'_>
    ensures progress { (f : ℕ → Actor) (h : ℕ → PortName) → progress_tree f h result ≡ progress_of (left_tree f h left.entry) }
    ensures within { (actors conditions : ℕ) → LeftIsWithin actors conditions left.entry → StageIsWithin actors conditions result }
{
    if left_over(&left) {
        Stage::Finished
    } else {
        Stage::Running(left)
    }
}

impl<'a> Stage<'a> {
    /// The stage after one more row, in which this was seen.
    pub fn next(
        &self,
        alloc: Global,
        plan: &'a Plan,
        go: bool,
        seen: &Seen,
    ) -> Result<Stage<'a>, Memory>
        requires plan { IsWithin (length seen.now.done.items) (length seen.now.reads.items) plan.now }
        requires stage { StageIsWithin (length seen.now.done.items) (length seen.now.reads.items) self.now }
        ensures progress { (f : ℕ → Actor) (h : ℕ → PortName) (s : Sight) → IsSeen f h s seen.now
            → IfOk result (λ next. progress_tree f h next ≡ next_progress (plan_tree f h plan.now) s go (progress_tree f h self.now)) }
        ensures within { IfOk result (StageIsWithin (length seen.now.done.items) (length seen.now.reads.items)) }
    {
        match self {
            Stage::Waiting => {
                if go {
                    Ok(stage_of(after_start(alloc, plan, seen)?))
                } else {
                    Ok(Stage::Waiting)
                }
            }
            Stage::Running(left) => Ok(stage_of(after_row(alloc, left, seen)?)),
            Stage::Finished => Ok(Stage::Waiting),
        }
    }

    /// Whether control runs, whatever go is.
    pub fn is_running(&self) -> bool
        ensures { (f : ℕ → Actor) (h : ℕ → PortName) → result ≡ is_running_now (progress_tree f h self.now) }
    {
        matches!(self, Stage::Running(_))
    }

    /// Whether the row is a done row.
    pub fn is_finished(&self) -> bool
        ensures { (f : ℕ → Actor) (h : ℕ → PortName) → result ≡ is_done_now (progress_tree f h self.now) }
    {
        matches!(self, Stage::Finished)
    }

    /// Marks what control wants in the row, where it waits: if it starts.
    pub fn mark(&self, plan: &Plan, marks: &mut Marks)
        requires sized { length marks.old.tested.items ≡ length marks.old.enabled.items }
        requires plan { (conditions : ℕ) × IsWithin (length marks.old.enabled.items) conditions plan.now }
        requires stage { (conditions : ℕ) × StageIsWithin (length marks.old.enabled.items) conditions self.now }
        ensures sized { KeepsSizes marks.old marks.new }
        ensures marks { (f : ℕ → Actor) (h : ℕ → PortName) → HaveOwnMarks f (length marks.old.enabled.items)
            → AddsWanted f (enabled_now (plan_tree f h plan.now) (progress_tree f h self.now)) (tested_now (plan_tree f h plan.now) (progress_tree f h self.now)) marks.old marks.new }
    {
        match self {
            Stage::Waiting => mark_start(plan, marks),
            Stage::Running(left) => mark_left(left, marks),
            Stage::Finished => {}
        }
    }
}
