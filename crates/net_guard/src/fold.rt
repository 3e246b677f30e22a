//! Guards folded. Only lists make the folding recur, so runs of `!` may be long.
ghost use Rattle.std.specs.Prelude.{◌≡◌, List, map, All, IfOk};
ghost use Rattle.hw_names.specs.Name.{Text, text_of};
ghost use Rattle.net_core.specs.Guard.{GuardTree, Reads, Compares, compare_values, source_tree};
ghost use Rattle.net_core.specs.Numbers.{GuardHasNumbers, SourceHasNumbers};
ghost use Rattle.net_guard.specs.inside.Folding.{FoldsTo, decides, flipped, joint_tree, negated_tree, plain_open, tree_of};

use crate::list::Gathered;
use crate::tops::{Core, Joint, Open};
use hw_bits::Memory;
use hw_names::NameId;
use net_core::{Cmp, Guard, Src};
use std::alloc::Global;

/// What a guard folds to.
#[derive(Drop)]
pub(crate) enum Folded {
    /// It always has this truth.
    Known(bool),
    /// It is true where this guard is.
    Sometimes(Open),
}

impl Folded {
    /// Whether a list with such a guard in it has the guard's truth, whatever the others are.
    fn decides(&self, joint: Joint) -> bool
        ensures { result ≡ decides joint self.now }
    {
        match self {
            Folded::Known(truth) => flipped(*truth, joint.neutral()),
            Folded::Sometimes(_) => false,
        }
    }
}

/// A guard without a `!`.
fn plain(core: Core) -> Folded
    ensures { result ≡ Folded.Sometimes (plain_open core) }
{
    Folded::Sometimes(Open {
        negated: false,
        core,
    })
}

/// A source alone.
fn fold_source(src: Src<NameId>) -> Folded
    ensures { (names : List Text) → SourceHasNumbers names src → FoldsTo names (Reads (source_tree (text_of names) src)) result }
{
    match src {
        Src::Lit { value, .. } => Folded::Known(value == 1),
        Src::Port(_) => plain(Core::Read(src)),
    }
}

/// Whether two numbers compare so.
fn compare(op: Cmp, left: u128, right: u128) -> bool
    ensures { result ≡ compare_values op left right }
{
    match op {
        Cmp::Eq => left == right,
        Cmp::Neq => left != right,
        Cmp::Lt => left < right,
        Cmp::Gt => left > right,
        Cmp::Le => left <= right,
        Cmp::Ge => left >= right,
    }
}

/// A comparison.
fn fold_test(op: Cmp, left: Src<NameId>, right: Src<NameId>) -> Folded
    ensures { (names : List Text) → SourceHasNumbers names left → SourceHasNumbers names right
        → FoldsTo names (Compares op (source_tree (text_of names) left) (source_tree (text_of names) right)) result }
{
    match left {
        Src::Port(_) => plain(Core::Test(op, left, right)),
        Src::Lit { value: a, .. } => match right {
            Src::Port(_) => plain(Core::Test(op, left, right)),
            Src::Lit { value: b, .. } => Folded::Known(compare(op, a, b)),
        },
    }
}

/// The truth, or the opposite.
fn flipped(truth: bool, flip: bool) -> bool
    ensures { result ≡ flipped truth flip }
{
    if flip { !truth } else { truth }
}

/// A folded guard, behind a `!` where that is so.
fn negate(folded: Folded, negated: bool) -> Folded
    ensures { (names : List Text) (old : GuardTree Text) → FoldsTo names old folded → FoldsTo names (negated_tree negated old) result }
{
    match folded {
        Folded::Known(truth) => Folded::Known(flipped(truth, negated)),
        Folded::Sometimes(open) => {
            let Open {
                negated: inner,
                core,
            } = open;
            Folded::Sometimes(Open {
                negated: flipped(inner, negated),
                core,
            })
        }
    }
}

/// A guard. It goes over a run of `!` by a loop, so that the stack holds.
#[cycle(fold)]
pub(crate) fn fold(alloc: Global, guard: &Guard<NameId>) -> Result<Folded, Memory>
    ensures { (names : List Text) → GuardHasNumbers names guard.now → IfOk result (FoldsTo names (tree_of names guard.now)) }
{
    let mut negated = false;
    let mut inner = guard;
    loop {
        match inner {
            Guard::Not(operand) => {
                negated = !negated;
                inner = operand;
            }
            Guard::Read(src) => return Ok(negate(fold_source(**src), negated)),
            Guard::Test(op, left, right) => {
                return Ok(negate(fold_test(*op, **left, **right), negated));
            }
            Guard::All(guards) => {
                let folded = fold_list(alloc, Joint::All, guards)?;
                return Ok(negate(folded, negated));
            }
            Guard::Any(guards) => {
                let folded = fold_list(alloc, Joint::Any, guards)?;
                return Ok(negate(folded, negated));
            }
        }
    }
}

/// A list of guards. One that decides ends it.
#[cycle(fold)]
fn fold_list(alloc: Global, joint: Joint, guards: &[Guard<NameId>]) -> Result<Folded, Memory>
    ensures { (names : List Text) → All (GuardHasNumbers names) guards.now
        → IfOk result (FoldsTo names (joint_tree joint (map (tree_of names) guards.now))) }
{
    let mut kept = Gathered::Empty;
    for guard in guards {
        let folded = fold(alloc, guard)?;
        if folded.decides(joint) {
            return Ok(folded);
        }
        kept = kept.put(alloc, joint, folded)?;
    }
    Ok(kept.folded(joint))
}
