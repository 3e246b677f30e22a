//! Lists of guards while they are folded.
ghost use Rattle.std.specs.Prelude.{◌≡◌, [], ◌∷◌, ◌++◌, false, List, IfOk};
ghost use Rattle.hw_names.specs.Name.{Text};
ghost use Rattle.net_core.specs.Guard.{GuardTree};
ghost use Rattle.net_guard.specs.inside.Folding.{AreGuardsOf, FoldsTo, GatheredHasNumbers, IsFoldOf, IsListFoldOf, IsNoListOf};
ghost use Rattle.net_guard.specs.inside.Folding.{decides, gathered_trees, joint_tree, list_open};
ghost use Rattle.net_guard.specs.declared.tops.Joint.{Joint};

use crate::fold::Folded;
use crate::tops::{Core, Joint, Open};
use hw_bits::Memory;
use hw_names::NameId;
use net_core::Guard;
use std::alloc::Global;
use std::collections::LinkedList;

/// The guards of a list that was folded so far. The first alone stays taken apart, since it may be all there is.
#[derive(Drop)]
pub(crate) enum Gathered {
    Empty,
    One(Open),
    /// Two guards or more.
    Many(LinkedList<Guard<NameId>>),
}

impl Gathered {
    /// These guards as a list, to put others last.
    fn guards(self, alloc: Global) -> Result<LinkedList<Guard<NameId>>, Memory>
        ensures { (names : List Text) → GatheredHasNumbers names self → IfOk result (AreGuardsOf names (gathered_trees names self)) }
    {
        match self {
            Gathered::Empty => Ok(LinkedList::new(alloc)),
            Gathered::One(first) => {
                let mut guards = LinkedList::new(alloc);
                guards.push_back(first.guard(alloc)?)?;
                Ok(guards)
            }
            Gathered::Many(guards) => Ok(guards),
        }
    }

    /// Puts the guards of a list of the same kind last.
    fn add_list(
        self,
        alloc: Global,
        mut more: LinkedList<Guard<NameId>>,
    ) -> Result<Gathered, Memory>
        ensures { (names : List Text) (joint : Joint) (olds : List (GuardTree Text)) (old : GuardTree Text)
            → IsListFoldOf names joint olds self → IsFoldOf names old (list_open joint more) → IfOk result (IsListFoldOf names joint (olds ++ old ∷ [])) }
    {
        let mut guards = self.guards(alloc)?;
        guards.append(&mut more)?;
        Ok(Gathered::Many(guards))
    }

    /// Puts a guard last that is no list of the same kind.
    fn add_one(self, alloc: Global, guard: Open) -> Result<Gathered, Memory>
        ensures { (names : List Text) (joint : Joint) (olds : List (GuardTree Text)) (old : GuardTree Text)
            → IsListFoldOf names joint olds self → IsFoldOf names old guard → IsNoListOf joint guard
            → IfOk result (IsListFoldOf names joint (olds ++ old ∷ [])) }
    {
        if let Gathered::Empty = self {
            return Ok(Gathered::One(guard));
        }
        let mut guards = self.guards(alloc)?;
        guards.push_back(guard.guard(alloc)?)?;
        Ok(Gathered::Many(guards))
    }

    /// Puts a guard last; of a list of the same kind its guards.
    fn add(self, alloc: Global, joint: Joint, guard: Open) -> Result<Gathered, Memory>
        ensures { (names : List Text) (olds : List (GuardTree Text)) (old : GuardTree Text)
            → IsListFoldOf names joint olds self → IsFoldOf names old guard → IfOk result (IsListFoldOf names joint (olds ++ old ∷ [])) }
    {
        match guard.list_of(joint) {
            Ok(more) => self.add_list(alloc, more),
            Err(other) => self.add_one(alloc, other),
        }
    }

    /// Puts last what a guard that does not decide the list has folded to.
    pub(crate) fn put(self, alloc: Global, joint: Joint, folded: Folded) -> Result<Gathered, Memory>
        ensures { (names : List Text) (olds : List (GuardTree Text)) (old : GuardTree Text)
            → IsListFoldOf names joint olds self → FoldsTo names old folded → decides joint folded ≡ false
            → IfOk result (IsListFoldOf names joint (olds ++ old ∷ [])) }
    {
        match folded {
            Folded::Known(_) => Ok(self),
            Folded::Sometimes(open) => self.add(alloc, joint, open),
        }
    }

    /// The list as a guard: one of none is known, one of one is that one.
    pub(crate) fn folded(self, joint: Joint) -> Folded
        ensures { (names : List Text) (olds : List (GuardTree Text)) → IsListFoldOf names joint olds self
            → FoldsTo names (joint_tree joint olds) result }
    {
        match self {
            Gathered::Empty => Folded::Known(joint.neutral()),
            Gathered::One(only) => Folded::Sometimes(only),
            Gathered::Many(guards) => Folded::Sometimes(Open {
                negated: false,
                core: Core::List(joint, guards),
            }),
        }
    }
}
