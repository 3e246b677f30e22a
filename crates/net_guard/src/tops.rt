//! Guards that are folded, taken apart at their tops.
ghost use Rattle.std.specs.Prelude.{◌≡◌, List, IfOk, MatchResult};
ghost use Rattle.hw_names.specs.Name.{Text};
ghost use Rattle.net_guard.specs.inside.Folding.{CoreHasNumbers, IsGuardOf, IsNoListOf, OpenHasNumbers, core_tree, list_open, neutral, open_tree};

use hw_bits::Memory;
use hw_names::NameId;
use net_core::{Cmp, Guard, Src};
use std::alloc::Global;
use std::collections::LinkedList;

/// How a list is joined: all of its guards have to be true, or any.
#[derive(Clone, Copy, PartialEq, Eq)]
pub(crate) enum Joint {
    All,
    Any,
}

impl Joint {
    /// What a list is where none of its guards decides; a guard that always is this has no part in it.
    pub(crate) fn neutral(self) -> bool
        ensures { result ≡ neutral self }
    {
        match self {
            Joint::All => true,
            Joint::Any => false,
        }
    }
}

/// What stands behind the `!` of a guard, if it has one.
#[derive(Drop)]
pub(crate) enum Core {
    Read(Src<NameId>),
    Test(Cmp, Src<NameId>, Src<NameId>),
    /// Two guards or more; linked, since joining them to others then takes constant time.
    List(Joint, LinkedList<Guard<NameId>>),
}

/// A guard, behind a `!` or not.
#[derive(Drop)]
pub(crate) struct Open {
    pub(crate) negated: bool,
    pub(crate) core: Core,
}

/// The same guards in a `Vec`.
fn into_vec(
    alloc: Global,
    mut list: LinkedList<Guard<NameId>>,
) -> Result<Vec<Guard<NameId>>, Memory>
    ensures { IfOk result (λ guards. guards.items ≡ list) }
{
    let mut guards = Vec::with_capacity(alloc, list.len())?;
    while let Some(guard) = list.pop_front() {
        guards.push(guard)?;
    }
    Ok(guards)
}

/// The core as a guard.
fn core_guard(alloc: Global, core: Core) -> Result<Guard<NameId>, Memory>
    ensures { (names : List Text) → CoreHasNumbers names core → IfOk result (IsGuardOf names (core_tree names core)) }
{
    match core {
        Core::Read(src) => Ok(Guard::Read(Box::new(alloc, src)?)),
        Core::Test(op, left, right) => {
            let left = Box::new(alloc, left)?;
            let right = Box::new(alloc, right)?;
            Ok(Guard::Test(op, left, right))
        }
        Core::List(Joint::All, guards) => Ok(Guard::All(into_vec(alloc, guards)?)),
        Core::List(Joint::Any, guards) => Ok(Guard::Any(into_vec(alloc, guards)?)),
    }
}

impl Open {
    /// The guard as one.
    pub(crate) fn guard(self, alloc: Global) -> Result<Guard<NameId>, Memory>
        ensures { (names : List Text) → OpenHasNumbers names self → IfOk result (IsGuardOf names (open_tree names self)) }
    {
        let Open { negated, core } = self;
        let guard = core_guard(alloc, core)?;
        if negated {
            Ok(Guard::Not(Box::new(alloc, guard)?))
        } else {
            Ok(guard)
        }
    }

    /// Its guards where it is a list of this kind; else the guard itself.
    pub(crate) fn list_of(self, joint: Joint) -> Result<LinkedList<Guard<NameId>>, Open>
        ensures { MatchResult result (λ guards. self ≡ list_open joint guards) (λ other. (other ≡ self) × IsNoListOf joint other) }
    {
        let Open { negated, core } = self;
        if negated {
            return Err(Open { negated, core });
        }
        match core {
            Core::List(kind, guards) => {
                if kind == joint {
                    Ok(guards)
                } else {
                    Err(Open {
                        negated,
                        core: Core::List(kind, guards),
                    })
                }
            }
            Core::Read(_) | Core::Test(..) => Err(Open { negated, core }),
        }
    }
}
