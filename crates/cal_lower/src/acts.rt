//! When control wants groups: the guards are gathered while its parts are gone over.
ghost use Rattle.std.specs.Prelude.{◌≡◌, [], List, length, All, Contains, IfOk, OnOk};
ghost use Rattle.hw_names.specs.Name.{Text, text_of};
ghost use Rattle.net_core.specs.Guard.{GuardTree};
ghost use Rattle.cal_ast.specs.Tree.{PortName};
ghost use Rattle.cal_ast.specs.declared.tree.Group.{Group as GroupOf};
ghost use Rattle.net_core.specs.Numbers.{IsNumberOf};
ghost use Rattle.cal_lower.specs.inside.Shown.{Guards, PutsGuard, ShowsActs, ShowsGuard, ShowsWanted, enabled_in, more_of, nothing, tested_in};

use cal_ast::{CalPort, Group};
use cal_copy::add_name;
use hw_bits::Memory;
use hw_names::Names;
use net_core::Guard;
use std::alloc::Global;

/// The rows in which control wants a group.
#[derive(Drop)]
pub(crate) struct Wanted {
    /// It is enabled.
    pub enabled: Vec<Guard<CalPort>>,
    /// It acts in the row of a test.
    pub tested: Vec<Guard<CalPort>>,
}

/// The groups of a component, and for each when it is wanted.
#[derive(Drop)]
pub(crate) struct Acts {
    groups: Names,
    wanted: Vec<Wanted>,
}

/// The names of groups.
fn group_names(alloc: Global, names: &Names, groups: &[Group]) -> Result<Names, Memory>
    requires { All (λ (group : GroupOf). IsNumberOf names.now group.name) groups.now }
    ensures { IfOk result (λ known. All (λ (group : GroupOf). Contains known (text_of names.now group.name)) groups.now) }
{
    let mut known = names.beside();
    for group in groups {
        let _number = add_name(&mut known, names.text(group.name))?;
    }
    Ok(known)
}

/// For each of so many groups, no rows.
fn never_wanted(alloc: Global, count: usize) -> Result<Vec<Wanted>, Memory>
    ensures count { IfOk result (λ all. length all.items ≡ count) }
    ensures nothing { (names : List Text) → IfOk result (λ all. All (ShowsWanted names [] []) all.items) }
{
    let mut all = Vec::new(alloc);
    for _ in 0..count {
        all.push(Wanted {
            enabled: Vec::new(alloc),
            tested: Vec::new(alloc),
        })?;
    }
    Ok(all)
}

/// Puts the guard last among those of a number.
fn push_enabled(
    wanted: &mut Vec<Wanted>,
    number: usize,
    guard: Guard<CalPort>,
) -> Result<(), Memory>
    ensures { OnOk result (PutsGuard enabled_in tested_in number guard wanted.old.items wanted.new.items) }
{
    if number < wanted.len() {
        wanted[number].enabled.push(guard)?;
    }
    Ok(())
}

/// Puts the guard of a test last among those of a number.
fn push_tested(wanted: &mut Vec<Wanted>, number: usize, guard: Guard<CalPort>) -> Result<(), Memory>
    ensures { OnOk result (PutsGuard tested_in enabled_in number guard wanted.old.items wanted.new.items) }
{
    if number < wanted.len() {
        wanted[number].tested.push(guard)?;
    }
    Ok(())
}

impl Acts {
    /// The groups of a component, none of which is wanted so far.
    pub(crate) fn make(alloc: Global, names: &Names, groups: &[Group]) -> Result<Acts, Memory>
        requires { All (λ (group : GroupOf). IsNumberOf names.now group.name) groups.now }
        ensures nothing { (later : List Text) → IfOk result (ShowsActs later nothing nothing) }
        ensures named { IfOk result (λ acts. All (λ (group : GroupOf). Contains acts.groups (text_of names.now group.name)) groups.now) }
    {
        let groups = group_names(alloc, names, groups)?;
        let wanted = never_wanted(alloc, groups.len())?;
        Ok(Acts { groups, wanted })
    }

    /// The group is enabled in the rows of the guard; another text is no group.
    pub(crate) fn enable(&mut self, group: &[u8], guard: Guard<CalPort>) -> Result<(), Memory>
        ensures groups { self.new.groups ≡ self.old.groups }
        ensures wanted { (names : List Text) (enabled tested : Guards) (tree : GuardTree PortName) → ShowsActs names enabled tested self.old → ShowsGuard names tree guard
            → OnOk result (ShowsActs names (more_of enabled group.now tree) tested self.new) }
    {
        let Some(number) = self.groups.find(group) else {
            return Ok(());
        };
        push_enabled(&mut self.wanted, number.0 as usize, guard)
    }

    /// The group acts in the rows of the guard, which are those of a test; another text is no group.
    pub(crate) fn test(&mut self, group: &[u8], guard: Guard<CalPort>) -> Result<(), Memory>
        ensures groups { self.new.groups ≡ self.old.groups }
        ensures wanted { (names : List Text) (enabled tested : Guards) (tree : GuardTree PortName) → ShowsActs names enabled tested self.old → ShowsGuard names tree guard
            → OnOk result (ShowsActs names enabled (more_of tested group.now tree) self.new) }
    {
        let Some(number) = self.groups.find(group) else {
            return Ok(());
        };
        push_tested(&mut self.wanted, number.0 as usize, guard)
    }

    /// When the group is wanted.
    pub(crate) fn wanted(&self, group: &[u8]) -> &Wanted
        requires group { Contains self.now.groups group.now }
        requires shown { (names : List Text) × (enabled : Guards) × (tested : Guards) × ShowsActs names enabled tested self.now }
        ensures { (names : List Text) (enabled tested : Guards) → ShowsActs names enabled tested self.now → ShowsWanted names (enabled group.now) (tested group.now) result.now }
    {
        match self.groups.find(group) {
            Some(number) => &self.wanted[number.0 as usize],
            None => unreachable!(),
        }
    }
}
