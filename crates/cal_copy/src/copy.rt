//! Copies of guards, assignments, groups and cells.
ghost use Rattle.std.specs.Prelude.{◌≡◌, List, IfOk};
ghost use Rattle.std.specs.List.{AllZip};
ghost use Rattle.hw_names.specs.Name.{Text};
ghost use Rattle.cal_ast.specs.Numbers.{GuardHasNumbers};
ghost use Rattle.cal_copy.specs.inside.Copies.{IsCellCopy, IsDoneCopy, IsGroupCopy, IsGuardCopy, IsSetCopy, IsWhenCopy, port_guard};
ghost use Rattle.cal_copy.specs.inside.Negations.{negations};

use cal_ast::{Assign, CalCell, CalPort, DoneSet, Group};
use hw_bits::Memory;
use net_core::Guard;
use std::alloc::Global;

/// The guard behind this many `!`.
fn negate(alloc: Global, guard: Guard<CalPort>, count: usize) -> Result<Guard<CalPort>, Memory>
    ensures numbers { (names : List Text) → GuardHasNumbers names guard → IfOk result (GuardHasNumbers names) }
    ensures tree { (names : List Text) → IfOk result (λ negated. port_guard names negated ≡ negations count (port_guard names guard)) }
{
    let mut negated = guard;
    for _ in 0..count {
        negated = Guard::Not(Box::new(alloc, negated)?);
    }
    Ok(negated)
}

/// A guard. It goes over a run of `!` by a loop, so that the stack holds.
#[cycle(copy_guard)]
pub fn copy_guard(alloc: Global, guard: &Guard<CalPort>) -> Result<Guard<CalPort>, Memory>
    ensures { IfOk result (IsGuardCopy guard.now) }
{
    let mut count: usize = 0;
    let mut inner = guard;
    loop {
        match inner {
            Guard::Not(operand) => {
                if count == usize::MAX {
                    return Err(Memory);
                }
                count += 1;
                inner = operand;
            }
            Guard::Read(src) => {
                let src = Box::new(alloc, **src)?;
                return negate(alloc, Guard::Read(src), count);
            }
            Guard::Test(op, left, right) => {
                let left = Box::new(alloc, **left)?;
                let right = Box::new(alloc, **right)?;
                return negate(alloc, Guard::Test(*op, left, right), count);
            }
            Guard::All(guards) => {
                let guards = copy_guards(alloc, guards)?;
                return negate(alloc, Guard::All(guards), count);
            }
            Guard::Any(guards) => {
                let guards = copy_guards(alloc, guards)?;
                return negate(alloc, Guard::Any(guards), count);
            }
        }
    }
}

/// The guards of a list.
#[cycle(copy_guard)]
pub fn copy_guards(alloc: Global, guards: &[Guard<CalPort>]) -> Result<Vec<Guard<CalPort>>, Memory>
    ensures { IfOk result (λ copies. AllZip IsGuardCopy guards.now copies.items) }
{
    let mut copies = Vec::with_capacity(alloc, guards.len())?;
    for guard in guards {
        copies.push(copy_guard(alloc, guard)?)?;
    }
    Ok(copies)
}

/// The guard of an assignment or a done line, if it has one.
#[tactic(auto, using(crate::proofs::CopyLemmas::when_none, crate::proofs::CopyLemmas::when_some))]
pub fn copy_when(
    alloc: Global,
    guard: &Option<Guard<CalPort>>,
) -> Result<Option<Guard<CalPort>>, Memory>
    ensures { IfOk result (IsWhenCopy guard.now) }
{
    match guard {
        None => Ok(None),
        Some(guard) => Ok(Some(copy_guard(alloc, guard)?)),
    }
}

fn copy_set(alloc: Global, set: &Assign) -> Result<Assign, Memory>
    ensures { IfOk result (IsSetCopy set.now) }
{
    let guard = copy_when(alloc, &set.guard)?;
    Ok(Assign {
        dst: set.dst,
        guard,
        src: set.src,
    })
}

/// The assignments of a group, or of a component.
pub fn copy_sets(alloc: Global, sets: &[Assign]) -> Result<Vec<Assign>, Memory>
    ensures { IfOk result (λ copies. AllZip IsSetCopy sets.now copies.items) }
{
    let mut copies = Vec::with_capacity(alloc, sets.len())?;
    for set in sets {
        copies.push(copy_set(alloc, set)?)?;
    }
    Ok(copies)
}

fn copy_done(alloc: Global, done: &DoneSet) -> Result<DoneSet, Memory>
    ensures { IfOk result (IsDoneCopy done.now) }
{
    let guard = copy_when(alloc, &done.guard)?;
    Ok(DoneSet {
        of: done.of,
        guard,
        src: done.src,
    })
}

fn copy_dones(alloc: Global, dones: &[DoneSet]) -> Result<Vec<DoneSet>, Memory>
    ensures { IfOk result (λ copies. AllZip IsDoneCopy dones.now copies.items) }
{
    let mut copies = Vec::with_capacity(alloc, dones.len())?;
    for done in dones {
        copies.push(copy_done(alloc, done)?)?;
    }
    Ok(copies)
}

fn copy_group(alloc: Global, group: &Group) -> Result<Group, Memory>
    ensures { IfOk result (IsGroupCopy group.now) }
{
    let sets = copy_sets(alloc, &group.sets)?;
    let dones = copy_dones(alloc, &group.dones)?;
    Ok(Group {
        name: group.name,
        comb: group.comb,
        sets,
        dones,
    })
}

/// The groups of a component.
pub fn copy_groups(alloc: Global, groups: &[Group]) -> Result<Vec<Group>, Memory>
    ensures { IfOk result (λ copies. AllZip IsGroupCopy groups.now copies.items) }
{
    let mut copies = Vec::with_capacity(alloc, groups.len())?;
    for group in groups {
        copies.push(copy_group(alloc, group)?)?;
    }
    Ok(copies)
}

fn copy_cell(alloc: Global, cell: &CalCell) -> Result<CalCell, Memory>
    ensures { IfOk result (IsCellCopy cell.now) }
{
    let params = Vec::from_slice(alloc, &cell.params)?;
    Ok(CalCell {
        name: cell.name,
        made: cell.made,
        params,
        external: cell.external,
    })
}

/// The cells of a component.
pub fn copy_cells(alloc: Global, cells: &[CalCell]) -> Result<Vec<CalCell>, Memory>
    ensures { IfOk result (λ copies. AllZip IsCellCopy cells.now copies.items) }
{
    let mut copies = Vec::with_capacity(alloc, cells.len())?;
    for cell in cells {
        copies.push(copy_cell(alloc, cell)?)?;
    }
    Ok(copies)
}
