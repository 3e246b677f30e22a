//! Guards over one-bit ports.
ghost use Rattle.std.specs.Prelude.{◌≡◌, [], ◌∷◌, List, IfOk};
ghost use Rattle.hw_names.specs.Name.{Text};
ghost use Rattle.net_core.specs.Guard.{GuardTree, Negates};
ghost use Rattle.cal_ast.specs.Tree.{PortName};
ghost use Rattle.cal_lower.specs.inside.Pieces.{all_of, any_of, both, either, never, reads};
ghost use Rattle.cal_lower.specs.inside.Shown.{ShowsGuard, ShowsGuards, ShowsPort};

use cal_ast::CalPort;
use hw_bits::Memory;
use net_core::{Guard, Src};
use std::alloc::Global;

/// The port is 1.
pub(crate) fn reads(alloc: Global, port: CalPort) -> Result<Guard<CalPort>, Memory>
    ensures { (names : List Text) (tree : PortName) → ShowsPort names tree port → IfOk result (ShowsGuard names (reads tree)) }
{
    Ok(Guard::Read(Box::new(alloc, Src::Port(port))?))
}

/// No row.
pub(crate) fn never(alloc: Global) -> Result<Guard<CalPort>, Memory>
    ensures { (names : List Text) → IfOk result (ShowsGuard names never) }
{
    Ok(Guard::Read(Box::new(alloc, Src::Lit { width: 1, value: 0 })?))
}

/// The guard is not true.
pub(crate) fn negate(alloc: Global, guard: Guard<CalPort>) -> Result<Guard<CalPort>, Memory>
    ensures { (names : List Text) (tree : GuardTree PortName) → ShowsGuard names tree guard → IfOk result (ShowsGuard names (Negates tree)) }
{
    Ok(Guard::Not(Box::new(alloc, guard)?))
}

fn pair(
    alloc: Global,
    left: Guard<CalPort>,
    right: Guard<CalPort>,
) -> Result<Vec<Guard<CalPort>>, Memory>
    ensures { (names : List Text) (one other : GuardTree PortName) → ShowsGuard names one left → ShowsGuard names other right
        → IfOk result (λ guards. ShowsGuards names (one ∷ other ∷ []) guards.items) }
{
    let mut guards = Vec::with_capacity(alloc, 2)?;
    guards.push(left)?;
    guards.push(right)?;
    Ok(guards)
}

/// One of the guards is true.
pub(crate) fn either(
    alloc: Global,
    left: Guard<CalPort>,
    right: Guard<CalPort>,
) -> Result<Guard<CalPort>, Memory>
    ensures { (names : List Text) (one other : GuardTree PortName) → ShowsGuard names one left → ShowsGuard names other right
        → IfOk result (ShowsGuard names (either one other)) }
{
    Ok(Guard::Any(pair(alloc, left, right)?))
}

/// Both guards are true.
pub(crate) fn both(
    alloc: Global,
    left: Guard<CalPort>,
    right: Guard<CalPort>,
) -> Result<Guard<CalPort>, Memory>
    ensures { (names : List Text) (one other : GuardTree PortName) → ShowsGuard names one left → ShowsGuard names other right
        → IfOk result (ShowsGuard names (both one other)) }
{
    Ok(Guard::All(pair(alloc, left, right)?))
}

/// One of the guards is true; of none, in no row.
pub(crate) fn any_of(
    alloc: Global,
    mut guards: Vec<Guard<CalPort>>,
) -> Result<Guard<CalPort>, Memory>
    ensures { (names : List Text) (trees : List (GuardTree PortName)) → ShowsGuards names trees guards.items
        → IfOk result (ShowsGuard names (any_of trees)) }
{
    if guards.len() >= 2 {
        return Ok(Guard::Any(guards));
    }
    match guards.pop() {
        Some(guard) => Ok(guard),
        None => never(alloc),
    }
}

/// All of the guards are true; of none, in each row.
pub(crate) fn all_of(
    alloc: Global,
    mut guards: Vec<Guard<CalPort>>,
) -> Result<Guard<CalPort>, Memory>
    ensures { (names : List Text) (trees : List (GuardTree PortName)) → ShowsGuards names trees guards.items
        → IfOk result (ShowsGuard names (all_of trees)) }
{
    if guards.len() >= 2 {
        return Ok(Guard::All(guards));
    }
    match guards.pop() {
        Some(guard) => Ok(guard),
        None => Ok(Guard::Read(Box::new(alloc, Src::Lit { width: 1, value: 1 })?)),
    }
}

/// The guard is true, and the port is not 1.
pub(crate) fn unless(
    alloc: Global,
    guard: Guard<CalPort>,
    port: CalPort,
) -> Result<Guard<CalPort>, Memory>
    ensures { (names : List Text) (tree : GuardTree PortName) (bit : PortName) → ShowsGuard names tree guard → ShowsPort names bit port
        → IfOk result (ShowsGuard names (both tree (Negates (reads bit)))) }
{
    let not = negate(alloc, reads(alloc, port)?)?;
    both(alloc, guard, not)
}
