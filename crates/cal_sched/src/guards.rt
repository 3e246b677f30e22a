//! Sources and guards over the numbers of ports: what a component's lines read, and their values in a row.
ghost use Rattle.std.specs.Prelude.{◌≡◌, List, map, All, IfOk};
ghost use Rattle.hw_names.specs.Name.{Text};
ghost use Rattle.net_core.specs.Graph.{guard_ports, option_ports, source_ports};
ghost use Rattle.net_core.specs.Guard.{all_hold, any_holds, compare_values, guard_holds, guard_option, guard_tree, guards_of, holds, source_value};
ghost use Rattle.cal_ast.specs.Numbers.{GuardHasNumbers, SourceHasNumbers, WhenHasNumbers};
ghost use Rattle.cal_sched.specs.Watching.{AreGuardsOver, AreWithin, IsGuardOver, IsSourceOver, IsWhenOver, HasPorts, named, negations, numbers_only, source_reads, guard_reads, when_reads, value_at};

use crate::ports::number_at;
use cal_ast::CalPort;
use hw_bits::Memory;
use hw_names::Names;
use net_core::{Cmp, Guard, Src};
use net_row::Sim;
use std::alloc::Global;

/// A source over numbers.
pub(crate) fn source_over(
    alloc: Global,
    names: &Names,
    ports: &Names,
    src: Src<CalPort>,
) -> Result<Src<usize>, Memory>
    requires numbers { SourceHasNumbers names.now src }
    requires there { HasPorts ports.now (source_reads names.now src) }
    ensures { IfOk result (IsSourceOver names.now ports.now src) }
{
    match src {
        Src::Port(port) => Ok(Src::Port(number_at(alloc, names, ports, port)?)),
        Src::Lit { width, value } => Ok(Src::Lit { width, value }),
    }
}

/// The guard behind this many `!`.
fn negate(alloc: Global, guard: Guard<usize>, count: usize) -> Result<Guard<usize>, Memory>
    ensures tree { (ports : List Text) → IfOk result (λ negated. guard_tree (named ports) negated ≡ negations count (guard_tree (named ports) guard)) }
    ensures ports { IfOk result (λ negated. guard_ports (guard_tree numbers_only negated) ≡ guard_ports (guard_tree numbers_only guard)) }
{
    let mut negated = guard;
    for _ in 0..count {
        negated = Guard::Not(Box::new(alloc, negated)?);
    }
    Ok(negated)
}

/// A guard over numbers. It goes over a run of `!` by a loop, so that the stack holds.
#[cycle(guard_over)]
pub(crate) fn guard_over(
    alloc: Global,
    names: &Names,
    ports: &Names,
    guard: &Guard<CalPort>,
) -> Result<Guard<usize>, Memory>
    requires numbers { GuardHasNumbers names.now guard.now }
    requires there { HasPorts ports.now (guard_reads names.now guard.now) }
    ensures { IfOk result (IsGuardOver names.now ports.now guard.now) }
{
    let mut count: usize = 0;
    let mut inner = guard;
    loop {
        match inner {
            Guard::Not(operand) => {
                if count == usize::MAX {
                    return Err(Memory);
                }
                count += 1;
                inner = operand;
            }
            Guard::Read(src) => {
                let src = source_over(alloc, names, ports, **src)?;
                return negate(alloc, Guard::Read(Box::new(alloc, src)?), count);
            }
            Guard::Test(op, left, right) => {
                let left = source_over(alloc, names, ports, **left)?;
                let right = source_over(alloc, names, ports, **right)?;
                let left = Box::new(alloc, left)?;
                let right = Box::new(alloc, right)?;
                return negate(alloc, Guard::Test(*op, left, right), count);
            }
            Guard::All(guards) => {
                let guards = guards_over(alloc, names, ports, guards)?;
                return negate(alloc, Guard::All(guards), count);
            }
            Guard::Any(guards) => {
                let guards = guards_over(alloc, names, ports, guards)?;
                return negate(alloc, Guard::Any(guards), count);
            }
        }
    }
}

/// The guards of a list over numbers.
#[cycle(guard_over)]
fn guards_over(
    alloc: Global,
    names: &Names,
    ports: &Names,
    guards: &[Guard<CalPort>],
) -> Result<Vec<Guard<usize>>, Memory>
    requires numbers { All (GuardHasNumbers names.now) guards.now }
    requires there { All (λ g. HasPorts ports.now (guard_reads names.now g)) guards.now }
    ensures { IfOk result (λ found. AreGuardsOver names.now ports.now guards.now found.items) }
{
    let mut found = Vec::new(alloc);
    for guard in guards {
        found.push(guard_over(alloc, names, ports, guard)?)?;
    }
    Ok(found)
}

/// The guard of a line, if it has one, over numbers.
pub(crate) fn when_over(
    alloc: Global,
    names: &Names,
    ports: &Names,
    guard: &Option<Guard<CalPort>>,
) -> Result<Option<Guard<usize>>, Memory>
    requires numbers { WhenHasNumbers names.now guard.now }
    requires there { HasPorts ports.now (when_reads names.now guard.now) }
    ensures { IfOk result (IsWhenOver names.now ports.now guard.now) }
{
    match guard {
        None => Ok(None),
        Some(guard) => Ok(Some(guard_over(alloc, names, ports, guard)?)),
    }
}

/// The value of a source in the row that was evaluated.
pub(crate) fn value_of(sim: &Sim, src: Src<usize>) -> u128
    requires { AreWithin sim.now.values (source_ports src) }
    ensures { result ≡ source_value (value_at sim.now.values) src }
{
    match src {
        Src::Port(port) => sim.value(port).value(),
        Src::Lit { value, .. } => value,
    }
}

/// Whether a comparison is true.
fn compare(op: Cmp, left: u128, right: u128) -> bool
    ensures { result ≡ compare_values op left right }
{
    match op {
        Cmp::Eq => left == right,
        Cmp::Neq => left != right,
        Cmp::Lt => left < right,
        Cmp::Gt => left > right,
        Cmp::Le => left <= right,
        Cmp::Ge => left >= right,
    }
}

/// Whether a guard is true in the row. It goes over a run of `!` by a loop, so that the stack holds.
#[cycle(holds)]
fn holds(sim: &Sim, guard: &Guard<usize>) -> bool
    requires { AreWithin sim.now.values (guard_ports (guard_tree numbers_only guard.now)) }
    ensures { result ≡ holds (value_at sim.now.values) (guard_tree numbers_only guard.now) }
{
    let mut negated = false;
    let mut inner = guard;
    loop {
        match inner {
            Guard::Not(operand) => {
                negated = !negated;
                inner = operand;
            }
            Guard::Read(src) => return (value_of(sim, **src) == 1) != negated,
            Guard::Test(op, left, right) => {
                return compare(*op, value_of(sim, **left), value_of(sim, **right)) != negated;
            }
            Guard::All(guards) => return all_hold(sim, guards) != negated,
            Guard::Any(guards) => return any_holds(sim, guards) != negated,
        }
    }
}

/// Whether all guards are true.
#[cycle(holds)]
fn all_hold(sim: &Sim, guards: &[Guard<usize>]) -> bool
    requires { All (λ g. AreWithin sim.now.values (guard_ports (guard_tree numbers_only g))) guards.now }
    ensures { result ≡ all_hold (value_at sim.now.values) (guards_of (map (guard_tree numbers_only) guards.now)) }
{
    for guard in guards {
        if !holds(sim, guard) {
            return false;
        }
    }
    true
}

/// Whether one of the guards is true.
#[cycle(holds)]
fn any_holds(sim: &Sim, guards: &[Guard<usize>]) -> bool
    requires { All (λ g. AreWithin sim.now.values (guard_ports (guard_tree numbers_only g))) guards.now }
    ensures { result ≡ any_holds (value_at sim.now.values) (guards_of (map (guard_tree numbers_only) guards.now)) }
{
    for guard in guards {
        if holds(sim, guard) {
            return true;
        }
    }
    false
}

/// Whether the guard of a line is true in the row; without one it is always.
pub(crate) fn is_when(sim: &Sim, guard: &Option<Guard<usize>>) -> bool
    requires { AreWithin sim.now.values (option_ports (guard_option numbers_only guard.now)) }
    ensures { result ≡ guard_holds (value_at sim.now.values) (guard_option numbers_only guard.now) }
{
    match guard {
        None => true,
        Some(guard) => holds(sim, guard),
    }
}
