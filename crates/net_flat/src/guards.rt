//! Sources and guards of an instance, with full names.
ghost use Rattle.std.specs.Prelude.{◌≡◌, All, List, map, IfOk};
ghost use Rattle.hw_names.specs.Name.{KeepsTexts, Text, text_of};
ghost use Rattle.cal_ast.specs.Numbers as cal;
ghost use Rattle.net_core.specs.Guard.{GuardTree, guard_tree, source_tree};
ghost use Rattle.net_flat.specs.inside.Placed.{port_text};
ghost use Rattle.net_flat.specs.inside.StandFor.{AreGuards, IsGuard, IsSource, negations};

use crate::texts::port_at;
use cal_ast::CalPort;
use hw_bits::Memory;
use hw_names::{NameId, Names};
use net_core::{Guard, Src};
use std::alloc::Global;

/// A source.
pub(crate) fn source_at(
    alloc: Global,
    names: &mut Names,
    source: &Names,
    prefix: &[u8],
    src: Src<CalPort>,
) -> Result<Src<NameId>, Memory>
    requires { cal.SourceHasNumbers source.now src }
    ensures source { IfOk result (IsSource names.new (source_tree (port_text source.now prefix.now) src)) }
    ensures kept { KeepsTexts names.old names.new }
{
    match src {
        Src::Port(port) => Ok(Src::Port(port_at(alloc, names, source, prefix, port)?)),
        Src::Lit { width, value } => Ok(Src::Lit { width, value }),
    }
}

/// The guard behind this many `!`.
fn negate(alloc: Global, guard: Guard<NameId>, count: usize) -> Result<Guard<NameId>, Memory>
    ensures { (names : List Text) (tree : GuardTree Text) → IsGuard names tree guard → IfOk result (IsGuard names (negations count tree)) }
{
    let mut negated = guard;
    for _ in 0..count {
        negated = Guard::Not(Box::new(alloc, negated)?);
    }
    Ok(negated)
}

/// A guard. It goes over a run of `!` by a loop, so that the stack holds.
#[cycle(guard_at)]
pub(crate) fn guard_at(
    alloc: Global,
    names: &mut Names,
    source: &Names,
    prefix: &[u8],
    guard: &Guard<CalPort>,
) -> Result<Guard<NameId>, Memory>
    requires { cal.GuardHasNumbers source.now guard.now }
    ensures guard { IfOk result (IsGuard names.new (guard_tree (port_text source.now prefix.now) guard.now)) }
    ensures kept { KeepsTexts names.old names.new }
{
    let mut count: usize = 0;
    let mut inner = guard;
    loop {
        match inner {
            Guard::Not(operand) => {
                if count == usize::MAX {
                    return Err(Memory);
                }
                count += 1;
                inner = operand;
            }
            Guard::Read(src) => {
                let src = source_at(alloc, names, source, prefix, **src)?;
                return negate(alloc, Guard::Read(Box::new(alloc, src)?), count);
            }
            Guard::Test(op, left, right) => {
                let left = source_at(alloc, names, source, prefix, **left)?;
                let right = source_at(alloc, names, source, prefix, **right)?;
                let left = Box::new(alloc, left)?;
                let right = Box::new(alloc, right)?;
                return negate(alloc, Guard::Test(*op, left, right), count);
            }
            Guard::All(guards) => {
                let guards = guards_at(alloc, names, source, prefix, guards)?;
                return negate(alloc, Guard::All(guards), count);
            }
            Guard::Any(guards) => {
                let guards = guards_at(alloc, names, source, prefix, guards)?;
                return negate(alloc, Guard::Any(guards), count);
            }
        }
    }
}

/// The guards of a list.
#[cycle(guard_at)]
fn guards_at(
    alloc: Global,
    names: &mut Names,
    source: &Names,
    prefix: &[u8],
    guards: &[Guard<CalPort>],
) -> Result<Vec<Guard<NameId>>, Memory>
    requires { All (cal.GuardHasNumbers source.now) guards.now }
    ensures guards { IfOk result (λ found. AreGuards names.new (map (guard_tree (port_text source.now prefix.now)) guards.now) found.items) }
    ensures kept { KeepsTexts names.old names.new }
{
    let mut found = Vec::with_capacity(alloc, guards.len())?;
    for guard in guards {
        found.push(guard_at(alloc, names, source, prefix, guard)?)?;
    }
    Ok(found)
}
