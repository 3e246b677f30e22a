//! The times of an invocation as offsets of the component's events by number.
ghost use Rattle.std.specs.Prelude.{◌≡◌, All, Contains, Some, IfOk, map};
ghost use Rattle.hw_names.specs.Name.{text_of};
ghost use Rattle.fil_ast.specs.Limits.{KeepsStatementLimit, KeepsTimeLimit};
ghost use Rattle.fil_ast.specs.Naming.{UsesKnownNames, event_names};
ghost use Rattle.fil_ast.specs.Numbers.{StatementHasNumbers, TimeHasNumber};
ghost use Rattle.fil_ast.specs.Scope.{Scope};
ghost use Rattle.fil_ast.specs.Tree.{statement_tree, time_tree};
ghost use Rattle.fil_place.specs.Tables.{AreTimesOf};
ghost use Rattle.fil_place.specs.Times.{AreTimes, time_shown};

use crate::times::Offset;
use fil_ast::{Stmt, Time};
use hw_bits::Memory;
use hw_names::Names;
use std::alloc::Global;

/// The time as an offset; the number of an event that isn't there is past the last.
fn offset_of(names: &Names, events: &Names, time: Time) -> Offset
    requires number { TimeHasNumber names.now time }
    requires small { KeepsTimeLimit time }
    ensures { Contains events.now (text_of names.now time.event) → time_shown events.now result ≡ Some (time_tree names.now time) }
{
    let plus = time.plus as u16;
    match events.find(names.text(time.event)) {
        Some(number) => Offset {
            event: number.0 as usize,
            plus,
        },
        None => Offset {
            event: events.len(),
            plus,
        },
    }
}

/// The times as offsets, where `events` are the names of the component's events.
fn offsets_of(
    alloc: Global,
    names: &Names,
    events: &Names,
    at: &[Time],
) -> Result<Vec<Offset>, Memory>
    requires numbers { All (TimeHasNumber names.now) at.now }
    requires small { All KeepsTimeLimit at.now }
    ensures { All (λ time. Contains events.now (text_of names.now time.event)) at.now
        → IfOk result (λ offsets. AreTimes events.now offsets.items (map (time_tree names.now) at.now)) }
{
    let mut offsets = Vec::new(alloc);
    for time in at {
        offsets.push(offset_of(names, events, *time))?;
    }
    Ok(offsets)
}

/// The times that a statement gives what it invokes, as offsets; none where it invokes nothing.
pub fn given_at(
    alloc: Global,
    names: &Names,
    events: &Names,
    stmt: &Stmt,
) -> Result<Vec<Offset>, Memory>
    requires numbers { StatementHasNumbers names.now stmt.now }
    requires small { KeepsStatementLimit stmt.now }
    ensures { (scope : Scope) → events.now ≡ event_names scope.comp → UsesKnownNames scope (statement_tree names.now stmt.now)
        → IfOk result (λ at. AreTimesOf events.now at.items (statement_tree names.now stmt.now)) }
{
    match stmt {
        Stmt::Call { at, .. } => offsets_of(alloc, names, events, at),
        Stmt::Both { at, .. } => offsets_of(alloc, names, events, at),
        _ => Ok(Vec::new(alloc)),
    }
}
