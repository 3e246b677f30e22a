//! The assignments of arguments and of outputs.
ghost use Rattle.std.specs.Prelude.{◌≡◌, ◌++◌, map, flat_map, All, Contains, IfOk, OnOk};
ghost use Rattle.std.specs.Option.{option_and_then};
ghost use Rattle.net_core.specs.Guard.{guard_option};
ghost use Rattle.cal_ast.specs.Numbers.{SetHasNumbers, WhenHasNumbers};
ghost use Rattle.cal_ast.specs.Tree.{assignment_tree, port_tree};
ghost use Rattle.fil_ast.specs.Limits.{KeepsStatementLimit, KeepsTimeLimit};
ghost use Rattle.fil_ast.specs.Numbers.{StatementHasNumbers, ValueHasNumbers};
ghost use Rattle.fil_ast.specs.Scope.{invocations_at};
ghost use Rattle.fil_ast.specs.Timeline.{interval_at};
ghost use Rattle.fil_ast.specs.Tree.{statement_tree, value_tree};
ghost use Rattle.fil_sig.specs.Seen.{seen_port};
ghost use Rattle.fil_lower.specs.inside.Lowering.{Lowering, argument_set, argument_sets, connection_set, during, inputs_of_callee, invocation_sets};
ghost use Rattle.fil_lower.specs.inside.Parts.{InvocationHasNumbers, invocation_shown};
ghost use Rattle.fil_lower.specs.inside.Place.{NamesInvocation, ShowsPlace};

use crate::interval::interval_at;
use crate::names::number_of;
use crate::parts::{Invocation, invoked};
use crate::place::{Place, own, port_of};
use cal_ast::{Assign, CalPort};
use fil_ast::{Stmt, Value};
use fil_sig::SigPort;
use hw_bits::Memory;
use net_core::Guard;
use std::alloc::Global;

/// When an argument drives its port of the instance.
fn argument_guard(
    alloc: Global,
    place: &Place<'_>,
    call: &Invocation<'_>,
    port: &SigPort,
) -> Result<Option<Guard<CalPort>>, Memory>
    requires call { InvocationHasNumbers place.now.body.now.names.now call.now }
    requires times { All KeepsTimeLimit call.now.at.now }
    requires known { (l : Lowering) × ShowsPlace place.now l × Contains l.scope.invocations (invocation_shown place.now.body.now.names.now call.now)
        × Contains (inputs_of_callee l (invocation_shown place.now.body.now.names.now call.now).inst) (seen_port port.now) }
    ensures guard { (l : Lowering) → ShowsPlace place.now l → IfOk result (λ guard. guard_option (port_tree place.now.names.now) guard
        ≡ option_and_then (during l) (interval_at (invocation_shown place.now.body.now.names.now call.now).gives.times (seen_port port.now))) }
    ensures numbers { IfOk result (WhenHasNumbers place.now.names.now) }
{
    match interval_at(call.at, port) {
        Some(interval) => place.during(alloc, interval),
        None => Ok(None),
    }
}

/// An argument drives its port of the instance.
fn argument_set(
    alloc: Global,
    place: &Place<'_>,
    call: &Invocation<'_>,
    port: &SigPort,
    value: Value,
) -> Result<Assign, Memory>
    requires call { InvocationHasNumbers place.now.body.now.names.now call.now }
    requires times { All KeepsTimeLimit call.now.at.now }
    requires value { ValueHasNumbers place.now.body.now.names.now value }
    requires known { (l : Lowering) × ShowsPlace place.now l × Contains l.scope.invocations (invocation_shown place.now.body.now.names.now call.now)
        × Contains (inputs_of_callee l (invocation_shown place.now.body.now.names.now call.now).inst) (seen_port port.now)
        × NamesInvocation l.scope.invocations (value_tree place.now.body.now.names.now value) }
    ensures set { (l : Lowering) → ShowsPlace place.now l → IfOk result (λ set. assignment_tree place.now.names.now set
        ≡ argument_set l (invocation_shown place.now.body.now.names.now call.now) (seen_port port.now) (value_tree place.now.body.now.names.now value)) }
    ensures numbers { IfOk result (SetHasNumbers place.now.names.now) }
{
    let guard = argument_guard(alloc, place, call, port)?;
    Ok(Assign {
        dst: port_of(call.inst, number_of(place.names, port.name.bytes())),
        guard,
        src: place.source(value),
    })
}

/// Puts the assignments of an invocation's arguments last, in the order of the callee's inputs.
fn push_call(
    alloc: Global,
    place: &Place<'_>,
    call: &Invocation<'_>,
    ports: &[SigPort],
    sets: &mut Vec<Assign>,
) -> Result<(), Memory>
    requires call { InvocationHasNumbers place.now.body.now.names.now call.now }
    requires times { All KeepsTimeLimit call.now.at.now }
    requires known { (l : Lowering) × ShowsPlace place.now l × Contains l.scope.invocations (invocation_shown place.now.body.now.names.now call.now)
        × (inputs_of_callee l (invocation_shown place.now.body.now.names.now call.now).inst ≡ map seen_port ports.now) }
    ensures sets { (l : Lowering) → ShowsPlace place.now l → OnOk result (map (assignment_tree place.now.names.now) sets.new.items
        ≡ map (assignment_tree place.now.names.now) sets.old.items
        ++ argument_sets l (invocation_shown place.now.body.now.names.now call.now) (map seen_port ports.now) (invocation_shown place.now.body.now.names.now call.now).gives.args) }
    ensures numbers { All (SetHasNumbers place.now.names.now) sets.old.items → All (SetHasNumbers place.now.names.now) sets.new.items }
{
    for (number, port) in ports.iter().enumerate() {
        if let Some(value) = call.args.get(number) {
            sets.push(argument_set(alloc, place, call, port, *value)?)?;
        }
    }
    Ok(())
}

/// Puts the assignments of the arguments of a statement's invocation last.
fn push_statement(
    alloc: Global,
    place: &Place<'_>,
    stmt: &Stmt,
    sets: &mut Vec<Assign>,
) -> Result<(), Memory>
    requires numbers { StatementHasNumbers place.now.body.now.names.now stmt.now }
    requires small { KeepsStatementLimit stmt.now }
    requires known { (l : Lowering) × ShowsPlace place.now l × Contains l.scope.comp.body (statement_tree place.now.body.now.names.now stmt.now) }
    ensures sets { (l : Lowering) → ShowsPlace place.now l → OnOk result (map (assignment_tree place.now.names.now) sets.new.items
        ≡ map (assignment_tree place.now.names.now) sets.old.items
        ++ flat_map (invocation_sets l) (invocations_at (statement_tree place.now.body.now.names.now stmt.now))) }
    ensures numbers { All (SetHasNumbers place.now.names.now) sets.old.items → All (SetHasNumbers place.now.names.now) sets.new.items }
{
    let Some(call) = invoked(stmt) else {
        return Ok(());
    };
    let body = place.body;
    match body.instances.sig(body.names.text(call.inst)) {
        Some(sig) => push_call(alloc, place, &call, &sig.ins, sets),
        None => Ok(()),
    }
}

/// Puts the assignments of all arguments last, invocation by invocation.
pub(crate) fn push_arguments(
    alloc: Global,
    place: &Place<'_>,
    sets: &mut Vec<Assign>,
) -> Result<(), Memory>
    requires { (l : Lowering) × ShowsPlace place.now l }
    ensures sets { (l : Lowering) → ShowsPlace place.now l → OnOk result (map (assignment_tree place.now.names.now) sets.new.items
        ≡ map (assignment_tree place.now.names.now) sets.old.items ++ flat_map (invocation_sets l) l.scope.invocations) }
    ensures numbers { All (SetHasNumbers place.now.names.now) sets.old.items → All (SetHasNumbers place.now.names.now) sets.new.items }
{
    for stmt in &place.body.comp.body {
        push_statement(alloc, place, stmt, sets)?;
    }
    Ok(())
}

/// Puts the assignments of the outputs last: each takes the value that it is connected to, in every row.
pub(crate) fn push_connections(place: &Place<'_>, sets: &mut Vec<Assign>) -> Result<(), Memory>
    requires { (l : Lowering) × ShowsPlace place.now l }
    ensures sets { (l : Lowering) → ShowsPlace place.now l → OnOk result (map (assignment_tree place.now.names.now) sets.new.items
        ≡ map (assignment_tree place.now.names.now) sets.old.items ++ flat_map (connection_set l) l.scope.comp.body) }
    ensures numbers { All (SetHasNumbers place.now.names.now) sets.old.items → All (SetHasNumbers place.now.names.now) sets.new.items }
{
    for stmt in &place.body.comp.body {
        if let Stmt::Set { dst, value } = stmt {
            sets.push(Assign {
                dst: own(*dst),
                guard: None,
                src: place.source(*value),
            })?;
        }
    }
    Ok(())
}
