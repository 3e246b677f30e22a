//! What the invocations of a component use of its instances, and when after an event of the component.
ghost use Rattle.std.specs.Prelude.{◌≡◌, ◌≤◌, ◌++◌, All, IfOk, IfSome, OnOk, List, length, map, flat_map, option_map};
ghost use Rattle.hw_names.specs.Name.{Text, text_of};
ghost use Rattle.fil_ast.specs.Holds.{uses_from};
ghost use Rattle.fil_ast.specs.Limits.{KeepsLimits, KeepsStatementLimit, KeepsTimeLimit};
ghost use Rattle.fil_ast.specs.Numbers.{ComponentHasNumbers, IsNumberOf, StatementHasNumbers, TimeHasNumber};
ghost use Rattle.fil_ast.specs.Scope.{Scope, Invocation, invocations_at};
ghost use Rattle.fil_ast.specs.Signature as tree;
ghost use Rattle.fil_ast.specs.Timeline.{hold_of, use_of};
ghost use Rattle.fil_ast.specs.Tree.{TimeAt, ValueTree, component_tree, statement_tree, time_tree};
ghost use Rattle.hw_limits.specs.declared.limits.TheConstants.{MOST_OFFSET};
ghost use Rattle.fil_sig.specs.Seen.{seen_delay, seen_event};
ghost use Rattle.fil_sig.specs.declared.time_sig.SigEvent.{SigEvent};
ghost use Rattle.fil_share.specs.Instances.{IsSmallDelay, ShowsScope};
ghost use Rattle.fil_share.specs.Uses.{IsGoodUse, held, held_by, shown_use};

use crate::instances::Instances;
use fil_ast::{FilComp, Stmt, Time};
use fil_sig::{Delay, SigEvent};
use hw_bits::Memory;
use hw_names::{NameId, Names};
use std::alloc::Global;

/// The event with this number of the callee of `inst`, which the invocation `call` holds in the rows `[from, to)` after
/// the component's event `on`.
#[derive(Clone, Copy, Debug, PartialEq, Eq)]
pub struct Use {
    pub on: NameId,
    pub inst: NameId,
    pub event: u8,
    pub from: u64,
    pub to: u64,
    pub call: NameId,
}

/// For how many rows an event of this delay is held from this time on, where the callee's next event is at `next`.
fn rows_held(delay: Delay, start: Time, next: Option<&Time>) -> Option<u64>
    requires start { KeepsTimeLimit start }
    requires next { IfSome next (λ t. KeepsTimeLimit t.now) }
    requires delay { IsSmallDelay (seen_delay delay) }
    ensures value { (names : List Text) → result ≡ hold_of (seen_delay delay) (time_tree names start) (option_map (λ t. time_tree names t.now) next.entry) }
    ensures small { IfSome result (λ rows. rows ≤ MOST_OFFSET) }
{
    match delay {
        Delay::Fixed(rows) => Some(rows),
        Delay::Gap => {
            let next = next?;
            Some(next.plus.saturating_sub(start.plus + 1) as u64)
        }
        Delay::End => None,
    }
}

/// The use of the callee's event with this number and delay, where the callee's events are at these times.
fn use_of(call: NameId, inst: NameId, at: &[Time], number: u8, delay: Delay) -> Option<Use>
    requires times { All KeepsTimeLimit at.now }
    requires delay { IsSmallDelay (seen_delay delay) }
    ensures meaning { (names : List Text) (e : tree.SigEvent) → e.delay ≡ seen_delay delay
        → option_map (shown_use names) result ≡ option_map (held (text_of names call)) (use_of number e (text_of names inst) (map (time_tree names) at.now)) }
    ensures good { (names : List Text) → IsNumberOf names call → IsNumberOf names inst → All (TimeHasNumber names) at.now
        → IfSome result (IsGoodUse names) }
{
    let start = *at.get(number as usize)?;
    let rows = rows_held(delay, start, at.get(number as usize + 1))?;
    let from = start.plus as u64;
    Some(Use {
        on: start.event,
        inst,
        event: number,
        from,
        to: from + rows,
        call,
    })
}

/// Puts the uses of a callee's events last, in their order, where the events are at these times.
fn push_events(
    call: NameId,
    inst: NameId,
    at: &[Time],
    events: &[SigEvent],
    uses: &mut Vec<Use>,
) -> Result<(), Memory>
    requires times { All KeepsTimeLimit at.now }
    requires few { length events.now ≤ 16 }
    requires delays { All (λ (e : SigEvent). IsSmallDelay (seen_delay e.delay)) events.now }
    ensures meaning { (names : List Text) → OnOk result (map (shown_use names) uses.new.items
        ≡ map (shown_use names) uses.old.items
        ++ map (held (text_of names call)) (uses_from 0 (map seen_event events.now) (text_of names inst) (map (time_tree names) at.now))) }
    ensures good { (names : List Text) → IsNumberOf names call → IsNumberOf names inst → All (TimeHasNumber names) at.now
        → All (IsGoodUse names) uses.old.items → All (IsGoodUse names) uses.new.items }
{
    let mut number = 0;
    for event in events {
        if let Some(used) = use_of(call, inst, at, number, event.delay) {
            uses.push(used)?;
        }
        number += 1;
    }
    Ok(())
}

/// Puts the uses by an invocation last, in the order of its callee's events.
fn push_uses(
    names: &Names,
    instances: &Instances,
    call: NameId,
    inst: NameId,
    at: &[Time],
    uses: &mut Vec<Use>,
) -> Result<(), Memory>
    requires call { IsNumberOf names.now call }
    requires inst { IsNumberOf names.now inst }
    requires numbers { All (TimeHasNumber names.now) at.now }
    requires times { All KeepsTimeLimit at.now }
    requires shown { (scope : Scope) × ShowsScope instances.now scope }
    ensures meaning { (scope : Scope) (args : List ValueTree) → ShowsScope instances.now scope → OnOk result (map (shown_use names.now) uses.new.items
        ≡ map (shown_use names.now) uses.old.items
        ++ held_by scope (record { name = text_of names.now call; inst = text_of names.now inst; gives = record { times = map (time_tree names.now) at.now; args = args } })) }
    ensures good { All (IsGoodUse names.now) uses.old.items → All (IsGoodUse names.now) uses.new.items }
{
    match instances.sig(names.text(inst)) {
        Some(sig) => push_events(call, inst, at, &sig.events, uses),
        None => Ok(()),
    }
}

/// Puts the uses by a statement's invocation last.
fn push_statement(
    names: &Names,
    instances: &Instances,
    stmt: &Stmt,
    uses: &mut Vec<Use>,
) -> Result<(), Memory>
    requires numbers { StatementHasNumbers names.now stmt.now }
    requires small { KeepsStatementLimit stmt.now }
    requires shown { (scope : Scope) × ShowsScope instances.now scope }
    ensures meaning { (scope : Scope) → ShowsScope instances.now scope → OnOk result (map (shown_use names.now) uses.new.items
        ≡ map (shown_use names.now) uses.old.items ++ flat_map (held_by scope) (invocations_at (statement_tree names.now stmt.now))) }
    ensures good { All (IsGoodUse names.now) uses.old.items → All (IsGoodUse names.now) uses.new.items }
{
    match stmt {
        Stmt::Call { name, inst, at, .. } => push_uses(names, instances, *name, *inst, at, uses),
        Stmt::Both { name, at, .. } => push_uses(names, instances, *name, *name, at, uses),
        Stmt::New { .. } | Stmt::Set { .. } => Ok(()),
    }
}

/// What one transaction uses: the invocations in order, in each the callee's events.
pub fn component_uses(
    alloc: Global,
    names: &Names,
    instances: &Instances,
    comp: &FilComp,
) -> Result<Vec<Use>, Memory>
    requires numbers { ComponentHasNumbers names.now comp.now }
    requires small { KeepsLimits comp.now }
    requires shown { (scope : Scope) × ShowsScope instances.now scope }
    ensures meaning { (scope : Scope) → ShowsScope instances.now scope → IfOk result (λ uses. map (shown_use names.now) uses.items
        ≡ flat_map (held_by scope) (flat_map invocations_at (component_tree names.now comp.now).body)) }
    ensures good { IfOk result (λ uses. All (IsGoodUse names.now) uses.items) }
{
    let mut uses = Vec::new(alloc);
    for stmt in &comp.body {
        push_statement(names, instances, stmt, &mut uses)?;
    }
    Ok(uses)
}
