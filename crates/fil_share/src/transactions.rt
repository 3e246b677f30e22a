//! What transactions hold.
ghost use Rattle.std.specs.Prelude.{◌≡◌, ◌<◌, ◌≤◌, ◌++◌, List, Some, length, map, filter, flat_map, take, slice_get, All, IfOk, OnOk};
ghost use Rattle.fil_ast.specs.Holds.{holds_of};
ghost use Rattle.fil_ast.specs.Numbers.{ComponentHasNumbers};
ghost use Rattle.fil_ast.specs.Scope.{Scope};
ghost use Rattle.fil_ast.specs.Tree.{Component, component_tree, design_of};
ghost use Rattle.fil_ast.specs.Wires.{whole_scope};
ghost use Rattle.fil_ast.specs.declared.tree.FilComp.{FilComp};
ghost use Rattle.fil_share.specs.Uses.{HoldHasNumbers, IsGoodUse, held_by, is_on, moved, shown_hold, shown_use, starts_of};
ghost use Rattle.hw_limits.specs.declared.limits.TheConstants.{MOST_CYCLES};

use crate::callees::component_names;
use crate::hold::Hold;
use crate::instances::Instances;
use crate::uses::{Use, component_uses};
use fil_ast::{FilComp, FilOk, Tx};
use hw_bits::Memory;
use hw_names::Names;
use std::alloc::Global;

/// Puts what transaction number `tx` holds last, which starts at the event of this name in this row.
fn push_holds(
    names: &Names,
    uses: &[Use],
    event: &[u8],
    row: u64,
    tx: u64,
    holds: &mut Vec<Hold>,
) -> Result<(), Memory>
    requires uses { All (IsGoodUse names.now) uses.now }
    requires row { row ≤ MOST_CYCLES }
    ensures shown { OnOk result (map (shown_hold names.now) holds.new.items ≡ map (shown_hold names.now) holds.old.items
        ++ map (moved tx row) (filter (is_on event.now) (map (shown_use names.now) uses.now))) }
    ensures numbered { All (HoldHasNumbers names.now) holds.old.items → All (HoldHasNumbers names.now) holds.new.items }
{
    for used in uses {
        if names.text(used.on) == event {
            holds.push(Hold {
                inst: used.inst,
                event: used.event,
                from: row + used.from,
                to: row + used.to,
                call: used.call,
                tx,
            })?;
        }
    }
    Ok(())
}

/// What these transactions of a component hold, where `uses` is what one of them does.
fn all_holds(
    alloc: Global,
    names: &Names,
    comp: &FilComp,
    uses: &[Use],
    txs: &[Tx],
) -> Result<Vec<Hold>, Memory>
    requires numbers { ComponentHasNumbers names.now comp.now }
    requires uses { All (IsGoodUse names.now) uses.now }
    requires events { All (λ tx. tx.event < length comp.now.events.items) txs.now }
    requires rows { All (λ tx. tx.start ≤ MOST_CYCLES) txs.now }
    ensures shown { (scope : Scope) → map (shown_use names.now) uses.now ≡ flat_map (held_by scope) scope.invocations
        → IfOk result (λ holds. map (shown_hold names.now) holds.items ≡ holds_of scope (starts_of (component_tree names.now comp.now) txs.now)) }
    ensures numbered { IfOk result (λ holds. All (HoldHasNumbers names.now) holds.items) }
{
    let mut holds = Vec::new(alloc);
    for (number, tx) in txs.iter().enumerate() {
        let event = names.text(comp.events[tx.event as usize].name);
        push_holds(names, uses, event, tx.start, number as u64, &mut holds)?;
    }
    Ok(holds)
}

/// What transactions of the component with this number hold: transaction by transaction, in each the invocations in
/// order, in each the callee's events. Transactions are numbered from 0; they start by row 1,000,000.
pub fn holds(alloc: Global, ok: &FilOk, comp: usize, txs: &[Tx]) -> Result<Vec<Hold>, Memory>
    requires comp { comp < length ok.now.comps.items }
    requires events { (c : FilComp) → slice_get ok.now.comps.items comp ≡ Some c → All (λ tx. tx.event < length c.events.items) txs.now }
    requires rows { All (λ tx. tx.start ≤ MOST_CYCLES) txs.now }
    ensures shown { (c : Component) → slice_get (design_of ok.now) comp ≡ Some c
        → IfOk result (λ holds. map (shown_hold ok.now.names) holds.items ≡ holds_of (whole_scope (take comp (design_of ok.now)) c) (starts_of c txs.now)) }
    ensures numbered { IfOk result (λ holds. All (HoldHasNumbers ok.now.names) holds.items) }
{
    let design = ok.design();
    let known = component_names(alloc, &design.names, &design.comps[..comp])?;
    let instances = Instances::make(alloc, ok, &known, comp)?;
    let uses = component_uses(alloc, &design.names, &instances, &design.comps[comp])?;
    all_holds(alloc, &design.names, &design.comps[comp], &uses, txs)
}
