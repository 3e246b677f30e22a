//! The rules F11 to F13 of an invocation: how it shares its instance with those before.
ghost use Rattle.std.specs.Prelude.{IfErr, OnOk};
ghost use Rattle.fil_ast.specs.Numbers.{ComponentHasNumbers};
ghost use Rattle.fil_ast.specs.Scope.{Scope, Invocation};
ghost use Rattle.fil_rules.specs.inside.Shared.{IsInvokedIn, KeepsSharing, TellsSharing};
ghost use Rattle.fil_place.specs.Starts.{ListsUses};

pub mod apart;
pub mod in_time;
pub mod interface;

use crate::rules::{Broken, Evidence, ItemEnd, Rule, breaks};
use crate::sharing::apart::meeting_cycle;
use crate::sharing::in_time::first_gap;
use crate::sharing::interface::triggers_with_interface;
use fil_place::{Callee, Offset, Place};

/// Judges an invocation of the instance with this number, a callee's, at these times by F11 to F13. It takes no memory.
pub fn judge_sharing(
    place: &Place,
    instance: usize,
    callee: &Callee,
    at: &[Offset],
) -> Result<(), ItemEnd>
    requires numbers { ComponentHasNumbers place.now.names.now place.now.comp.now }
    ensures kept { (with : Scope) (v : Invocation) → IsInvokedIn place.now instance callee.now at.now with v
        → ListsUses place.now.tables.now instance with v.inst → OnOk result (KeepsSharing with v) }
    ensures broken { (with : Scope) (v : Invocation) → IsInvokedIn place.now instance callee.now at.now with v
        → ListsUses place.now.tables.now instance with v.inst → IfErr result (TellsSharing with v) }
{
    let sig = callee.sig();
    if let Some(cycle) = meeting_cycle(place.tables, instance, sig, at) {
        let evidence = Evidence::Cycle(cycle);
        return Err(ItemEnd::Broken(Broken {
            rule: Rule::F11,
            evidence,
        }));
    }
    if let Some(meet) = first_gap(place, instance, sig, at) {
        let evidence = Evidence::Gap(meet);
        return Err(ItemEnd::Broken(Broken {
            rule: Rule::F12,
            evidence,
        }));
    }
    if !triggers_with_interface(place, instance, sig, at) {
        return Err(breaks(Rule::F13));
    }
    Ok(())
}
