//! The rule F13: an event without an interface port triggers none that has one, and no instance twice.
ghost use Rattle.std.specs.Prelude.{◌≡◌, ◌↔◌, ◌⊎◌, Some, IsSome, IsTrue, slice_get};
ghost use Rattle.fil_ast.specs.Numbers.{ComponentHasNumbers};
ghost use Rattle.fil_ast.specs.Scope.{Scope, Invocation};
ghost use Rattle.fil_ast.specs.Sharing.{HasInterface, KeepsUsesApart, TriggersWithInterface};
ghost use Rattle.fil_ast.specs.Signature.{Signature};
ghost use Rattle.fil_ast.specs.Tree.{component_tree};
ghost use Rattle.fil_sig.specs.Seen.{seen, seen_event};
ghost use Rattle.fil_rules.specs.inside.Shared.{IsInvokedIn};
ghost use Rattle.fil_rules.specs.inside.Sharing.{IsMarkedAt, IsUsedBefore};
ghost use Rattle.fil_place.specs.Starts.{ListsUses};

use fil_ast::FilComp;
use fil_place::{Offset, Place, Tables, use_of};
use fil_sig::{SigEvent, TimeSig};
use hw_names::Names;

/// Whether the component's event of this name has an interface port.
fn has_interface(names: &Names, comp: &FilComp, event: &[u8]) -> bool
    requires { ComponentHasNumbers names.now comp.now }
    ensures { IsTrue result ↔ HasInterface (component_tree names.now comp.now) event.now }
{
    for go in &comp.gos {
        if names.text(go.event) == event {
            return true;
        }
    }
    false
}

/// Whether an earlier invocation of the instance with this number triggers the event with this number.
fn is_used(tables: &Tables, instance: usize, number: usize) -> bool
    ensures { (with : Scope) (v : Invocation) → ListsUses tables.now instance with v.inst
        → IsTrue result ↔ IsUsedBefore with v number }
{
    tables.starts.first_from(instance, number, 0).is_some()
}

/// Whether this event of the callee, which has this number, is to be triggered by an event with an interface port:
/// it has one itself, or an earlier invocation of the instance with this number triggers it too.
fn needs_interface(tables: &Tables, instance: usize, number: usize, event: &SigEvent) -> bool
    ensures { (with : Scope) (v : Invocation) → ListsUses tables.now instance with v.inst
        → IsTrue result ↔ (IsSome event.now.go ⊎ IsUsedBefore with v number) }
{
    event.go.is_some() || is_used(tables, instance, number)
}

/// F13 at this event of the callee, which has this number.
fn is_marked(place: &Place, instance: usize, at: &[Offset], number: usize, event: &SigEvent) -> bool
    requires numbers { ComponentHasNumbers place.now.names.now place.now.comp.now }
    ensures { (sig : Signature) (with : Scope) (v : Invocation)
        → IsInvokedIn place.now instance sig at.now with v → ListsUses place.now.tables.now instance with v.inst
        → slice_get sig.events number ≡ Some (seen_event event.now)
        → IsTrue result ↔ IsMarkedAt with v number }
{
    let Some(held) = use_of(at, number, event.delay) else {
        return true;
    };
    if !needs_interface(place.tables, instance, number, event) {
        return true;
    }
    match place.comp.events.get(held.at.event) {
        Some(event) => has_interface(place.names, place.comp, place.names.text(event.name)),
        None => true,
    }
}

/// F13 of an invocation at these times of the instance with this number.
pub fn triggers_with_interface(place: &Place, instance: usize, sig: &TimeSig, at: &[Offset]) -> bool
    requires numbers { ComponentHasNumbers place.now.names.now place.now.comp.now }
    ensures { (with : Scope) (v : Invocation)
        → IsInvokedIn place.now instance (seen sig.now) at.now with v → ListsUses place.now.tables.now instance with v.inst
        → KeepsUsesApart with v
        → IsTrue result ↔ TriggersWithInterface with v }
{
    for (number, event) in sig.events.iter().enumerate() {
        if !is_marked(place, instance, at, number, event) {
            return false;
        }
    }
    true
}
