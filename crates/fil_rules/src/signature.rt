//! The rules F1, F2, F3, F5 and F6 at a component's signature.
ghost use Rattle.std.specs.Prelude.{◌≡◌, ◌↔◌, [], true, false, Ok, All, IsTrue, IfErr, OnOk, IfOk};
ghost use Rattle.fil_ast.specs.Evidence.{Nothing};
ghost use Rattle.fil_ast.specs.Naming.{HasNewNames, NamesEvents, component_names, event_names, port_names};
ghost use Rattle.fil_ast.specs.Numbers.{ComponentHasNumbers};
ghost use Rattle.fil_ast.specs.Rules.{AtSignature, all_rules};
ghost use Rattle.fil_ast.specs.Tree.{Design, component_tree};
ghost use Rattle.fil_rules.specs.LeastRule.{TellsLeast};

use crate::naming::{are_among, is_any_primitive};
use crate::rules::{ItemEnd, Rule, breaks};
use crate::timeline::has_short_ports;
use fil_ast::FilComp;
use fil_place::{Around, take_signature_names, used_event_ids};
use fil_sig::{has_shape, has_widths};
use hw_bits::Memory;
use hw_names::Names;
use std::alloc::Global;

/// Whether the signature keeps F1. Puts the names of its events and
/// of its ports into the two lists, where it does.
pub fn has_new_names(
    alloc: Global,
    around: &Around,
    events: &mut Names,
    ports: &mut Names,
) -> Result<bool, Memory>
    requires numbered { ComponentHasNumbers around.now.names.now around.now.comp.now }
    requires no_events { events.old ≡ [] }
    requires no_ports { ports.old ≡ [] }
    ensures kept { result ≡ Ok true → (earlier : Design) → around.now.earlier.now.names ≡ component_names earlier
        → HasNewNames earlier (component_tree around.now.names.now around.now.comp.now) }
    ensures broken { result ≡ Ok false → (earlier : Design) → around.now.earlier.now.names ≡ component_names earlier
        → ¬ HasNewNames earlier (component_tree around.now.names.now around.now.comp.now) }
    ensures events { result ≡ Ok true → events.new ≡ event_names (component_tree around.now.names.now around.now.comp.now) }
    ensures ports { result ≡ Ok true → ports.new ≡ port_names (component_tree around.now.names.now around.now.comp.now) }
{
    let name = around.names.text(around.comp.name);
    if is_any_primitive(name) {
        return Ok(false);
    }
    if around.earlier.names.find(name).is_some() {
        return Ok(false);
    }
    take_signature_names(alloc, around.names, around.comp, events, ports)
}

/// Whether the signature keeps F2, where `events` are the names of its events.
fn names_events(
    alloc: Global,
    names: &Names,
    comp: &FilComp,
    events: &Names,
) -> Result<bool, Memory>
    requires numbered { ComponentHasNumbers names.now comp.now }
    requires events { events.now ≡ event_names (component_tree names.now comp.now) }
    ensures { IfOk result (λ kept. IsTrue kept ↔ NamesEvents (component_tree names.now comp.now)) }
{
    let used = used_event_ids(alloc, comp)?;
    Ok(are_among(names, &used, events))
}

/// Judges a component's signature by F1, F2, F3, F5 and F6, and puts the names
/// of its events and of its ports into the two lists where it keeps them.
pub fn judge_signature(
    alloc: Global,
    around: &Around,
    events: &mut Names,
    ports: &mut Names,
) -> Result<(), ItemEnd>
    requires numbered { ComponentHasNumbers around.now.names.now around.now.comp.now }
    requires no_events { events.old ≡ [] }
    requires no_ports { ports.old ≡ [] }
    ensures kept { (earlier : Design) → around.now.earlier.now.names ≡ component_names earlier
        → OnOk result (All (λ rule. AtSignature rule earlier (component_tree around.now.names.now around.now.comp.now)) all_rules) }
    ensures broken { (earlier : Design) → around.now.earlier.now.names ≡ component_names earlier
        → IfErr result (TellsLeast (λ rule. AtSignature rule earlier (component_tree around.now.names.now around.now.comp.now)) (λ rule evidence. evidence ≡ Nothing)) }
    ensures events { OnOk result (events.new ≡ event_names (component_tree around.now.names.now around.now.comp.now)) }
    ensures ports { OnOk result (ports.new ≡ port_names (component_tree around.now.names.now around.now.comp.now)) }
{
    if !has_new_names(alloc, around, events, ports)? {
        return Err(breaks(Rule::F1));
    }
    if !names_events(alloc, around.names, around.comp, events)? {
        return Err(breaks(Rule::F2));
    }
    if !has_widths(around.comp) {
        return Err(breaks(Rule::F3));
    }
    if !has_shape(alloc, around.names, around.comp)? {
        return Err(breaks(Rule::F5));
    }
    if !has_short_ports(around.names, around.comp, events) {
        return Err(breaks(Rule::F6));
    }
    Ok(())
}
