//! A design's components, and their signatures.
ghost use Rattle.std.specs.Prelude.{◌≡◌, ◌≤◌, length, map, option_map, All, Contains, IfOk, IfSome};
ghost use Rattle.hw_names.specs.Name.{text_of};
ghost use Rattle.fil_ast.specs.Numbers.{IsNumberOf, TimeHasNumber, EventHasNumber, InterfaceHasNumbers, PortHasNumbers, ComponentHasNumbers, HasNumbers};
ghost use Rattle.fil_ast.specs.Scope.{component_named};
ghost use Rattle.fil_ast.specs.Signature.{component_signature, event_number, interface_of, offset_of, sig_event, sig_port};
ghost use Rattle.fil_ast.specs.Tree.{component_tree, design_of, event_tree, interface_tree, port_tree, time_tree};
ghost use Rattle.fil_ast.specs.Typing.{HasWidths, IsWidth};
ghost use Rattle.fil_ast.specs.Limits.{KeepsDelayLimit, KeepsOffsetLimit, KeepsLimits};
ghost use Rattle.fil_sig.specs.Seen.{seen, seen_event, seen_offset, seen_port};

use crate::time_sig::{Delay, Off, SigEvent, SigPort, TimeSig};
use fil_ast::{EventDef, FilComp, FilDesign, FilPort, GoPort, Time};
use hw_bits::Memory;
use hw_limits::MOST_OFFSET;
use hw_names::{NameId, Names, Word};
use std::alloc::Global;

/// The component of a name: the first that has it. It goes over the components.
pub fn component_named<'a>(design: &'a FilDesign, name: &[u8]) -> Option<&'a FilComp>
    requires { HasNumbers design.now }
    ensures found { option_map (λ comp. component_tree design.now.names comp.now) result ≡ component_named (design_of design.now) name.now }
    ensures among { IfSome result (λ comp. Contains design.now.comps.items comp.now) }
{
    for comp in &design.comps {
        if design.names.text(comp.name) == name {
            return Some(comp);
        }
    }
    None
}

/// The interface port of an event: the first that is its.
pub fn interface_of(names: &Names, gos: &[GoPort], event: &[u8]) -> Option<NameId>
    requires { All (InterfaceHasNumbers names.now) gos.now }
    ensures found { option_map (text_of names.now) result ≡ interface_of (map (interface_tree names.now) gos.now) event.now }
    ensures numbered { IfSome result (IsNumberOf names.now) }
{
    for go in gos {
        if names.text(go.event) == event {
            return Some(go.name);
        }
    }
    None
}

/// The number of an event, counted from 0; past the last where no event has the name.
pub fn event_number(names: &Names, events: &[EventDef], event: NameId) -> u8
    requires events { All (EventHasNumber names.now) events.now }
    requires few { length events.now ≤ 16 }
    requires numbered { IsNumberOf names.now event }
    ensures { result ≡ event_number (map (event_tree names.now) events.now) (text_of names.now event) }
{
    let text = names.text(event);
    let mut number = 0;
    for known in events {
        if names.text(known.name) == text {
            return number;
        }
        number += 1;
    }
    number
}

/// A time, by the number of its event.
fn offset_of(names: &Names, events: &[EventDef], time: Time) -> Off
    requires events { All (EventHasNumber names.now) events.now }
    requires few { length events.now ≤ 16 }
    requires numbered { TimeHasNumber names.now time }
    requires small { time.plus ≤ MOST_OFFSET }
    ensures { seen_offset result ≡ offset_of (map (event_tree names.now) events.now) (time_tree names.now time) }
{
    Off {
        event: event_number(names, events, time.event),
        plus: time.plus as u64,
    }
}

/// An event of a signature.
fn sig_event(
    alloc: Global,
    names: &Names,
    gos: &[GoPort],
    event: EventDef,
) -> Result<SigEvent, Memory>
    requires interfaces { All (InterfaceHasNumbers names.now) gos.now }
    requires numbered { EventHasNumber names.now event }
    requires small { KeepsDelayLimit event }
    ensures { IfOk result (λ e. seen_event e ≡ sig_event (map (interface_tree names.now) gos.now) (event_tree names.now event)) }
{
    let text = names.text(event.name);
    let go = match interface_of(names, gos, text) {
        Some(port) => Some(Word::make(alloc, names.text(port))?),
        None => None,
    };
    let name = Word::make(alloc, text)?;
    Ok(SigEvent {
        name,
        delay: Delay::Fixed(event.delay as u64),
        go,
    })
}

/// The events of a signature.
fn sig_events(
    alloc: Global,
    names: &Names,
    gos: &[GoPort],
    events: &[EventDef],
) -> Result<Vec<SigEvent>, Memory>
    requires interfaces { All (InterfaceHasNumbers names.now) gos.now }
    requires numbered { All (EventHasNumber names.now) events.now }
    requires small { All KeepsDelayLimit events.now }
    ensures { IfOk result (λ made. map seen_event made.items
        ≡ map (sig_event (map (interface_tree names.now) gos.now)) (map (event_tree names.now) events.now)) }
{
    let mut made = Vec::new(alloc);
    for event in events {
        made.push(sig_event(alloc, names, gos, *event)?)?;
    }
    Ok(made)
}

/// A data port of a signature.
fn sig_port(
    alloc: Global,
    names: &Names,
    events: &[EventDef],
    port: FilPort,
) -> Result<SigPort, Memory>
    requires events { All (EventHasNumber names.now) events.now }
    requires few { length events.now ≤ 16 }
    requires numbered { PortHasNumbers names.now port }
    requires small { KeepsOffsetLimit port }
    requires wide { IsWidth port.width }
    ensures { IfOk result (λ p. seen_port p ≡ sig_port (map (event_tree names.now) events.now) (port_tree names.now port)) }
{
    let name = Word::make(alloc, names.text(port.name))?;
    Ok(SigPort {
        name,
        from: offset_of(names, events, port.from),
        to: offset_of(names, events, port.to),
        width: port.width as u8,
    })
}

/// The data ports of a signature.
fn sig_ports(
    alloc: Global,
    names: &Names,
    events: &[EventDef],
    ports: &[FilPort],
) -> Result<Vec<SigPort>, Memory>
    requires events { All (EventHasNumber names.now) events.now }
    requires few { length events.now ≤ 16 }
    requires numbered { All (PortHasNumbers names.now) ports.now }
    requires small { All KeepsOffsetLimit ports.now }
    requires wide { All (λ port. IsWidth port.width) ports.now }
    ensures { IfOk result (λ made. map seen_port made.items
        ≡ map (sig_port (map (event_tree names.now) events.now)) (map (port_tree names.now) ports.now)) }
{
    let mut made = Vec::new(alloc);
    for port in ports {
        made.push(sig_port(alloc, names, events, *port)?)?;
    }
    Ok(made)
}

/// The signature of a component.
pub fn component_signature(alloc: Global, names: &Names, comp: &FilComp) -> Result<TimeSig, Memory>
    requires numbered { ComponentHasNumbers names.now comp.now }
    requires small { KeepsLimits comp.now }
    requires few { length comp.now.events.items ≤ 16 }
    requires wide { HasWidths (component_tree names.now comp.now) }
    ensures { IfOk result (λ sig. seen sig ≡ component_signature (component_tree names.now comp.now)) }
{
    let events = sig_events(alloc, names, &comp.gos, &comp.events)?;
    let ins = sig_ports(alloc, names, &comp.events, &comp.ins)?;
    let outs = sig_ports(alloc, names, &comp.events, &comp.outs)?;
    Ok(TimeSig { events, ins, outs })
}
