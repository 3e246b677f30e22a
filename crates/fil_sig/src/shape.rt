//! What F3 and F5 say of a component's signature.
ghost use Rattle.std.specs.Prelude.{◌≡◌, ◌≤◌, ◌↔◌, List, length, map, All, IsTrue, IfOk};
ghost use Rattle.hw_names.specs.Name.{Text, AreDistinct};
ghost use Rattle.fil_ast.specs.Numbers.{InterfaceHasNumbers, PortHasNumbers, ComponentHasNumbers};
ghost use Rattle.fil_ast.specs.Tree.{component_tree, port_tree, interface_tree};
ghost use Rattle.fil_ast.specs.Typing.{HasWidths, HasShape, IsInterval, IsWidth};
ghost use Rattle.fil_sig.specs.inside.Shape.{event_of, HasPlainShape, HasIntervals};

use crate::names::add_name;
use fil_ast::{FilComp, FilPort, GoPort};
use hw_bits::{MAX_WIDTH, Memory};
use hw_limits::MOST_EVENTS;
use hw_names::Names;
use std::alloc::Global;

/// Whether each port has a width.
fn are_widths(ports: &[FilPort]) -> bool
    ensures { IsTrue result ↔ All (λ port. IsWidth port.width) ports.now }
{
    ports
        .iter()
        .all(|port| port.width >= 1 && port.width <= MAX_WIDTH as u128)
}

/// Whether the signature keeps F3.
pub fn has_widths(comp: &FilComp) -> bool
    ensures { (names : List Text) → IsTrue result ↔ HasWidths (component_tree names comp.now) }
{
    are_widths(&comp.ins) && are_widths(&comp.outs)
}

/// Whether both times of each port name one event, the first before the second.
fn are_intervals(names: &Names, ports: &[FilPort]) -> bool
    requires { All (PortHasNumbers names.now) ports.now }
    ensures { IsTrue result ↔ All (λ port. IsInterval (port_tree names.now port)) ports.now }
{
    for port in ports {
        let one_event = names.text(port.from.event) == names.text(port.to.event);
        if !one_event || port.from.plus >= port.to.plus {
            return false;
        }
    }
    true
}

/// Whether the data ports' times are intervals.
fn has_intervals(names: &Names, comp: &FilComp) -> bool
    requires { ComponentHasNumbers names.now comp.now }
    ensures { IsTrue result ↔ HasIntervals names.now comp.now }
{
    are_intervals(names, &comp.ins) && are_intervals(names, &comp.outs)
}

/// Whether no two interface ports are of one event. It stops at the first that is.
fn are_apart(alloc: Global, names: &Names, gos: &[GoPort]) -> Result<bool, Memory>
    requires { All (InterfaceHasNumbers names.now) gos.now }
    ensures { IfOk result (λ apart. IsTrue apart ↔ AreDistinct (map (event_of names.now) gos.now)) }
{
    let mut seen = names.beside();
    for go in gos {
        if !add_name(&mut seen, names.text(go.event))? {
            return Ok(false);
        }
    }
    Ok(true)
}

/// Whether there are few events with delays of 1 or more, and interface ports of one bit.
fn has_plain_shape(comp: &FilComp) -> bool
    ensures { IsTrue result ↔ HasPlainShape comp.now }
{
    comp.events.len() <= MOST_EVENTS
        && comp.events.iter().all(|event| event.delay >= 1)
        && comp.gos.iter().all(|go| go.width == 1)
}

/// Whether the signature keeps F5.
pub fn has_shape(alloc: Global, names: &Names, comp: &FilComp) -> Result<bool, Memory>
    requires { ComponentHasNumbers names.now comp.now }
    ensures { IfOk result (λ kept. IsTrue kept ↔ HasShape (component_tree names.now comp.now)) }
{
    if !has_plain_shape(comp) || !has_intervals(names, comp) {
        return Ok(false);
    }
    are_apart(alloc, names, &comp.gos)
}
