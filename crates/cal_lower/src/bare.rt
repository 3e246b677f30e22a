//! Whether control starts a component, and the ports that are then implied.
ghost use Rattle.std.specs.Prelude.{◌≡◌, List, map, All, IfOk, codes};
ghost use Rattle.hw_names.specs.Name.{KeepsTexts, Text};
ghost use Rattle.cal_ast.specs.Numbers.{ComponentHasNumbers, PinHasNumber, PortHasNumbers, SetHasNumbers};
ghost use Rattle.cal_ast.specs.Ports.{drives_done, has_pin, is_bare, is_own, with_pin};
ghost use Rattle.cal_ast.specs.Tree.{assignment_tree, component_tree, pin_tree, port_tree};
ghost use Rattle.cal_lower.specs.inside.Labels.{KeepsLabels};
ghost use Rattle.cal_lower.specs.inside.Shown.{ShowAll};

use crate::labels::Labels;
use cal_ast::{CalComp, CalPin, CalPort, ControlPart};
use cal_copy::add_name;
use hw_bits::Memory;
use hw_names::Names;
use std::alloc::Global;

/// Whether no control starts the component: it has no control section, or an empty one and a continuous assignment of `done`.
pub(crate) fn is_bare(names: &Names, comp: &CalComp) -> bool
    requires { ComponentHasNumbers names.now comp.now }
    ensures { result ≡ is_bare (component_tree names.now comp.now) }
{
    match &comp.control {
        ControlPart::Absent => true,
        ControlPart::Empty => drives_done(names, comp),
        ControlPart::Body(_) => false,
    }
}

/// Whether the port is the component's own port `done`.
fn is_own_done(names: &Names, port: CalPort) -> bool
    requires { PortHasNumbers names.now port }
    ensures { result ≡ is_own (codes "done") (port_tree names.now port) }
{
    match port.cell {
        None => names.text(port.port) == b"done".as_slice(),
        Some(_) => false,
    }
}

/// Whether a continuous assignment drives the component's own port `done`.
fn drives_done(names: &Names, comp: &CalComp) -> bool
    requires { All (SetHasNumbers names.now) comp.now.sets.items }
    ensures { result ≡ drives_done (map (assignment_tree names.now) comp.now.sets.items) }
{
    for set in &comp.sets {
        if is_own_done(names, set.dst) {
            return true;
        }
    }
    false
}

/// Whether one of the pins has this name.
fn has_pin(names: &Names, pins: &[CalPin], name: &[u8]) -> bool
    requires { All (PinHasNumber names.now) pins.now }
    ensures { result ≡ has_pin (map (pin_tree names.now) pins.now) name.now }
{
    for pin in pins {
        if names.text(pin.name) == name {
            return true;
        }
    }
    false
}

/// The pins, and one of this name and of one bit where there is none.
pub(crate) fn with_pin(
    alloc: Global,
    labels: &mut Labels,
    pins: &[CalPin],
    name: &[u8],
) -> Result<Vec<CalPin>, Memory>
    requires { All (PinHasNumber labels.old.names) pins.now }
    ensures kept { KeepsLabels labels.old labels.new }
    ensures pins { (source : List Text) → KeepsTexts source labels.old.names → All (PinHasNumber source) pins.now
        → IfOk result (λ all. ShowAll PinHasNumber pin_tree labels.new.names (with_pin name.now (map (pin_tree source) pins.now)) all.items) }
{
    let mut all = Vec::from_slice(alloc, pins)?;
    if has_pin(&labels.names, pins, name) {
        return Ok(all);
    }
    let added = add_name(&mut labels.names, name)?;
    all.push(CalPin {
        name: added,
        width: 1,
    })?;
    Ok(all)
}
