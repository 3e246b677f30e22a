//! The cells and the ports of a lowered component.
ghost use Rattle.std.specs.Prelude.{◌≡◌, ◌++◌, List, map, flat_map, unwrap_or, All, IfOk, OnOk};
ghost use Rattle.hw_names.specs.Name.{KeepsTexts, Text, text_of};
ghost use Rattle.hw_prims.specs.Table.{pin};
ghost use Rattle.cal_ast.specs.Numbers.{CellHasNumbers, PinHasNumber};
ghost use Rattle.cal_ast.specs.Tree.{cell_tree, pin_tree};
ghost use Rattle.fil_ast.specs.Numbers.{ComponentHasNumbers, InterfaceHasNumbers, IsNumberOf, PortHasNumbers};
ghost use Rattle.fil_ast.specs.Primitives.{table_name};
ghost use Rattle.fil_ast.specs.Scope.{instances_at};
ghost use Rattle.fil_ast.specs.Tree as tree;
ghost use Rattle.fil_ast.specs.Tree.{component_tree, interface_tree, port_tree};
ghost use Rattle.fil_promise.specs.Refines.{inputs_of, outputs_of};
ghost use Rattle.fil_lower.specs.inside.Lowering.{lowered_cell};
ghost use Rattle.fil_lower.specs.inside.Parts.{InstanceHasNumbers, instance_shown};

use crate::parts::{NewInstance, made};
use cal_ast::{CalCell, CalPin};
use fil_ast::{FilComp, FilPort, GoPort};
use fil_fsm::intern;
use fil_sig::table_name;
use hw_bits::Memory;
use hw_names::{NameId, Names};
use std::alloc::Global;

/// The number of what an instance is made of: the primitive of the table, or the component of the name. `own` are the
/// names of the Filament design; the table's name is added to `names` where it is new.
fn made_of(own: &Names, names: &mut Names, comp: NameId) -> Result<NameId, Memory>
    requires comp { IsNumberOf own.now comp }
    requires names { KeepsTexts own.now names.old }
    ensures kept { KeepsTexts names.old names.new }
    ensures made { IfOk result (λ made. text_of names.new made ≡ unwrap_or (table_name (text_of own.now comp)) (text_of own.now comp)) }
    ensures numbered { IfOk result (IsNumberOf names.new) }
{
    match table_name(own.text(comp)) {
        Some(table) => intern(names, table.as_bytes()),
        None => Ok(comp),
    }
}

/// The cell of an instance.
fn instance_cell(
    alloc: Global,
    own: &Names,
    names: &mut Names,
    instance: &NewInstance<'_>,
) -> Result<CalCell, Memory>
    requires instance { InstanceHasNumbers own.now instance.now }
    requires names { KeepsTexts own.now names.old }
    ensures kept { KeepsTexts names.old names.new }
    ensures cell { IfOk result (λ cell. cell_tree names.new cell ≡ lowered_cell (instance_shown own.now instance.now)) }
    ensures numbers { IfOk result (CellHasNumbers names.new) }
{
    Ok(CalCell {
        name: instance.name,
        made: made_of(own, names, instance.comp)?,
        params: Vec::from_slice(alloc, instance.params)?,
        external: false,
    })
}

/// A cell for each instance of the component.
pub(crate) fn instance_cells(
    alloc: Global,
    own: &Names,
    names: &mut Names,
    comp: &FilComp,
) -> Result<Vec<CalCell>, Memory>
    requires comp { ComponentHasNumbers own.now comp.now }
    requires names { KeepsTexts own.now names.old }
    ensures kept { KeepsTexts names.old names.new }
    ensures cells { IfOk result (λ cells. map (cell_tree names.new) cells.items ≡ map lowered_cell (flat_map instances_at (component_tree own.now comp.now).body)) }
    ensures numbers { IfOk result (λ cells. All (CellHasNumbers names.new) cells.items) }
{
    let mut cells = Vec::new(alloc);
    for stmt in &comp.body {
        if let Some(instance) = made(stmt) {
            cells.push(instance_cell(alloc, own, names, &instance)?)?;
        }
    }
    Ok(cells)
}

/// The pins of interface ports.
fn interface_pins(alloc: Global, gos: &[GoPort]) -> Result<Vec<CalPin>, Memory>
    ensures pins { (names : List Text) → IfOk result (λ pins. map (pin_tree names) pins.items ≡ map (λ (g : tree.Interface). pin g.name g.width) (map (interface_tree names) gos.now)) }
    ensures numbers { (names : List Text) → All (InterfaceHasNumbers names) gos.now → IfOk result (λ pins. All (PinHasNumber names) pins.items) }
{
    let mut pins = Vec::new(alloc);
    for go in gos {
        pins.push(CalPin {
            name: go.name,
            width: go.width,
        })?;
    }
    Ok(pins)
}

/// Puts the pins of data ports last.
fn push_pins(ports: &[FilPort], pins: &mut Vec<CalPin>) -> Result<(), Memory>
    ensures pins { (names : List Text) → OnOk result (map (pin_tree names) pins.new.items
        ≡ map (pin_tree names) pins.old.items ++ map (λ (p : tree.DataPort). pin p.name p.width) (map (port_tree names) ports.now)) }
    ensures numbers { (names : List Text) → All (PortHasNumbers names) ports.now → All (PinHasNumber names) pins.old.items → OnOk result (All (PinHasNumber names) pins.new.items) }
{
    for port in ports {
        pins.push(CalPin {
            name: port.name,
            width: port.width,
        })?;
    }
    Ok(())
}

/// The input pins of a component: its interface ports, and then its data inputs.
pub(crate) fn input_pins(alloc: Global, comp: &FilComp) -> Result<Vec<CalPin>, Memory>
    ensures pins { (names : List Text) → IfOk result (λ pins. map (pin_tree names) pins.items ≡ inputs_of (component_tree names comp.now)) }
    ensures numbers { (names : List Text) → ComponentHasNumbers names comp.now → IfOk result (λ pins. All (PinHasNumber names) pins.items) }
{
    let mut pins = interface_pins(alloc, &comp.gos)?;
    push_pins(&comp.ins, &mut pins)?;
    Ok(pins)
}

/// The output pins of a component.
pub(crate) fn output_pins(alloc: Global, comp: &FilComp) -> Result<Vec<CalPin>, Memory>
    ensures pins { (names : List Text) → IfOk result (λ pins. map (pin_tree names) pins.items ≡ outputs_of (component_tree names comp.now)) }
    ensures numbers { (names : List Text) → ComponentHasNumbers names comp.now → IfOk result (λ pins. All (PinHasNumber names) pins.items) }
{
    let mut pins = Vec::new(alloc);
    push_pins(&comp.outs, &mut pins)?;
    Ok(pins)
}
