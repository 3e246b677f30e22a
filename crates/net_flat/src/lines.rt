//! The ports, cells and assignments of an instance, with full names.
ghost use Rattle.std.specs.Prelude.{◌≡◌, List, [], ◌∷◌, ◌++◌, All, filter, map, IfOk, OnOk};
ghost use Rattle.hw_names.specs.Name.{KeepsTexts, Path, text_of};
ghost use Rattle.hw_prims.specs.Table.{is_primitive};
ghost use Rattle.cal_ast.specs.Numbers as cal;
ghost use Rattle.cal_ast.specs.Tree.{CellDef, assignment_tree, cell_tree, pin_tree};
ghost use Rattle.net_core.specs.Guard.{guard_option};
ghost use Rattle.net_core.specs.Netlist.{CellLine};
ghost use Rattle.cal_ast.specs.Keeping.{flat_cell};
ghost use Rattle.net_flat.specs.Listing.{flat_pin, flat_set};
ghost use Rattle.net_flat.specs.inside.Placed.{port_text, prefix_of};
ghost use Rattle.net_flat.specs.inside.StandFor.{AreCells, ArePins, AreSets, IsCell, IsPin, IsSet, IsWhen};

use crate::comps::is_primitive;
use crate::guards::{guard_at, source_at};
use crate::texts::{name_at, number_of, port_at};
use cal_ast::{Assign, CalCell, CalPin, CalPort};
use hw_bits::Memory;
use hw_names::{NameId, Names};
use hw_prims::is_memory;
use net_core::{Guard, NetAssign, NetCell, NetPort};
use std::alloc::Global;

/// A port of an instance's component.
fn pin_at(
    alloc: Global,
    names: &mut Names,
    source: &Names,
    prefix: &[u8],
    pin: CalPin,
) -> Result<NetPort, Memory>
    requires { cal.PinHasNumber source.now pin }
    ensures pin { (path : Path) → prefix.now ≡ prefix_of path → IfOk result (IsPin names.new (flat_pin path (pin_tree source.now pin))) }
    ensures kept { KeepsTexts names.old names.new }
{
    let name = name_at(alloc, names, prefix, source.text(pin.name))?;
    let width = pin.width;
    Ok(NetPort { name, width })
}

/// The ports of an instance's component.
pub(crate) fn pins_at(
    alloc: Global,
    names: &mut Names,
    source: &Names,
    prefix: &[u8],
    pins: &[CalPin],
) -> Result<Vec<NetPort>, Memory>
    requires { All (cal.PinHasNumber source.now) pins.now }
    ensures pins { (path : Path) → prefix.now ≡ prefix_of path
        → IfOk result (λ found. ArePins names.new (map (flat_pin path) (map (pin_tree source.now) pins.now)) found.items) }
    ensures kept { KeepsTexts names.old names.new }
{
    let mut found = Vec::new(alloc);
    for pin in pins {
        found.push(pin_at(alloc, names, source, prefix, *pin)?)?;
    }
    Ok(found)
}

/// A cell of a primitive. One of the top, whose full names have no prefix, may be shown.
fn cell_at(
    alloc: Global,
    names: &mut Names,
    source: &Names,
    prefix: &[u8],
    cell: &CalCell,
) -> Result<NetCell, Memory>
    requires { cal.CellHasNumbers source.now cell.now }
    ensures cell { (path : Path) → prefix.now ≡ prefix_of path → IfOk result (IsCell names.new (flat_cell path (cell_tree source.now cell.now))) }
    ensures kept { KeepsTexts names.old names.new }
{
    let made = source.text(cell.made);
    let name = name_at(alloc, names, prefix, source.text(cell.name))?;
    let prim = number_of(names, made)?;
    let params = Vec::from_slice(alloc, &cell.params)?;
    let shown = prefix.is_empty() && cell.external && is_memory(made);
    Ok(NetCell {
        name,
        prim,
        params,
        shown,
    })
}

/// Puts a cell last if it is a primitive's.
fn put_cell(
    alloc: Global,
    names: &mut Names,
    found: &mut Vec<NetCell>,
    source: &Names,
    prefix: &[u8],
    cell: &CalCell,
) -> Result<(), Memory>
    requires { cal.CellHasNumbers source.now cell.now }
    ensures cells { (path : Path) (lines : List CellLine) → prefix.now ≡ prefix_of path → AreCells names.old lines found.old.items
        → OnOk result (AreCells names.new
        (lines ++ map (flat_cell path) (filter (λ (c : CellDef). is_primitive c.made) (cell_tree source.now cell.now ∷ []))) found.new.items) }
    ensures kept { KeepsTexts names.old names.new }
{
    if !is_primitive(source.text(cell.made)) {
        return Ok(());
    }
    found.push(cell_at(alloc, names, source, prefix, cell)?)?;
    Ok(())
}

/// The cells of primitives.
pub(crate) fn cells_at(
    alloc: Global,
    names: &mut Names,
    source: &Names,
    prefix: &[u8],
    cells: &[CalCell],
) -> Result<Vec<NetCell>, Memory>
    requires { All (cal.CellHasNumbers source.now) cells.now }
    ensures cells { (path : Path) → prefix.now ≡ prefix_of path
        → IfOk result (λ found. AreCells names.new
        (map (flat_cell path) (filter (λ (c : CellDef). is_primitive c.made) (map (cell_tree source.now) cells.now))) found.items) }
    ensures kept { KeepsTexts names.old names.new }
{
    let mut found = Vec::new(alloc);
    for cell in cells {
        put_cell(alloc, names, &mut found, source, prefix, cell)?;
    }
    Ok(found)
}

/// The guard of an assignment, if it has one.
fn when_at(
    alloc: Global,
    names: &mut Names,
    source: &Names,
    prefix: &[u8],
    guard: &Option<Guard<CalPort>>,
) -> Result<Option<Guard<NameId>>, Memory>
    requires { cal.WhenHasNumbers source.now guard.now }
    ensures guard { IfOk result (IsWhen names.new (guard_option (port_text source.now prefix.now) guard.now)) }
    ensures kept { KeepsTexts names.old names.new }
{
    match guard {
        None => Ok(None),
        Some(guard) => Ok(Some(guard_at(alloc, names, source, prefix, guard)?)),
    }
}

/// An assignment.
fn set_at(
    alloc: Global,
    names: &mut Names,
    source: &Names,
    prefix: &[u8],
    set: &Assign,
) -> Result<NetAssign, Memory>
    requires { cal.SetHasNumbers source.now set.now }
    ensures set { (path : Path) → prefix.now ≡ prefix_of path → IfOk result (IsSet names.new (flat_set path (assignment_tree source.now set.now))) }
    ensures kept { KeepsTexts names.old names.new }
{
    let dst = port_at(alloc, names, source, prefix, set.dst)?;
    let guard = when_at(alloc, names, source, prefix, &set.guard)?;
    let src = source_at(alloc, names, source, prefix, set.src)?;
    Ok(NetAssign { dst, guard, src })
}

/// The assignments.
pub(crate) fn sets_at(
    alloc: Global,
    names: &mut Names,
    source: &Names,
    prefix: &[u8],
    sets: &[Assign],
) -> Result<Vec<NetAssign>, Memory>
    requires { All (cal.SetHasNumbers source.now) sets.now }
    ensures sets { (path : Path) → prefix.now ≡ prefix_of path
        → IfOk result (λ found. AreSets names.new (map (flat_set path) (map (assignment_tree source.now) sets.now)) found.items) }
    ensures kept { KeepsTexts names.old names.new }
{
    let mut found = Vec::new(alloc);
    for set in sets {
        found.push(set_at(alloc, names, source, prefix, set)?)?;
    }
    Ok(found)
}
