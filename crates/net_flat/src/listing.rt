//! The netlist that lists a design's instances.
ghost use Rattle.std.specs.Prelude.{◌≡◌, ◌<◌, List, length, flat_map, All, IfOk};
ghost use Rattle.hw_names.specs.Name.{KeepsTexts, Path};
ghost use Rattle.cal_ast.specs.Numbers.{HasNumbers};
ghost use Rattle.cal_ast.specs.Tree.{component_tree, design_of};
ghost use Rattle.cal_ast.specs.Wired.{IsWired};
ghost use Rattle.net_flat.specs.Listing as listing;
ghost use Rattle.net_flat.specs.Listing.{wires_at, cells_at, sets_at};
ghost use Rattle.net_flat.specs.inside.ListingOf.{IsListingOf};
ghost use Rattle.net_flat.specs.inside.Placed.{AreInstances, InstanceHasNumbers, prefix_of};
ghost use Rattle.net_flat.specs.inside.StandFor.{AreCells, ArePins, AreSets};

use crate::instances::{Instance, instances};
use crate::lines::{cells_at, pins_at, sets_at};
use crate::texts::number_of;
use crate::top::top_of;
use cal_ast::CalDesign;
use hw_bits::Memory;
use hw_names::Names;
use net_core::{Net, NetAssign, NetCell, NetPort};
use std::alloc::Global;

/// The ports of an instance.
fn wires_of(
    alloc: Global,
    names: &mut Names,
    source: &Names,
    instance: &Instance,
) -> Result<Vec<NetPort>, Memory>
    requires { InstanceHasNumbers source.now instance.now }
    ensures wires { (path : Path) → instance.now.prefix.items ≡ prefix_of path
        → IfOk result (λ found. ArePins names.new (wires_at (path, component_tree source.now instance.now.comp.now)) found.items) }
    ensures kept { KeepsTexts names.old names.new }
{
    let mut found = pins_at(alloc, names, source, &instance.prefix, &instance.comp.ins)?;
    let mut outs = pins_at(alloc, names, source, &instance.prefix, &instance.comp.outs)?;
    found.append(&mut outs)?;
    Ok(found)
}

/// The ports of the instances.
fn wires(
    alloc: Global,
    names: &mut Names,
    source: &Names,
    instances: &[Instance],
) -> Result<Vec<NetPort>, Memory>
    requires { All (InstanceHasNumbers source.now) instances.now }
    ensures wires { (listed : List listing.Instance) → AreInstances source.now listed instances.now
        → IfOk result (λ found. ArePins names.new (flat_map wires_at listed) found.items) }
    ensures kept { KeepsTexts names.old names.new }
{
    let mut found = Vec::new(alloc);
    for instance in instances {
        let mut more = wires_of(alloc, names, source, instance)?;
        found.append(&mut more)?;
    }
    Ok(found)
}

/// The cells of primitives in an instance.
fn cells_of(
    alloc: Global,
    names: &mut Names,
    source: &Names,
    instance: &Instance,
) -> Result<Vec<NetCell>, Memory>
    requires { InstanceHasNumbers source.now instance.now }
    ensures cells { (path : Path) → instance.now.prefix.items ≡ prefix_of path
        → IfOk result (λ found. AreCells names.new (cells_at (path, component_tree source.now instance.now.comp.now)) found.items) }
    ensures kept { KeepsTexts names.old names.new }
{
    cells_at(alloc, names, source, &instance.prefix, &instance.comp.cells)
}

/// The cells of primitives in the instances.
fn cells(
    alloc: Global,
    names: &mut Names,
    source: &Names,
    instances: &[Instance],
) -> Result<Vec<NetCell>, Memory>
    requires { All (InstanceHasNumbers source.now) instances.now }
    ensures cells { (listed : List listing.Instance) → AreInstances source.now listed instances.now
        → IfOk result (λ found. AreCells names.new (flat_map cells_at listed) found.items) }
    ensures kept { KeepsTexts names.old names.new }
{
    let mut found = Vec::new(alloc);
    for instance in instances {
        let mut more = cells_of(alloc, names, source, instance)?;
        found.append(&mut more)?;
    }
    Ok(found)
}

/// The assignments in an instance.
fn sets_of(
    alloc: Global,
    names: &mut Names,
    source: &Names,
    instance: &Instance,
) -> Result<Vec<NetAssign>, Memory>
    requires { InstanceHasNumbers source.now instance.now }
    ensures sets { (path : Path) → instance.now.prefix.items ≡ prefix_of path
        → IfOk result (λ found. AreSets names.new (sets_at (path, component_tree source.now instance.now.comp.now)) found.items) }
    ensures kept { KeepsTexts names.old names.new }
{
    sets_at(alloc, names, source, &instance.prefix, &instance.comp.sets)
}

/// The assignments in the instances.
fn sets(
    alloc: Global,
    names: &mut Names,
    source: &Names,
    instances: &[Instance],
) -> Result<Vec<NetAssign>, Memory>
    requires { All (InstanceHasNumbers source.now) instances.now }
    ensures sets { (listed : List listing.Instance) → AreInstances source.now listed instances.now
        → IfOk result (λ found. AreSets names.new (flat_map sets_at listed) found.items) }
    ensures kept { KeepsTexts names.old names.new }
{
    let mut found = Vec::new(alloc);
    for instance in instances {
        let mut more = sets_of(alloc, names, source, instance)?;
        found.append(&mut more)?;
    }
    Ok(found)
}

/// The netlist that lists the design's instances from its top component.
pub(crate) fn list_design(alloc: Global, design: &CalDesign) -> Result<Net, Memory>
    requires some { 0 < length design.now.comps.items }
    requires numbers { HasNumbers design.now }
    requires wired { IsWired (design_of design.now) }
    ensures { IfOk result (IsListingOf (design_of design.now)) }
{
    let source = &design.names;
    let top = &design.comps[top_of(design)];
    let all = instances(alloc, design, top)?;
    let mut names = source.beside();
    let name = number_of(&mut names, source.text(top.name))?;
    let ins = pins_at(alloc, &mut names, source, &[], &top.ins)?;
    let outs = pins_at(alloc, &mut names, source, &[], &top.outs)?;
    let wires = wires(alloc, &mut names, source, &all[1..])?;
    let cells = cells(alloc, &mut names, source, &all)?;
    let sets = sets(alloc, &mut names, source, &all)?;
    Ok(Net {
        names,
        name,
        ins,
        outs,
        wires,
        cells,
        sets,
    })
}
