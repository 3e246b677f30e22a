//! The instances of a design below its top.
ghost use Rattle.std.specs.Prelude.{◌≡◌, List, ◌∷◌, [], ◌++◌, length, flat_map, map, All, IfOk, OnOk};
ghost use Rattle.cal_ast.specs.Numbers.{CellHasNumbers, ComponentHasNumbers, HasNumbers};
ghost use Rattle.cal_ast.specs.Tree.{cell_tree, component_tree, design_of};
ghost use Rattle.hw_names.specs.Name.{Path};
ghost use Rattle.net_flat.specs.inside.Levels.{below, children, levels, parts_in};
ghost use Rattle.net_flat.specs.Listing as listing;
ghost use Rattle.net_flat.specs.inside.Placed.{AreInstances, HasComps, InstanceHasNumbers, prefix_of};

use crate::comps::Comps;
use crate::texts::prefix_below;
use cal_ast::{CalCell, CalComp, CalDesign};
use hw_bits::Memory;
use std::alloc::Global;

/// An instance: what full names in it begin with, and its component.
#[derive(Drop)]
pub(crate) struct Instance<'a> {
    pub(crate) prefix: Vec<u8>,
    pub(crate) comp: &'a CalComp,
}

/// Puts the instance that a cell of an instance makes last, if it makes one.
fn put_child<'a>(
    alloc: Global,
    found: &mut Vec<Instance<'a>>,
    design: &CalDesign,
    comps: &Comps<'a>,
    prefix: &[u8],
    cell: &CalCell,
) -> Result<(), Memory>
    requires comps { HasComps design.now comps.now }
    requires cell { CellHasNumbers design.now.names cell.now }
    ensures { (trees : List listing.Instance) (path : Path) → prefix.now ≡ prefix_of path → AreInstances design.now.names trees found.old.items
        → OnOk result (AreInstances design.now.names
        (trees ++ map (below path) (parts_in (design_of design.now) (cell_tree design.now.names cell.now ∷ []))) found.new.items) }
{
    match comps.part(design, cell) {
        None => Ok(()),
        Some(comp) => {
            let prefix = prefix_below(alloc, prefix, design.names.text(cell.name))?;
            found.push(Instance { prefix, comp })?;
            Ok(())
        }
    }
}

/// Puts the instances directly below an instance last.
fn put_children<'a>(
    alloc: Global,
    found: &mut Vec<Instance<'a>>,
    design: &CalDesign,
    comps: &Comps<'a>,
    instance: &Instance<'a>,
) -> Result<(), Memory>
    requires comps { HasComps design.now comps.now }
    requires instance { InstanceHasNumbers design.now.names instance.now }
    ensures { (trees : List listing.Instance) (path : Path) → instance.now.prefix.items ≡ prefix_of path → AreInstances design.now.names trees found.old.items
        → OnOk result (AreInstances design.now.names
        (trees ++ children (design_of design.now) (path, component_tree design.now.names instance.now.comp.now)) found.new.items) }
{
    for cell in &instance.comp.cells {
        put_child(alloc, found, design, comps, &instance.prefix, cell)?;
    }
    Ok(())
}

/// The instances directly below these.
fn next_level<'a>(
    alloc: Global,
    design: &CalDesign,
    comps: &Comps<'a>,
    level: &[Instance<'a>],
) -> Result<Vec<Instance<'a>>, Memory>
    requires comps { HasComps design.now comps.now }
    requires numbers { All (InstanceHasNumbers design.now.names) level.now }
    ensures { (listed : List listing.Instance) → AreInstances design.now.names listed level.now
        → IfOk result (λ next. AreInstances design.now.names (flat_map (children (design_of design.now)) listed) next.items) }
{
    let mut next = Vec::new(alloc);
    for instance in level {
        put_children(alloc, &mut next, design, comps, instance)?;
    }
    Ok(next)
}

/// All instances of the design whose paths are shorter than it has components, the top first.
pub(crate) fn instances<'a>(
    alloc: Global,
    design: &'a CalDesign,
    top: &'a CalComp,
) -> Result<Vec<Instance<'a>>, Memory>
    requires numbers { HasNumbers design.now }
    requires top { ComponentHasNumbers design.now.names top.now }
    ensures { IfOk result (λ found. AreInstances design.now.names
        (levels (design_of design.now) (component_tree design.now.names top.now) (length design.now.comps.items)) found.items) }
{
    let comps = Comps::new(alloc, design)?;
    let prefix = Vec::new(alloc);
    let mut found = Vec::new(alloc);
    let mut level = vec![in alloc; Instance { prefix, comp: top }]?;
    for _ in 0..design.comps.len() {
        let next = next_level(alloc, design, &comps, &level)?;
        found.append(&mut level)?;
        level = next;
    }
    Ok(found)
}
