//! F14 by levels: where each component has levels of its ports, none has a loop.
//!
//! A component's levels are those of its graph, to which an instance of a component gives only what the levels of that component
//! say. So no more is kept of a component than a number for each of its ports, and an instance costs as many steps as the text
//! names ports of it.
ghost use Rattle.std.specs.Prelude.{◌≡◌, ◌↔◌, ◌<◌, [], ◌∷◌, ◌++◌, ℕ, Some, map, All, length, slice_get, slice_index, IfNone, IfOk, IfSome, IsSome, IsTrue};
ghost use Rattle.hw_names.specs.Name.{AreDistinct, HasNoDot};
ghost use Rattle.fil_ast.specs.Numbers.{ComponentHasNumbers, PortHasNumbers, StatementHasNumbers};
ghost use Rattle.fil_ast.specs.Rules.{KeepsComponent, KeepsRules, all_rules};
ghost use Rattle.fil_ast.specs.Scope.{Instance, instances_at};
ghost use Rattle.fil_ast.specs.Tree.{Design, component_tree, statement_tree};
ghost use Rattle.fil_ast.specs.Wires.{HasNoLoop, whole_scope};
ghost use Rattle.fil_loops.specs.inside.PortsOfParts.{AreParts, HasAllPorts, IsPortOfPart, TellsPort};
ghost use Rattle.fil_loops.specs.Levels.{ShowAllLevels, ShowsLevels};
ghost use Rattle.fil_place.specs.Place.{IsPlaceIn};
ghost use Rattle.fil_loops.specs.OwnPorts.{own_port_names};
ghost use Rattle.fil_loops.specs.inside.Reached.{port_names};
ghost use Rattle.fil_loops.specs.declared.levels.Levels as of;

use crate::graph::PortGraph;
use crate::ports::Ports;
use crate::wires::{ComponentGraph, component_graph};
use fil_ast::{FilPort, Stmt};
use fil_place::{Earlier, Place};
use fil_sig::add_name;
use hw_bits::Memory;
use hw_levels::{CellPort, levels_of};
use hw_names::Names;
use std::alloc::Global;

/// Levels of a component's ports: what is read within a row has a lower one.
#[derive(Drop)]
pub struct Levels {
    /// The names of the ports, inputs first.
    pub names: Names,
    /// How many of them are inputs.
    pub inputs: usize,
    /// The level of each.
    pub levels: Vec<usize>,
}

/// The name of what a statement makes an instance of.
fn made_by<'a>(names: &'a Names, stmt: &Stmt) -> Option<&'a [u8]>
    requires { StatementHasNumbers names.now stmt.now }
    ensures none { IfNone result (instances_at (statement_tree names.now stmt.now) ≡ []) }
    ensures some { IfSome result (λ made. (i : Instance) × (instances_at (statement_tree names.now stmt.now) ≡ i ∷ []) × (i.made ≡ made.now)) }
{
    match stmt {
        Stmt::New { comp, .. } => Some(names.text(*comp)),
        Stmt::Both { comp, .. } => Some(names.text(*comp)),
        Stmt::Call { .. } | Stmt::Set { .. } => None,
    }
}

/// The number of the component of this name.
fn number_of(earlier: &Earlier, name: &[u8]) -> Option<usize>
    ensures { (n : ℕ) → (result ≡ Some n) ↔ (slice_get earlier.now.names n ≡ Some name.now) }
{
    let number = earlier.names.find(name)?;
    Some(number.0 as usize)
}

/// The numbers of the components that the instances are made of; none of a primitive.
pub fn parts_of(alloc: Global, place: &Place) -> Result<Vec<Option<usize>>, Memory>
    requires numbers { ComponentHasNumbers place.now.names.now place.now.comp.now }
    ensures distinct { AreDistinct place.now.earlier.now.names }
    ensures parts { (comps : Design) → IsPlaceIn place.now (whole_scope comps (component_tree place.now.names.now place.now.comp.now))
        → IfOk result (λ parts. AreParts comps (whole_scope comps (component_tree place.now.names.now place.now.comp.now)).instances parts.items) }
{
    // The names of components are distinct.
    let _count = place.earlier.names.len();
    let mut parts = Vec::new(alloc);
    for stmt in &place.comp.body {
        if let Some(made) = made_by(place.names, stmt) {
            parts.push(number_of(place.earlier, made))?;
        }
    }
    Ok(parts)
}

/// The port of this number in the graph, if it is one of an instance that is made of a component of which levels are known.
fn cell_port(
    ports: &Ports,
    parts: &[Option<usize>],
    levels: &[Levels],
    node: usize,
) -> Option<CellPort>
    requires { node < length ports.now.names }
    ensures node { IfSome result (λ port. port.node ≡ node) }
    ensures found { (instance pin : ℕ) (own : of.Levels) → IsPortOfPart ports.now parts.now levels.now node instance pin own
        → IsSome result × IfSome result (TellsPort node instance pin own) }
{
    let (instance, name) = ports.of_instance(node)?;
    let part = (*parts.get(instance)?)?;
    let own = levels.get(part)?;
    let pin = own.names.find(name)?.0 as usize;
    Some(CellPort {
        cell: instance,
        level: *own.levels.get(pin)?,
        node,
        is_input: pin < own.inputs,
    })
}

/// The ports in the graph of instances that are made of components of which levels are known.
fn cell_ports(
    alloc: Global,
    ports: &Ports,
    parts: &[Option<usize>],
    levels: &[Levels],
) -> Result<Vec<CellPort>, Memory>
    ensures all { IfOk result (λ cells. HasAllPorts ports.now parts.now levels.now cells.items) }
    ensures within { IfOk result (λ cells. All (λ port. port.node < length ports.now.names) cells.items) }
{
    let mut cells = Vec::new(alloc);
    for node in 0..ports.len() {
        if let Some(port) = cell_port(ports, parts, levels, node) {
            cells.push(port)?;
        }
    }
    Ok(cells)
}

/// Puts the names of the ports last, if none stands there already or has a dot; says whether it did.
fn add_names(own: &mut Names, names: &Names, ports: &[FilPort]) -> Result<bool, Memory>
    requires { All (PortHasNumbers names.now) ports.now }
    ensures added { IfOk result (λ done. IsTrue done → own.new ≡ own.old ++ port_names names.now ports.now) }
    ensures dotless { IfOk result (λ done. IsTrue done → All HasNoDot own.old → All HasNoDot own.new) }
{
    for port in ports {
        let name = names.text(port.name);
        if name.contains(&b'.') || !add_name(own, name)? {
            return Ok(false);
        }
    }
    Ok(true)
}

/// The names of the component's ports, inputs first; none where two are the same or one has a dot.
fn own_names(place: &Place) -> Result<Option<Names>, Memory>
    requires numbers { ComponentHasNumbers place.now.names.now place.now.comp.now }
    ensures names { IfOk result (λ found. IfSome found (λ own.
        own ≡ own_port_names (component_tree place.now.names.now place.now.comp.now))) }
    ensures distinct { IfOk result (λ found. IfSome found AreDistinct) }
    ensures dotless { IfOk result (λ found. IfSome found (All HasNoDot)) }
{
    let mut own = place.names.beside();
    if !add_names(&mut own, place.names, &place.comp.ins)? {
        return Ok(None);
    }
    if !add_names(&mut own, place.names, &place.comp.outs)? {
        return Ok(None);
    }
    // They are distinct.
    let _count = own.len();
    Ok(Some(own))
}

/// Of levels of the graph's ports those of these.
fn own_levels(alloc: Global, own: &[usize], levels: &[usize]) -> Result<Vec<usize>, Memory>
    requires { All (λ port. port < length levels.now) own.now }
    ensures { IfOk result (λ found. found.items ≡ map (slice_index levels.now) own.now) }
{
    let mut found = Vec::new(alloc);
    for port in own {
        found.push(levels[*port])?;
    }
    Ok(found)
}

/// Levels of the component's ports, where `levels` are those of the components before it; none where none were found.
fn levels_in(alloc: Global, place: &Place, levels: &[Levels]) -> Result<Option<Levels>, Memory>
    requires numbers { ComponentHasNumbers place.now.names.now place.now.comp.now }
    ensures levels { (comps : Design) → IsPlaceIn place.now (whole_scope comps (component_tree place.now.names.now place.now.comp.now))
        → ShowAllLevels comps levels.now → KeepsRules all_rules comps → KeepsComponent all_rules comps (component_tree place.now.names.now place.now.comp.now)
        → IfOk result (λ found. IfSome found (ShowsLevels comps (component_tree place.now.names.now place.now.comp.now))) }
    ensures no_loop { (comps : Design) → IsPlaceIn place.now (whole_scope comps (component_tree place.now.names.now place.now.comp.now))
        → ShowAllLevels comps levels.now → KeepsRules all_rules comps → KeepsComponent all_rules comps (component_tree place.now.names.now place.now.comp.now)
        → IfOk result (λ found. IfSome found (λ _. HasNoLoop comps (component_tree place.now.names.now place.now.comp.now))) }
{
    let Some(names) = own_names(place)? else {
        return Ok(None);
    };
    let ComponentGraph { graph, own } = component_graph(alloc, place)?;
    let parts = parts_of(alloc, place)?;
    let PortGraph { ports, entries, .. } = graph;
    let cells = cell_ports(alloc, &ports, &parts, levels)?;
    let Some(found) = levels_of(alloc, entries, cells, ports.len())? else {
        return Ok(None);
    };
    let levels = own_levels(alloc, &own, &found)?;
    Ok(Some(Levels {
        names,
        inputs: place.comp.ins.len(),
        levels,
    }))
}

/// The levels with those of one more component, which keeps F1 to F13; none where it has none.
pub fn add_levels(
    alloc: Global,
    place: &Place,
    levels: Vec<Levels>,
) -> Result<Option<Vec<Levels>>, Memory>
    requires numbers { ComponentHasNumbers place.now.names.now place.now.comp.now }
    ensures levels { (comps : Design) → IsPlaceIn place.now (whole_scope comps (component_tree place.now.names.now place.now.comp.now))
        → ShowAllLevels comps levels.items → KeepsRules all_rules comps → KeepsComponent all_rules comps (component_tree place.now.names.now place.now.comp.now)
        → IfOk result (λ found. IfSome found (λ more. ShowAllLevels (comps ++ component_tree place.now.names.now place.now.comp.now ∷ []) more.items)) }
    ensures no_loop { (comps : Design) → IsPlaceIn place.now (whole_scope comps (component_tree place.now.names.now place.now.comp.now))
        → ShowAllLevels comps levels.items → KeepsRules all_rules comps → KeepsComponent all_rules comps (component_tree place.now.names.now place.now.comp.now)
        → IfOk result (λ found. IfSome found (λ _. HasNoLoop comps (component_tree place.now.names.now place.now.comp.now))) }
{
    let mut levels = levels;
    let Some(own) = levels_in(alloc, place, &levels)? else {
        return Ok(None);
    };
    levels.push(own)?;
    Ok(Some(levels))
}
