//! The instances of components in a component, as cells of its graph of ports.
//!
//! Only ports that the component's text names are in its graph. A port of an instance that is not named reads nothing or is read
//! by nothing, so it lies on no way between the component's own ports, and on no loop; and an instance costs nothing unless it is
//! named. Where the name of an instance has a dot, a full name can be that of ports of two instances, so all of its ports are in.
ghost use Rattle.std.specs.Prelude.{◌≡◌, ◌↔◌, ◌<◌, ℕ, Some, length, option_map, slice_get, All, Contains, IfOk, IsTrue, OnOk};
ghost use Rattle.hw_cells.specs.Cells.{AreOfParts};
ghost use Rattle.hw_names.specs.Name.{AreDistinct, HasNoDot, Text, dotted};
ghost use Rattle.fil_loops.specs.inside.CellPins.{AddsInstances, AreInstancePorts, HasPins, IsPortOfInstance, TellsPin};
ghost use Rattle.fil_loops.specs.inside.Cells.{AreCells, IsInsideAt, NumbersDotted};
ghost use Rattle.fil_loops.specs.inside.PortGraph.{Adds, NoPair};
ghost use Rattle.fil_loops.specs.declared.inside.Inside.{Inside};

use crate::graph::PortGraph;
use crate::inside::Inside;
use crate::ports::Ports;
use hw_bits::Memory;
use hw_cells::{Cell, CellPin, Pin};
use hw_graph::{Entry, gather};
use hw_names::Names;
use hw_texts::text_at;
use std::alloc::Global;

/// Adds for each instance whose port the name can be its number, with the node. The port's name stands behind a dot.
fn add_instances(
    entries: &mut Vec<Entry>,
    ports: &Ports,
    name: &[u8],
    node: usize,
) -> Result<(), Memory>
    requires { AreDistinct ports.now.instances }
    ensures { OnOk result (AddsInstances ports.now.instances name.now node entries.old.items entries.new.items) }
{
    for place in 0..name.len() {
        if name[place] == b'.' {
            if let Some(instance) = ports.instance(&name[..place]) {
                entries.push(Entry {
                    key: instance,
                    value: node,
                })?;
            }
        }
    }
    Ok(())
}

/// Whether no instance's name has a dot.
fn are_dotless(ports: &Ports) -> bool
    ensures { IsTrue result → All HasNoDot ports.now.instances }
{
    for instance in 0..ports.instances() {
        if ports.instance_name(instance).contains(&b'.') {
            return false;
        }
    }
    true
}

/// Adds for the instance whose port the node is its number, with the node, where no instance's name has a dot. A full name is
/// made only where what stands before its last dot is no instance's name.
fn add_by_key(entries: &mut Vec<Entry>, ports: &Ports, node: usize) -> Result<(), Memory>
    requires within { node < length ports.now.names }
    requires distinct { AreDistinct ports.now.instances }
    requires dotless { All HasNoDot ports.now.instances }
    ensures { (full : Text) → slice_get ports.now.names node ≡ Some full
        → OnOk result (AddsInstances ports.now.instances full node entries.old.items entries.new.items) }
{
    let Some((instance, _port)) = ports.of_instance(node) else {
        return Ok(());
    };
    if instance < ports.instances() {
        entries.push(Entry {
            key: instance,
            value: node,
        })?;
        return Ok(());
    }
    let name = ports.full_name(node)?;
    add_instances(entries, ports, &name, node)
}

/// For each instance the nodes of its ports, where no instance's name has a dot.
fn ports_by_keys(alloc: Global, ports: &Ports) -> Result<Vec<Entry>, Memory>
    requires distinct { AreDistinct ports.now.instances }
    requires dotless { All HasNoDot ports.now.instances }
    ensures { IfOk result (λ entries. AreInstancePorts ports.now entries.items) }
{
    let mut entries = Vec::new(alloc);
    for node in 0..ports.len() {
        add_by_key(&mut entries, ports, node)?;
    }
    Ok(entries)
}

/// For each instance the nodes of its ports, by the full names of all.
fn ports_by_names(alloc: Global, ports: &Ports) -> Result<Vec<Entry>, Memory>
    requires { AreDistinct ports.now.instances }
    ensures { IfOk result (λ entries. AreInstancePorts ports.now entries.items) }
{
    let mut entries = Vec::new(alloc);
    for node in 0..ports.len() {
        let name = ports.full_name(node)?;
        add_instances(&mut entries, ports, &name, node)?;
    }
    Ok(entries)
}

/// For each instance the nodes of its ports.
fn instance_ports(alloc: Global, ports: &Ports) -> Result<Vec<Entry>, Memory>
    requires { AreDistinct ports.now.instances }
    ensures { IfOk result (λ entries. AreInstancePorts ports.now entries.items) }
{
    if are_dotless(ports) {
        return ports_by_keys(alloc, ports);
    }
    ports_by_names(alloc, ports)
}

/// The number of the component that the instance of this number is made of, if it is made of one.
fn part_at(parts: &[Option<usize>], instance: usize) -> Option<usize>
    ensures { (part : ℕ) → (result ≡ Some part) ↔ (slice_get parts.now instance ≡ Some (Some part)) }
{
    *parts.get(instance)?
}

/// What is known of the component that the instance of this number is made of, if it is made of one.
fn inside_at<'w>(
    parts: &[Option<usize>],
    insides: &'w [Inside],
    instance: usize,
) -> Option<&'w Inside>
    ensures { (inside : Inside) → (option_map (λ found. found.now) result ≡ Some inside) ↔ IsInsideAt parts.now insides.now instance inside }
{
    insides.get(part_at(parts, instance)?)
}

/// Gives each port of an instance, by the names of what it is made of, a number.
fn number_all(graph: &mut PortGraph, instance: usize, names: &Names) -> Result<(), Memory>
    requires { instance < length graph.old.ports.instances }
    ensures adds { OnOk result (Adds NoPair graph.old graph.new) }
    ensures numbered { (inst : Text) → slice_get graph.old.ports.instances instance ≡ Some inst
        → OnOk result (All (λ name. Contains graph.new.ports.names (dotted inst name)) names.now) }
{
    for number in 0..names.len() {
        let _port = graph.port(instance, text_at(names, number))?;
    }
    Ok(())
}

/// Gives all ports of instances of components whose names have a dot numbers.
pub fn number_dotted(
    graph: &mut PortGraph,
    parts: &[Option<usize>],
    insides: &[Inside],
) -> Result<(), Memory>
    ensures adds { OnOk result (Adds NoPair graph.old graph.new) }
    ensures numbered { OnOk result (NumbersDotted parts.now insides.now graph.new.ports) }
{
    for instance in 0..graph.ports.instances() {
        if graph.ports.instance_name(instance).contains(&b'.') {
            if let Some(inside) = inside_at(parts, insides, instance) {
                number_all(graph, instance, &inside.names)?;
            }
        }
    }
    Ok(())
}

/// The port of this name, with its node in the graph of what the instance is made of.
fn cell_pin(inside: &Inside, name: &[u8], port: usize) -> Option<CellPin>
    ensures { TellsPin inside.now name.now port result }
{
    let number = inside.names.find(name)?.0 as usize;
    let node = inside.graph.nodes.get(number).copied().flatten()?;
    Some(CellPin {
        pin: Pin { port, node },
        is_input: number < inside.graph.inputs,
    })
}

/// The port of the instance at this node, with its node in the graph of what the instance is made of. Its full name is made only
/// where it is cut at another dot than its last one.
fn pin_at(
    ports: &Ports,
    instance: usize,
    inside: &Inside,
    node: usize,
) -> Result<Option<CellPin>, Memory>
    requires instance { instance < length ports.now.instances }
    requires node { IsPortOfInstance ports.now instance node }
    ensures { (inst name : Text) → slice_get ports.now.instances instance ≡ Some inst → slice_get ports.now.names node ≡ Some (dotted inst name)
        → IfOk result (TellsPin inside.now name node) }
{
    if let Some((found, port)) = ports.of_instance(node) {
        if found == instance {
            return Ok(cell_pin(inside, port, node));
        }
    }
    // What stands before the port's name in the full name.
    let before = ports.instance_name(instance).len() + 1;
    let name = ports.full_name(node)?;
    Ok(cell_pin(inside, &name[before..], node))
}

/// The instance of this number as a cell, with those of its ports that are these nodes. It is made of the component of number
/// `part`, of which `inside` is known.
fn cell_of<'w>(
    ports: &Ports,
    instance: usize,
    part: usize,
    inside: &'w Inside,
    nodes: &[usize],
) -> Result<Cell<'w>, Memory>
    requires instance { instance < length ports.now.instances }
    requires nodes { All (IsPortOfInstance ports.now instance) nodes.now }
    ensures pins { IfOk result (HasPins ports.now instance inside.now nodes.now) }
    ensures graph { IfOk result (λ cell. (cell.part ≡ part) × (cell.reads.now ≡ inside.now.graph.reads)) }
{
    let alloc = ports.alloc();
    let mut cell = Cell {
        part,
        reads: &inside.graph.reads,
        told: None,
        outputs: Vec::new(alloc),
        inputs: Vec::new(alloc),
    };
    for node in nodes {
        let pin = pin_at(ports, instance, inside, *node)?;
        if let Some(found) = pin {
            if found.is_input {
                cell.inputs.push(found.pin)?;
            } else {
                cell.outputs.push(found.pin)?;
            }
        }
    }
    Ok(cell)
}

/// The instances of components, each with those of its ports that have numbers. `parts` are the numbers of the components that
/// instances are made of, and `insides` are known of those.
pub fn cells_of<'w>(
    alloc: Global,
    ports: &Ports,
    parts: &[Option<usize>],
    insides: &'w [Inside],
) -> Result<Vec<Cell<'w>>, Memory>
    ensures cells { IfOk result (λ cells. AreCells parts.now insides.now ports.now cells.items) }
    ensures parts { IfOk result (λ cells. AreOfParts cells.items) }
{
    let count = ports.instances();
    let entries = instance_ports(alloc, ports)?;
    let nodes = gather(alloc, entries.as_slice(), count)?;
    let mut cells = Vec::new(alloc);
    for instance in 0..count {
        if let Some(part) = part_at(parts, instance) {
            if let Some(inside) = insides.get(part) {
                cells.push(cell_of(ports, instance, part, inside, nodes.get(instance))?)?;
            }
        }
    }
    Ok(cells)
}
