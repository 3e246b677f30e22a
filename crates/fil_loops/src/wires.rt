//! The rule F14: which ports of a component read which within a row, and its least loop, component after component.
ghost use Rattle.std.specs.Prelude.{[], ◌∷◌, ◌++◌, ◌≡◌, ◌<◌, ◌≤◌, ◌^◌, IfOk, IsTrue, All, length, map, filter, slice_index_or, IfErr, OnOk};
ghost use Rattle.hw_cells.specs.Cells.{is_below};
ghost use Rattle.hw_graph.specs.Graph.{AreInRange};
ghost use Rattle.hw_names.specs.Name.{AreDistinct};
ghost use Rattle.fil_ast.specs.Numbers.{ComponentHasNumbers, PortHasNumbers};
ghost use Rattle.fil_ast.specs.Rules.{KeepsComponent, KeepsRules, all_rules};
ghost use Rattle.fil_ast.specs.Tree.{Component, Design, component_tree};
ghost use Rattle.fil_ast.specs.Wires.{whole_scope, HasNoLoop};
ghost use Rattle.fil_loops.specs.inside.Cells.{LeadsAsRead};
ghost use Rattle.fil_place.specs.Place.{IsPlaceIn};
ghost use Rattle.fil_loops.specs.inside.PortGraph.{Adds, HasInstances, NoPair};
ghost use Rattle.fil_loops.specs.inside.Reached.{AreNumbered, HasOrder, HasOwnReadings, port_names};
ghost use Rattle.fil_loops.specs.OwnPorts.{own_port_names};
ghost use Rattle.fil_loops.specs.Wired.{IsWired};
ghost use Rattle.fil_loops.specs.Wiring.{IsInside, ShowInsides, TellsLoop, TellsLeastLoop};

use crate::cells::{cells_of, number_dotted};
use crate::edges::add_body;
use crate::graph::PortGraph;
use crate::inside::{Inside, condensed, inside_of};
use crate::levels::parts_of;
use crate::ports::Ports;
use fil_ast::FilPort;
use fil_place::Place;
use hw_bits::Memory;
use hw_cells::flatten;
use hw_graph::{Groups, OrderEnd, least_loop_among, read_order};
use hw_names::{NameId, Names, Word};
use std::alloc::Global;

/// What is known of F14 after some components, which keep F1 to F13.
#[derive(Drop)]
pub enum Wired {
    /// None has a loop. Of each, what components that have instances of it need to know.
    Free(Vec<Inside>),
    /// The first component that has a loop, and its least loop.
    Looped { comp: NameId, ports: Vec<Word> },
}

/// What is known after one more component, which keeps F1 to F13, where `tables` show the whole of its body.
pub fn add_wires(alloc: Global, place: &Place, wired: Wired) -> Result<Wired, Memory>
    requires numbers { ComponentHasNumbers place.now.names.now place.now.comp.now }
    ensures { (comps : Design) → IsPlaceIn place.now (whole_scope comps (component_tree place.now.names.now place.now.comp.now))
        → KeepsRules all_rules comps → KeepsComponent all_rules comps (component_tree place.now.names.now place.now.comp.now) → IsWired place.now.names.now comps wired
        → IfOk result (IsWired place.now.names.now (comps ++ component_tree place.now.names.now place.now.comp.now ∷ [])) }
{
    let mut insides = match wired {
        Wired::Free(insides) => insides,
        Wired::Looped { comp, ports } => return Ok(Wired::Looped { comp, ports }),
    };
    match judge_wires(alloc, place, &insides) {
        Ok(own) => {
            insides.push(own)?;
            Ok(Wired::Free(insides))
        }
        Err(WireEnd::Loop(ports)) => Ok(Wired::Looped {
            comp: place.comp.name,
            ports,
        }),
        Err(WireEnd::Memory) => Err(Memory),
    }
}

/// Why nothing is known of what a component's outputs reach.
#[derive(Debug, Drop)]
pub enum WireEnd {
    /// Full names of ports: the least loop. Each port reads the next within a row, and the last reads the first.
    Loop(Vec<Word>),
    /// There was no memory.
    Memory,
}

impl From<Memory> for WireEnd {
    ghost use Rattle.std.specs.Prelude.{◌≡◌};
    ghost use Rattle.fil_loops.specs.declared.wires.WireEnd.{WireEnd};

    ghost from_gives = { λ memory end. end ≡ WireEnd.Memory };

    fn from(_memory: Memory) -> WireEnd {
        WireEnd::Memory
    }
}

/// Judges a component that keeps F1 to F13, as those before it do, by F14. The `tables` show the whole of its body, and
/// `insides` are those of the components before it. Tells what components that have instances of it need to know, or its least loop.
pub fn judge_wires(alloc: Global, place: &Place, insides: &[Inside]) -> Result<Inside, WireEnd>
    requires numbers { ComponentHasNumbers place.now.names.now place.now.comp.now }
    ensures kept { (comps : Design) → IsPlaceIn place.now (whole_scope comps (component_tree place.now.names.now place.now.comp.now))
        → ShowInsides comps insides.now → KeepsRules all_rules comps → KeepsComponent all_rules comps (component_tree place.now.names.now place.now.comp.now)
        → OnOk result (HasNoLoop comps (component_tree place.now.names.now place.now.comp.now)) }
    ensures inside { (comps : Design) → IsPlaceIn place.now (whole_scope comps (component_tree place.now.names.now place.now.comp.now))
        → ShowInsides comps insides.now → KeepsRules all_rules comps → KeepsComponent all_rules comps (component_tree place.now.names.now place.now.comp.now)
        → IfOk result (IsInside comps (component_tree place.now.names.now place.now.comp.now)) }
    ensures cycle { (comps : Design) → IsPlaceIn place.now (whole_scope comps (component_tree place.now.names.now place.now.comp.now))
        → ShowInsides comps insides.now → KeepsRules all_rules comps → KeepsComponent all_rules comps (component_tree place.now.names.now place.now.comp.now)
        → IfErr result (TellsLoop comps (component_tree place.now.names.now place.now.comp.now)) }
{
    let FlatGraph { ports, own, reads } = flat_graph(alloc, place, insides)?;
    match least_loop(alloc, &ports, &reads)? {
        None => Ok(condensed(alloc, inside_of(alloc, place, &own, reads)?)?),
        Some(ports) => Err(WireEnd::Loop(ports)),
    }
}

/// Which ports of a component read which within a row, through its instances too.
#[derive(Drop)]
struct FlatGraph<'a> {
    /// The ports by their numbers.
    ports: Ports<'a>,
    /// The numbers of the component's own ports, inputs first.
    own: Vec<usize>,
    /// For each node those that it reads. The ports are the first nodes.
    reads: Groups,
}

/// The graph of a component's ports and of its instances' graphs.
fn flat_graph<'a>(
    alloc: Global,
    place: &Place<'a>,
    insides: &[Inside],
) -> Result<FlatGraph<'a>, Memory>
    requires numbers { ComponentHasNumbers place.now.names.now place.now.comp.now }
    ensures leads { (comps : Design) → IsPlaceIn place.now (whole_scope comps (component_tree place.now.names.now place.now.comp.now))
        → ShowInsides comps insides.now → KeepsRules all_rules comps → KeepsComponent all_rules comps (component_tree place.now.names.now place.now.comp.now)
        → IfOk result (λ flat. LeadsAsRead comps (component_tree place.now.names.now place.now.comp.now) flat.ports.names flat.reads) }
    ensures own { (comps : Design) → IsPlaceIn place.now (whole_scope comps (component_tree place.now.names.now place.now.comp.now))
        → IfOk result (λ flat. AreNumbered flat.ports.names flat.own.items (own_port_names (component_tree place.now.names.now place.now.comp.now))) }
    ensures within { IfOk result (λ flat. All (λ port. port < length flat.ports.names) flat.own.items) }
    ensures distinct { IfOk result (λ flat. AreDistinct flat.ports.names) }
    ensures in_range { IfOk result (λ flat. AreInRange flat.reads) }
    ensures all { IfOk result (λ flat. length flat.ports.names ≤ length flat.reads) }
    ensures small { IfOk result (λ flat. length flat.reads < 2 ^ 32) }
{
    let ComponentGraph { mut graph, own } = component_graph(alloc, place)?;
    let parts = parts_of(alloc, place)?;
    number_dotted(&mut graph, &parts, insides)?;
    let PortGraph { ports, entries, .. } = graph;
    let count = ports.len();
    let cells = cells_of(alloc, &ports, &parts, insides)?;
    let reads = flatten(alloc, entries, count, &cells)?;
    Ok(FlatGraph { ports, own, reads })
}

/// Which ports of a component read which, but for what its instances of components pass on.
#[derive(Drop)]
pub struct ComponentGraph<'a> {
    pub graph: PortGraph<'a>,
    /// The numbers of its own ports, inputs first.
    pub own: Vec<usize>,
}

/// Which ports of a component read which, but for what its instances of components pass on.
pub fn component_graph<'a>(alloc: Global, place: &Place<'a>) -> Result<ComponentGraph<'a>, Memory>
    requires numbers { ComponentHasNumbers place.now.names.now place.now.comp.now }
    ensures reads { (comps : Design) → IsPlaceIn place.now (whole_scope comps (component_tree place.now.names.now place.now.comp.now))
        → IfOk result (λ made. HasOwnReadings comps (component_tree place.now.names.now place.now.comp.now) made.graph) }
    ensures instances { (comps : Design) → IsPlaceIn place.now (whole_scope comps (component_tree place.now.names.now place.now.comp.now))
        → IfOk result (λ made. HasInstances (whole_scope comps (component_tree place.now.names.now place.now.comp.now)) made.graph) }
    ensures own { (comps : Design) → IsPlaceIn place.now (whole_scope comps (component_tree place.now.names.now place.now.comp.now))
        → IfOk result (λ made. AreNumbered made.graph.ports.names made.own.items (own_port_names (component_tree place.now.names.now place.now.comp.now))) }
    ensures within { IfOk result (λ made. All (λ port. port < length made.graph.ports.names) made.own.items) }
{
    let mut graph = PortGraph::new(alloc, &place.tables.instances);
    add_body(&mut graph, place)?;
    let mut own = own_ports(alloc, &mut graph, place.names, &place.comp.ins)?;
    let outputs = own_ports(alloc, &mut graph, place.names, &place.comp.outs)?;
    own.extend_from_slice(&outputs)?;
    Ok(ComponentGraph { graph, own })
}

/// The numbers of ports of the component.
fn own_ports(
    alloc: Global,
    graph: &mut PortGraph,
    names: &Names,
    ports: &[FilPort],
) -> Result<Vec<usize>, Memory>
    requires numbers { All (PortHasNumbers names.now) ports.now }
    ensures numbered { IfOk result (λ numbers. AreNumbered graph.new.ports.names numbers.items (port_names names.now ports.now)) }
    ensures within { IfOk result (λ numbers. All (λ number. number < length graph.new.ports.names) numbers.items) }
    ensures same { OnOk result (Adds NoPair graph.old graph.new) }
{
    let mut numbers = Vec::new(alloc);
    for port in ports {
        let number = graph.named(names.text(port.name))?;
        numbers.push(number)?;
    }
    Ok(numbers)
}

/// Whether there is an order in which each port comes after all that it reads.
fn has_order(alloc: Global, reads: &Groups) -> Result<bool, Memory>
    requires { AreInRange reads.now }
    ensures { IfOk result (λ has. IsTrue has → HasOrder reads.now) }
{
    match read_order(alloc, reads) {
        Ok(_order) => Ok(true),
        Err(OrderEnd::Loop { ports: _some }) => Ok(false),
        Err(OrderEnd::Memory) => Err(Memory),
    }
}

/// The least loop, if there is a loop. Names are made only where there may be one, and full names only of its ports.
fn least_loop(alloc: Global, ports: &Ports, reads: &Groups) -> Result<Option<Vec<Word>>, Memory>
    requires distinct { AreDistinct ports.now.names }
    requires in_range { AreInRange reads.now }
    requires all { length ports.now.names ≤ length reads.now }
    requires room { length reads.now < 2 ^ 32 }
    ensures { (comps : Design) (c : Component) → LeadsAsRead comps c ports.now.names reads.now → IfOk result (TellsLeastLoop comps c) }
{
    if has_order(alloc, reads)? {
        return Ok(None);
    }
    let names = ports.names_in_order()?;
    match least_loop_among(alloc, reads, &names)? {
        Some(nodes) => Ok(Some(full_names(alloc, ports, &nodes)?)),
        None => Ok(None),
    }
}

/// The full names of those of the nodes that are ports; the nodes of instances' graphs have none.
fn full_names(alloc: Global, ports: &Ports, nodes: &[usize]) -> Result<Vec<Word>, Memory>
    ensures { IfOk result (λ words. words.items
        ≡ map (λ port. slice_index_or ports.now.names port []) (filter (is_below (length ports.now.names)) nodes.now)) }
{
    let mut words = Vec::new(alloc);
    for node in nodes {
        if *node < ports.len() {
            let name = ports.full_name(*node)?;
            words.push(Word::make(alloc, &name)?)?;
        }
    }
    Ok(words)
}
