//! C12: the least loop of a component's ports, by their full names.
ghost use Rattle.std.specs.Prelude.{◌≡◌, ℕ, ◌^◌, ◌<◌, ◌++◌, Some, length, map, filter, slice_get, IfOk, IfSome, IsSome, IsTrue, OnOk};
ghost use Rattle.std.specs.List.{flat_map};
ghost use Rattle.hw_cells.specs.Cells.{is_below};
ghost use Rattle.hw_graph.specs.Graph.{AreInRange};
ghost use Rattle.hw_names.specs.Name.{AreDistinct};
ghost use Rattle.cal_ast.specs.Rules.{KeepsRules};
ghost use Rattle.cal_ast.specs.Wires.{shown};
ghost use Rattle.cal_place.specs.Around.{comp_at, design_at};
ghost use Rattle.cal_loops.specs.inside.Cells.{LeadsAsRead};
ghost use Rattle.cal_wires.specs.Nodes.{Node, key_of, node_ports};
ghost use Rattle.cal_wires.specs.WireGraphs.{HasOrder};
ghost use Rattle.cal_loops.specs.inside.Wiring.{IsInside, ShowsParts, TellsLoop};

use crate::cells::cells_of;
use crate::cells::inside::{Inside, own_nodes};
use crate::cells::told_cells::ToldCells;
use cal_place::Place;
use cal_wires::{Ports, WireGraph, name_in, text_graph};
use hw_bits::Memory;
use hw_cells::{PartGraph, condense_graph, flatten};
use hw_graph::{Groups, OrderEnd, least_loop_among, read_order};
use hw_names::Word;
use std::alloc::Global;

/// What is known of C12 for a component.
#[derive(Drop)]
pub struct Judged {
    /// What components that have cells of it need to know; none where there are none.
    pub inside: Option<Inside>,
    /// Full names of ports: the least loop, if there is a loop. Each port reads the next within a row, and the last reads
    /// the first.
    pub least_loop: Option<Vec<Word>>,
}

/// Whether there is an order in which each port comes after all that it reads.
fn has_order(alloc: Global, reads: &Groups) -> Result<bool, Memory>
    requires { AreInRange reads.now }
    ensures { IfOk result (λ has. IsTrue has → HasOrder reads.now) }
{
    match read_order(alloc, reads) {
        Ok(_order) => Ok(true),
        Err(OrderEnd::Loop { ports: _some }) => Ok(false),
        Err(OrderEnd::Memory) => Err(Memory),
    }
}

/// Puts the full name last that the key tells, if it is a port's.
fn add_full_name(alloc: Global, names: &mut Vec<Word>, key: &[u8]) -> Result<(), Memory>
    ensures { (node : Node) → key.now ≡ key_of node → OnOk result (names.new.items ≡ names.old.items ++ map shown (node_ports node)) }
{
    match name_in(alloc, key)? {
        Some(name) => {
            names.push(name)?;
            Ok(())
        }
        None => Ok(()),
    }
}

/// The full names of those of the nodes that are ports; holes and the nodes of cells have none.
fn full_names(alloc: Global, ports: &Ports, numbers: &[usize]) -> Result<Vec<Word>, Memory>
    ensures { (node : ℕ → Node) → ((number : ℕ) → number < length ports.now.keys → slice_get ports.now.keys number ≡ Some (key_of (node number)))
        → IfOk result (λ names. names.items ≡ flat_map (λ number. map shown (node_ports (node number))) (filter (is_below (length ports.now.keys)) numbers.now)) }
{
    let mut names = Vec::new(alloc);
    for number in numbers {
        if *number < ports.len() {
            let key = ports.key_at(*number)?;
            add_full_name(alloc, &mut names, &key)?;
        }
    }
    Ok(names)
}

/// The least loop, if there is a loop. Full names are made of its ports alone.
fn least_loop(
    alloc: Global,
    place: &Place,
    ports: &Ports,
    reads: &Groups,
) -> Result<Option<Vec<Word>>, Memory>
    requires kept { KeepsRules (design_at place.now) }
    requires distinct { AreDistinct ports.now.keys }
    requires graph { LeadsAsRead (design_at place.now) (comp_at place.now) ports.now.keys reads.now }
    requires room { length reads.now < 2 ^ 32 }
    ensures { IfOk result (TellsLoop (design_at place.now) (comp_at place.now)) }
{
    if has_order(alloc, reads)? {
        return Ok(None);
    }
    let names = ports.names_in_order()?;
    match least_loop_among(alloc, reads, &names)? {
        Some(nodes) => Ok(Some(full_names(alloc, ports, &nodes)?)),
        None => Ok(None),
    }
}

/// What is known of a component that has cells of it, where it is one.
fn part_inside(
    alloc: Global,
    place: &Place,
    ports: &Ports,
    reads: Groups,
    is_part: bool,
) -> Result<Option<Inside>, Memory>
    requires kept { KeepsRules (design_at place.now) }
    requires distinct { AreDistinct ports.now.keys }
    requires graph { LeadsAsRead (design_at place.now) (comp_at place.now) ports.now.keys reads }
    ensures known { IsTrue is_part → IfOk result IsSome }
    ensures inside { IfOk result (λ inside. IfSome inside (IsInside (design_at place.now) (comp_at place.now))) }
{
    if !is_part {
        return Ok(None);
    }
    // The component stands in the design, so its ports have distinct names.
    let _comp = place.comp();
    let nodes = own_nodes(alloc, place, ports)?;
    let own = PartGraph {
        reads,
        nodes,
        inputs: place.signature().inputs,
    };
    let graph = condense_graph(alloc, own)?;
    let told = ToldCells::none(alloc);
    Ok(Some(Inside { graph, told }))
}

/// Judges a component of a design that keeps C1 to C11 by C12, where `insides` are those of its parts, by the numbers of the
/// components.
pub fn judge_loops(
    alloc: Global,
    place: &Place,
    insides: &[Option<Inside>],
    is_part: bool,
) -> Result<Judged, Memory>
    requires kept { KeepsRules (design_at place.now) }
    requires parts { ShowsParts (design_at place.now) place.now.number insides.now }
    ensures inside { IsTrue is_part → IfOk result (λ judged. IsSome judged.inside) }
    ensures shows { IfOk result (λ judged. IfSome judged.inside (IsInside (design_at place.now) (comp_at place.now))) }
    ensures cycle { IfOk result (λ judged. TellsLoop (design_at place.now) (comp_at place.now) judged.least_loop) }
{
    let graph = text_graph(alloc, place)?;
    let count = graph.ports.len();
    let cells = cells_of(place, &graph, insides)?;
    let WireGraph { ports, entries, .. } = graph;
    let reads = flatten(alloc, entries, count, &cells)?;
    let least_loop = least_loop(alloc, place, &ports, &reads)?;
    let inside = part_inside(alloc, place, &ports, reads, is_part)?;
    Ok(Judged { inside, least_loop })
}
