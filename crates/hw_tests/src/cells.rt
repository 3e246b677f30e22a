//! One graph of a holder's ports and its cells' graphs, and graphs of a cell's ports alone, told by hand.
ghost use Rattle.std.specs.Prelude.{◌≡◌, ◌<◌, ◌≤◌, length, All, IfOk, IfSome, IsTrue};
ghost use Rattle.std.specs.Borrow.{Bor};
ghost use Rattle.hw_cells.specs.Cells.{AreOfParts, IsAskable, IsFit, IsPinWithin, IsTold};
ghost use Rattle.hw_cells.specs.declared.told.Told.{Told};
ghost use Rattle.hw_graph.specs.Graph.{AreInRange};

use crate::graphs::{Reads, all_reached, are_below, entries_of, graph};
use hw_bits::Memory;
use hw_cells::{Cell, Pin, Told, condense, flatten, tell};
use hw_graph::Groups;
use std::alloc::Global;
use std::test::Fail;

/// Pins of a cell: ports of its holder, and their nodes in its graph.
type Pins = &'static [(usize, usize)];

/// The outputs and inputs of a cell.
type Sides = (Pins, Pins);

/// So many ports has the holder.
const PORTS: usize = 4;

/// Cells of one component, what the holder's ports read beside them, and what they reach.
struct Case {
    /// How many nodes the component's graph has, and what reads what.
    nodes: usize,
    inside: Reads,
    cells: &'static [Sides],
    /// What the ports read at once.
    beside: Reads,
    /// For each port those that it reaches.
    reached: [&'static [usize]; PORTS],
}

const CASES: [Case; 7] = [
    // One output and one input: a pair.
    Case {
        nodes: 3,
        inside: &[(0, 1), (1, 2)],
        cells: &[(&[(0, 0)], &[(2, 2)])],
        beside: &[(1, 0), (2, 3)],
        reached: [&[2, 3], &[0, 2, 3], &[3], &[]],
    },
    // An output that is an input's node, and one that reads nothing.
    Case {
        nodes: 2,
        inside: &[],
        cells: &[(&[(0, 0), (1, 1)], &[(2, 0)])],
        beside: &[],
        reached: [&[2], &[], &[], &[]],
    },
    // Two outputs that read two inputs by a node between: a copy, in which one port is on a loop.
    Case {
        nodes: 3,
        inside: &[(0, 1), (0, 2)],
        cells: &[(&[(0, 0), (1, 0)], &[(2, 1), (3, 2)])],
        beside: &[(2, 1)],
        reached: [&[1, 2, 3], &[1, 2, 3], &[1, 2, 3], &[]],
    },
    // Of a staircase the lower output reads one input, and the upper one both.
    Case {
        nodes: 3,
        inside: &[(1, 0), (1, 2)],
        cells: &[(&[(0, 0), (1, 1)], &[(2, 0), (3, 2)])],
        beside: &[(3, 0)],
        reached: [&[2], &[0, 2, 3], &[], &[0, 2]],
    },
    // Two cells of one component: each reads its own input, and one of them by another output.
    Case {
        nodes: 3,
        inside: &[(0, 1), (2, 1)],
        cells: &[(&[(0, 0)], &[(1, 1)]), (&[(2, 2)], &[(3, 1)])],
        beside: &[(1, 2)],
        reached: [&[1, 2, 3], &[2, 3], &[3], &[]],
    },
    // One of the cells is copied, and the other gets a pair.
    Case {
        nodes: 2,
        inside: &[(0, 1)],
        cells: &[
            (&[(0, 0), (1, 0), (2, 0)], &[(3, 1)]),
            (&[(3, 0)], &[(0, 1)]),
        ],
        beside: &[],
        reached: [&[0, 3], &[0, 3], &[0, 3], &[0, 3]],
    },
    // A component with a loop, which has no order: its cells have three outputs, and are copied.
    Case {
        nodes: 3,
        inside: &[(0, 1), (1, 0), (1, 2)],
        cells: &[
            (&[(0, 0)], &[(1, 2)]),
            (&[(2, 2)], &[(3, 1)]),
            (&[(3, 1)], &[(2, 2)]),
        ],
        beside: &[],
        reached: [&[1], &[], &[], &[2]],
    },
];

/// A component: how many nodes its graph has, what reads what, and its ports.
struct Part {
    nodes: usize,
    inside: Reads,
    sides: Sides,
}

/// A cell, whose inputs are ports 0 and 1 and whose outputs come after them, and for each port those that it reaches in a graph of
/// the ports alone; nothing where the cell's own graph is smaller.
const ALONE: [(Part, Option<&[&[usize]]>); 4] = [
    // Ways from each output to an input of its own, through nodes between.
    (
        Part {
            nodes: 6,
            inside: &[(2, 4), (4, 1), (3, 5), (5, 0)],
            sides: (&[(2, 2), (3, 3)], &[(0, 0), (1, 1)]),
        },
        Some(&[&[], &[], &[1], &[0]]),
    ),
    // An output that reads an input by another input, and one that reads nothing.
    (
        Part {
            nodes: 4,
            inside: &[(0, 1), (2, 0)],
            sides: (&[(2, 2), (3, 3)], &[(0, 0), (1, 1)]),
        },
        Some(&[&[], &[], &[0, 1], &[]]),
    ),
    // More pairs than entries.
    (
        Part {
            nodes: 5,
            inside: &[(2, 4), (4, 0), (0, 1)],
            sides: (&[(2, 2), (3, 4)], &[(0, 0), (1, 1)]),
        },
        None,
    ),
    // Fewer nodes than ports: a port that has none reaches nothing.
    (
        Part {
            nodes: 3,
            inside: &[(2, 1), (1, 0)],
            sides: (&[(2, 2)], &[(0, 0), (1, 1)]),
        },
        Some(&[&[], &[], &[0, 1], &[]]),
    ),
];

/// These pins.
fn pins_of(alloc: Global, pins: Pins) -> Result<Vec<Pin>, Memory> {
    let mut found = Vec::new(alloc);
    for (port, node) in pins {
        found.push(Pin {
            port: *port,
            node: *node,
        })?;
    }
    Ok(found)
}

/// Whether the pins are of so many ports and of a graph with so many nodes.
fn are_within(pins: &[Pin], ports: usize, nodes: usize) -> bool
    ensures { IsTrue result → All (IsPinWithin ports nodes) pins.now }
{
    pins.iter().all(|pin| pin.port < ports && pin.node < nodes)
}

/// Whether these are nodes of a graph with so many.
fn are_nodes(nodes: &[usize], count: usize) -> bool
    ensures { IsTrue result → All (λ node. node < count) nodes.now }
{
    nodes.iter().all(|node| *node < count)
}

/// What may be told of outputs and inputs at these nodes of the graph.
fn ask(alloc: Global, inside: &Groups, outputs: &[usize], inputs: &[usize]) -> Result<Told, Memory>
    ensures { IfOk result (IsAskable (length inside.now)) }
{
    let nodes = inside.len();
    if outputs.len() > 64 || !are_nodes(outputs, nodes) || !are_nodes(inputs, nodes) {
        return Err(Memory);
    }
    let (mut from, mut to) = (Vec::new(alloc), Vec::new(alloc));
    from.extend_from_slice(outputs)?;
    to.extend_from_slice(inputs)?;
    Ok(Told::new(alloc, from, to))
}

/// These, with what is told of them.
fn tell_all(alloc: Global, inside: &Groups, mut asked: Vec<Told>) -> Result<Vec<Told>, Memory>
    requires in_range { AreInRange inside.now }
    requires askable { All (IsAskable (length inside.now)) asked.items }
    ensures { IfOk result (λ told. All (IsTold inside.now) told.items) }
{
    tell(alloc, inside, asked.as_mut_slice())?;
    Ok(asked)
}

/// What is told of outputs and inputs at these nodes, alone.
fn told_of(
    alloc: Global,
    inside: &Groups,
    outputs: &[usize],
    inputs: &[usize],
) -> Result<Vec<Told>, Memory>
    requires { AreInRange inside.now }
    ensures { IfOk result (λ told. All (IsTold inside.now) told.items) }
{
    let mut asked = Vec::new(alloc);
    asked.push(ask(alloc, inside, outputs, inputs)?)?;
    tell_all(alloc, inside, asked)
}

/// A cell of a holder with so many ports, with this graph and these pins, and what was told of it.
fn cell_of<'a>(
    ports: usize,
    inside: &'a Groups,
    told: Option<&'a Told>,
    outputs: Vec<Pin>,
    inputs: Vec<Pin>,
) -> Result<Cell<'a>, Memory>
    requires in_range { AreInRange inside.now }
    requires told { IfSome told (λ (told : Bor Told). IsTold inside.now told.now) }
    ensures fit { IfOk result (IsFit ports) }
    ensures graph { IfOk result (λ cell. cell.reads.now ≡ inside.now) }
{
    if !are_within(&outputs, ports, inside.len()) || !are_within(&inputs, ports, inside.len()) {
        return Err(Memory);
    }
    Ok(Cell {
        part: 0,
        reads: inside,
        told,
        outputs,
        inputs,
    })
}

/// Cells with this graph and these pins, and what was told of each.
fn cells_of<'a>(
    alloc: Global,
    inside: &'a Groups,
    told: Option<&'a Told>,
    all: &[Sides],
) -> Result<Vec<Cell<'a>>, Memory>
    requires in_range { AreInRange inside.now }
    requires told { IfSome told (λ (told : Bor Told). IsTold inside.now told.now) }
    ensures fit { IfOk result (λ cells. All (IsFit PORTS) cells.items) }
    ensures parts { IfOk result (λ cells. AreOfParts cells.items) }
{
    let mut cells = Vec::new(alloc);
    for (outputs, inputs) in all {
        let (outputs, inputs) = (pins_of(alloc, outputs)?, pins_of(alloc, inputs)?);
        cells.push(cell_of(PORTS, inside, told, outputs, inputs)?)?;
    }
    Ok(cells)
}

/// The graph of a case.
fn flat(alloc: Global, case: &Case) -> Result<Groups, Memory>
    ensures in_range { IfOk result AreInRange }
{
    let inside = graph(alloc, case.inside, case.nodes)?;
    let entries = entries_of(alloc, case.beside)?;
    if !are_below(&entries, PORTS) {
        return Err(Memory);
    }
    let cells = cells_of(alloc, &inside, None, case.cells)?;
    flatten(alloc, entries, PORTS, &cells)
}

/// More cells than are searched together.
const MANY: usize = 70;

/// So many ports has the holder of many cells, two of each.
const MANY_PORTS: usize = 140;

/// A pin of this port and node, alone.
fn pin(alloc: Global, port: usize, node: usize) -> Result<Vec<Pin>, Memory> {
    let mut pins = Vec::new(alloc);
    pins.push(Pin { port, node })?;
    Ok(pins)
}

/// What is told of so many of the many cells: whether the output of each reads the node.
fn many_told(alloc: Global, inside: &Groups, count: usize, node: usize) -> Result<Vec<Told>, Memory>
    requires { AreInRange inside.now }
    ensures { IfOk result (λ told. All (IsTold inside.now) told.items) }
{
    let mut asked = Vec::new(alloc);
    for number in 0..count {
        asked.push(ask(alloc, inside, &[number], &[node])?)?;
    }
    tell_all(alloc, inside, asked)
}

/// Cells of a component, each with another output: cell k has the port 2 k at node k, and the port 2 k + 1 at the node in the middle.
fn many_cells<'a>(
    alloc: Global,
    inside: &'a Groups,
    told: &'a [Told],
) -> Result<Vec<Cell<'a>>, Memory>
    requires in_range { AreInRange inside.now }
    requires told { All (IsTold inside.now) told.now }
    ensures fit { IfOk result (λ cells. All (IsFit MANY_PORTS) cells.items) }
    ensures parts { IfOk result (λ cells. AreOfParts cells.items) }
{
    let mut cells = Vec::new(alloc);
    for number in 0..MANY {
        let output = pin(alloc, 2 * number, number)?;
        let input = pin(alloc, 2 * number + 1, MANY / 2)?;
        cells.push(cell_of(MANY_PORTS, inside, told.get(number), output, input)?)?;
    }
    Ok(cells)
}

/// The graph of these cells, where each node of their component reads the next, and of so many of them it is told whether the
/// output reads the node.
fn many_flat(alloc: Global, count: usize, node: usize) -> Result<Groups, Memory>
    ensures in_range { IfOk result AreInRange }
{
    let mut chain = Vec::new(alloc);
    for node in 1..MANY {
        chain.push((node - 1, node))?;
    }
    let inside = graph(alloc, &chain, MANY)?;
    let told = many_told(alloc, &inside, count, node)?;
    let cells = many_cells(alloc, &inside, &told)?;
    flatten(alloc, Vec::new(alloc), MANY_PORTS, &cells)
}

/// The pins of a cell with two outputs at one node, and two inputs at others.
const WIDE: Sides = (&[(0, 0), (1, 0)], &[(2, 1), (3, 2)]);

/// The graph of this cell, whose outputs read the first of its inputs, where it is told of outputs and inputs at these nodes.
fn wide_flat(alloc: Global, outputs: &[usize], inputs: &[usize]) -> Result<Groups, Memory>
    ensures in_range { IfOk result AreInRange }
{
    let inside = graph(alloc, &[(0, 1)], 4)?;
    let told = told_of(alloc, &inside, outputs, inputs)?;
    let cells = cells_of(alloc, &inside, told.first(), &[WIDE])?;
    flatten(alloc, Vec::new(alloc), PORTS, &cells)
}

/// Whether outputs stand from port 2 on, and inputs before it.
fn are_apart(outputs: &[Pin], inputs: &[Pin]) -> bool
    ensures outputs { IsTrue result → All (λ pin. 2 ≤ pin.port) outputs.now }
    ensures inputs { IsTrue result → All (λ pin. pin.port < 2) inputs.now }
{
    outputs.iter().all(|pin| pin.port >= 2) && inputs.iter().all(|pin| pin.port < 2)
}

/// The graph of the cell's ports alone, if there is one.
fn alone(alloc: Global, part: &Part) -> Result<Option<Groups>, Memory>
    ensures { IfOk result (λ kept. IfSome kept AreInRange) }
{
    let inside = graph(alloc, part.inside, part.nodes)?;
    let (outputs, inputs) = part.sides;
    let cell = cell_of(
        PORTS,
        &inside,
        None,
        pins_of(alloc, outputs)?,
        pins_of(alloc, inputs)?,
    )?;
    if !are_apart(&cell.outputs, &cell.inputs) {
        return Err(Memory);
    }
    condense(alloc, PORTS, &cell)
}

#[test]
fn ports_alone_reach_what_they_read_through_the_cell(rt: HostRuntime) -> Result<(), Fail> {
    for (number, (part, told)) in ALONE.iter().enumerate() {
        match alone(rt.alloc(), part)? {
            Some(graph) => {
                let ports = told.ok_or("no smaller graph was told")?;
                assert_eq!(rt; graph.len(), PORTS, "case {number}");
                for (port, reached) in all_reached(rt.alloc(), &graph)?.iter_mut().enumerate() {
                    reached.sort()?;
                    let told = ports.get(port).ok_or("no such port")?;
                    assert_eq!(rt;
                        reached.as_slice(),
                        *told,
                        "case {number}, from port {port}"
                    );
                }
            }
            None => assert!(rt; told.is_none(), "case {number}"),
        }
    }
    Ok(())
}

#[test]
fn ports_reach_what_they_read_through_cells(rt: HostRuntime) -> Result<(), Fail> {
    for (number, case) in CASES.iter().enumerate() {
        let graph = flat(rt.alloc(), case)?;
        let all = all_reached(rt.alloc(), &graph)?;
        for (port, told) in case.reached.iter().enumerate() {
            let mut found = all.get(port).ok_or("no such port")?.clone()?;
            found.retain(|other| *other < PORTS);
            found.sort()?;
            assert_eq!(rt; found.as_slice(), *told, "case {number}, from port {port}");
        }
    }
    Ok(())
}

/// Whether each of the many cells reads by its own output.
fn reads_by_its_own(alloc: Global, graph: &Groups) -> Result<bool, Fail>
    requires { AreInRange graph.now }
{
    let all = all_reached(alloc, graph)?;
    for number in 0..MANY {
        let output = all.get(2 * number).ok_or("no such port")?;
        let input = all.get(2 * number + 1).ok_or("no such port")?;
        let read = 2 * number + 1;
        let is_right = if number <= MANY / 2 {
            output.as_slice() == [read].as_slice()
        } else {
            output.is_empty()
        };
        if !is_right || !input.is_empty() {
            return Ok(false);
        }
    }
    Ok(true)
}

#[test]
fn of_many_cells_each_reads_by_its_own_output(rt: HostRuntime) -> Result<(), Fail> {
    // Nothing is told, or of some cells, or of all, or of all with another node.
    let told = [
        (0, MANY / 2),
        (MANY / 2, MANY / 2),
        (MANY, MANY / 2),
        (MANY, MANY - 1),
    ];
    for (count, node) in told {
        let graph = many_flat(rt.alloc(), count, node)?;
        assert!(rt; reads_by_its_own(rt.alloc(), &graph)?, "{count} of {node}");
    }
    Ok(())
}

#[test]
fn a_cell_is_told_of_by_its_nodes(rt: HostRuntime) -> Result<(), Fail> {
    let told: [(&[usize], &[usize]); 3] = [
        (&[0, 0], &[1, 2]),
        // Outputs or inputs of other nodes: what is told of them is not taken.
        (&[0, 2], &[1, 2]),
        (&[0, 0], &[2, 1]),
    ];
    for (outputs, inputs) in told {
        let graph = wide_flat(rt.alloc(), outputs, inputs)?;
        for (port, reached) in all_reached(rt.alloc(), &graph)?.iter().enumerate() {
            let read: &[usize] = if port < 2 { &[2] } else { &[] };
            assert_eq!(rt; reached.as_slice(), read, "from port {port}");
        }
    }
    Ok(())
}
