//! Which ports of a component read which within a row, by its own text.
ghost use Rattle.std.specs.Prelude.{◌≡◌, List, ◌+◌, ◌<◌, [], ◌∷◌, ◌++◌, Option, Some, length, map, option_map, slice_get, All, IfOk, IfSome, OnOk};
ghost use Rattle.hw_names.specs.Name.{AreDistinct, KeepsTexts, Text, text_of};
ghost use Rattle.hw_prims.specs.Table.{IsMade, inputs_of, name_at, outputs_of, pin_names, pins_of};
ghost use Rattle.net_core.specs.Numbers.{IsNumberOf};
ghost use Rattle.cal_ast.specs.Invoking.{gives_input, go_of, invoke_done, starts_cell, takes_output};
ghost use Rattle.cal_ast.specs.Items.{control_statements, statements_in, statements_of};
ghost use Rattle.cal_ast.specs.Numbers.{ControlHasNumbers, DoneHasNumbers, GroupHasNumbers, InHasNumbers, OutHasNumbers, PortHasNumbers, SetHasNumbers, StatementHasNumbers};
ghost use Rattle.cal_ast.specs.Ports.{inputs_in, outputs_in};
ghost use Rattle.cal_ast.specs.Rules.{KeepsRules};
ghost use Rattle.cal_ast.specs.Tree.{CellDef, Invoke, assignment_tree, control_tree, done_tree, group_tree, in_tree, out_tree, own, port_of, port_tree, statement_tree};
ghost use Rattle.cal_place.specs.Around.{comp_at, design_at, names_at};
ghost use Rattle.cal_wires.specs.Nodes.{AreNumbers, Node, PinHasNumber, input_key, pin_text, port_by};
ghost use Rattle.cal_wires.specs.Readings.{AddsGroups, HasOwnReadings, ReadsDones, ReadsEach, ReadsGo, ReadsInPrimitive, ReadsOutput, ReadsPrimitive, ReadsPrimitives, ReadsSet, ReadsSets, ReadsThrough, group_invoked, groups_invoked};
ghost use Rattle.cal_place.specs.Statements.{statements_from};
ghost use Rattle.cal_wires.specs.WireGraphs.{Adds, Grows, HasHole, HasNumber, NoPair};
ghost use Rattle.cal_wires.specs.declared.graph.Hole.{Hole};

use crate::graph::{Hole, WireGraph};
use crate::pin_names::PinName;
use crate::ports::Port;
use cal_ast::{Assign, CalPort, Control, ControlPart, DoneSet, Group, InBind, OutBind};
use cal_place::{Place, Prototype, ports_read};
use hw_bits::Memory;
use hw_names::{NameId, Names};
use hw_prims::Prim;
use hw_texts::text_at;
use net_core::Src;
use std::alloc::Global;

/// A port that a line names.
fn line_port(port: CalPort) -> Port<'static>
    ensures is { (names : List Text) → port_by names result ≡ port_tree names port }
    ensures numbers { (names : List Text) → PortHasNumbers names port → AreNumbers names result }
{
    Port {
        cell: port.cell,
        pin: PinName::Number(port.port),
    }
}

/// A port of the component itself.
pub fn own_port<'t>(pin: PinName<'t>) -> Port<'t>
    ensures is { (names : List Text) → port_by names result ≡ own (pin_text names pin.entry) }
    ensures numbers { (names : List Text) → PinHasNumber names pin.entry → AreNumbers names result }
{
    Port { cell: None, pin }
}

/// A port of the cell of this name.
fn cell_port<'t>(cell: NameId, pin: PinName<'t>) -> Port<'t>
    ensures is { (names : List Text) → port_by names result ≡ port_of (text_of names cell) (pin_text names pin.entry) }
    ensures numbers { (names : List Text) → IsNumberOf names cell → PinHasNumber names pin.entry → AreNumbers names result }
{
    Port {
        cell: Some(cell),
        pin,
    }
}

/// The names of the component's ports: its inputs, and then its outputs.
pub fn port_names<'a>(place: &Place<'a>) -> &'a Names
    requires { KeepsRules (design_at place.now) }
    ensures names { result.now ≡ pin_names (inputs_in (comp_at place.now) ++ outputs_in (comp_at place.now)) }
    ensures distinct { AreDistinct (pin_names (inputs_in (comp_at place.now) ++ outputs_in (comp_at place.now))) }
{
    // The component stands in the design.
    let _comp = place.comp();
    place.signature().names.names()
}

/// Adds that the port or hole of this number reads each of these ports.
fn add_reads(
    graph: &mut WireGraph,
    place: &Place,
    number: usize,
    reads: &[CalPort],
) -> Result<(), Memory>
    requires names { graph.old.ports.names ≡ names_at place.now }
    requires number { number < length graph.old.ports.keys }
    requires reads { All (PortHasNumbers (names_at place.now)) reads.now }
    ensures { (node : Node) → HasNumber graph.old node number
        → OnOk result (Grows (ReadsEach node (map (port_tree (names_at place.now)) reads.now)) graph.old graph.new) }
{
    for read in reads {
        let other = graph.port(line_port(*read))?;
        graph.add(number, other)?;
    }
    Ok(())
}

/// Adds what an assignment says; its destination reads the hole of its group, if it has one.
fn add_set(
    graph: &mut WireGraph,
    place: &Place,
    hole: Option<Hole>,
    set: &Assign,
) -> Result<(), Memory>
    requires names { graph.old.ports.names ≡ names_at place.now }
    requires set { SetHasNumbers (names_at place.now) set.now }
    requires hole { IfSome hole (HasHole graph.old) }
    ensures { OnOk result (Grows (ReadsSet (option_map (λ (h : Hole). h.group) hole) (assignment_tree (names_at place.now) set.now)) graph.old graph.new) }
{
    let number = graph.port(line_port(set.dst))?;
    let reads = ports_read(graph.alloc, &set.guard, set.src)?;
    add_reads(graph, place, number, &reads)?;
    match hole {
        Some(hole) => graph.add(number, hole.node),
        None => Ok(()),
    }
}

/// Adds what assignments say.
fn add_sets(
    graph: &mut WireGraph,
    place: &Place,
    hole: Option<Hole>,
    sets: &[Assign],
) -> Result<(), Memory>
    requires names { graph.old.ports.names ≡ names_at place.now }
    requires sets { All (SetHasNumbers (names_at place.now)) sets.now }
    requires hole { IfSome hole (HasHole graph.old) }
    ensures { OnOk result (Grows (ReadsSets (option_map (λ (h : Hole). h.group) hole) (map (assignment_tree (names_at place.now)) sets.now)) graph.old graph.new) }
{
    for set in sets {
        add_set(graph, place, hole, set)?;
    }
    Ok(())
}

/// A new hole, which reads the component's own `go` where that is an input.
fn add_hole(graph: &mut WireGraph, place: &Place) -> Result<Hole, Memory>
    ensures hole { IfOk result (HasHole graph.new) }
    ensures group { IfOk result (λ hole. hole.group ≡ graph.old.holes) }
    ensures adds { OnOk result (Adds (ReadsGo (design_at place.now) (comp_at place.now) graph.old.holes) graph.old graph.new) }
    ensures holes { OnOk result (graph.new.holes ≡ graph.old.holes + 1) }
{
    let hole = graph.hole()?;
    if !place.has_go() {
        return Ok(hole);
    }
    let go = graph.port(own_port(PinName::Text(b"go")))?;
    graph.add(hole.node, go)?;
    Ok(hole)
}

/// Adds that the hole reads what the done lines read.
fn add_dones(
    graph: &mut WireGraph,
    place: &Place,
    hole: Hole,
    dones: &[DoneSet],
) -> Result<(), Memory>
    requires names { graph.old.ports.names ≡ names_at place.now }
    requires hole { HasHole graph.old hole }
    requires dones { All (DoneHasNumbers (names_at place.now)) dones.now }
    ensures { OnOk result (Grows (ReadsDones hole.group (map (done_tree (names_at place.now)) dones.now)) graph.old graph.new) }
{
    for done in dones {
        let reads = ports_read(graph.alloc, &done.guard, done.src)?;
        add_reads(graph, place, hole.node, &reads)?;
    }
    Ok(())
}

/// Adds what a group says.
fn add_group(graph: &mut WireGraph, place: &Place, group: &Group) -> Result<(), Memory>
    requires names { graph.old.ports.names ≡ names_at place.now }
    requires group { GroupHasNumbers (names_at place.now) group.now }
    ensures { OnOk result (AddsGroups (design_at place.now) (comp_at place.now) (group_tree (names_at place.now) group.now ∷ []) graph.old graph.new) }
{
    let hole = add_hole(graph, place)?;
    add_sets(graph, place, Some(hole), &group.sets)?;
    add_dones(graph, place, hole, &group.dones)
}

/// Adds what groups say.
fn add_groups(graph: &mut WireGraph, place: &Place, groups: &[Group]) -> Result<(), Memory>
    requires names { graph.old.ports.names ≡ names_at place.now }
    requires groups { All (GroupHasNumbers (names_at place.now)) groups.now }
    ensures { OnOk result (AddsGroups (design_at place.now) (comp_at place.now) (map (group_tree (names_at place.now)) groups.now) graph.old graph.new) }
{
    for group in groups {
        add_group(graph, place, group)?;
    }
    Ok(())
}

/// What an invoke gives an input of its cell, as an assignment.
fn given(cell: NameId, bind: InBind) -> Assign
    ensures tree { (names : List Text) → assignment_tree names result ≡ gives_input (text_of names cell) (in_tree names bind) }
    ensures numbers { (names : List Text) → IsNumberOf names cell → InHasNumbers names bind → SetHasNumbers names result }
{
    let dst = CalPort {
        cell: Some(cell),
        port: bind.port,
    };
    Assign {
        dst,
        guard: None,
        src: bind.src,
    }
}

/// Where an invoke puts an output of its cell, as an assignment.
fn taken(cell: NameId, bind: OutBind) -> Assign
    ensures tree { (names : List Text) → assignment_tree names result ≡ takes_output (text_of names cell) (out_tree names bind) }
    ensures numbers { (names : List Text) → IsNumberOf names cell → OutHasNumbers names bind → SetHasNumbers names result }
{
    let port = CalPort {
        cell: Some(cell),
        port: bind.port,
    };
    Assign {
        dst: bind.dst,
        guard: None,
        src: Src::Port(port),
    }
}

/// Adds that inputs of the invoked cell read what is given to them, and the hole.
fn add_ins(
    graph: &mut WireGraph,
    place: &Place,
    hole: Hole,
    cell: NameId,
    ins: &[InBind],
) -> Result<(), Memory>
    requires names { graph.old.ports.names ≡ names_at place.now }
    requires hole { HasHole graph.old hole }
    requires cell { IsNumberOf (names_at place.now) cell }
    requires ins { All (InHasNumbers (names_at place.now)) ins.now }
    ensures { OnOk result (Grows (ReadsSets (Some hole.group) (map (gives_input (text_of (names_at place.now) cell)) (map (in_tree (names_at place.now)) ins.now))) graph.old graph.new) }
{
    for bind in ins {
        add_set(graph, place, Some(hole), &given(cell, *bind))?;
    }
    Ok(())
}

/// Adds that the port that starts the invoked cell reads the hole.
fn add_start(graph: &mut WireGraph, place: &Place, hole: Hole, cell: NameId) -> Result<(), Memory>
    requires names { graph.old.ports.names ≡ names_at place.now }
    requires hole { HasHole graph.old hole }
    requires cell { IsNumberOf (names_at place.now) cell }
    ensures { OnOk result (Grows (ReadsSets (Some hole.group) (starts_cell (text_of (names_at place.now) cell) (go_of (design_at place.now) (comp_at place.now) (text_of (names_at place.now) cell)))) graph.old graph.new) }
{
    match place.go(cell) {
        Some(go) => {
            let number = graph.port(cell_port(cell, PinName::Text(go.as_bytes())))?;
            graph.add(number, hole.node)
        }
        None => Ok(()),
    }
}

/// Adds that where outputs of the invoked cell are put reads them, and the hole.
fn add_outs(
    graph: &mut WireGraph,
    place: &Place,
    hole: Hole,
    cell: NameId,
    outs: &[OutBind],
) -> Result<(), Memory>
    requires names { graph.old.ports.names ≡ names_at place.now }
    requires hole { HasHole graph.old hole }
    requires cell { IsNumberOf (names_at place.now) cell }
    requires outs { All (OutHasNumbers (names_at place.now)) outs.now }
    ensures { OnOk result (Grows (ReadsSets (Some hole.group) (map (takes_output (text_of (names_at place.now) cell)) (map (out_tree (names_at place.now)) outs.now))) graph.old graph.new) }
{
    for bind in outs {
        add_set(graph, place, Some(hole), &taken(cell, *bind))?;
    }
    Ok(())
}

/// Adds that the hole reads the `done` of the invoked cell.
fn add_done(graph: &mut WireGraph, place: &Place, hole: Hole, cell: NameId) -> Result<(), Memory>
    requires names { graph.old.ports.names ≡ names_at place.now }
    requires hole { HasHole graph.old hole }
    requires cell { IsNumberOf (names_at place.now) cell }
    ensures { OnOk result (Grows (ReadsDones hole.group (invoke_done [] (text_of (names_at place.now) cell) ∷ [])) graph.old graph.new) }
{
    let done = graph.port(cell_port(cell, PinName::Text(b"done")))?;
    graph.add(hole.node, done)
}

/// Adds what the group says that an invoke stands for.
fn add_invoke(
    graph: &mut WireGraph,
    place: &Place,
    cell: NameId,
    ins: &[InBind],
    outs: &[OutBind],
) -> Result<(), Memory>
    requires names { graph.old.ports.names ≡ names_at place.now }
    requires cell { IsNumberOf (names_at place.now) cell }
    requires ins { All (InHasNumbers (names_at place.now)) ins.now }
    requires outs { All (OutHasNumbers (names_at place.now)) outs.now }
    ensures { OnOk result (AddsGroups (design_at place.now) (comp_at place.now) (group_invoked (design_at place.now) (comp_at place.now)
        (Invoke (text_of (names_at place.now) cell) (map (in_tree (names_at place.now)) ins.now) (map (out_tree (names_at place.now)) outs.now))) graph.old graph.new) }
{
    let hole = add_hole(graph, place)?;
    add_ins(graph, place, hole, cell, ins)?;
    add_start(graph, place, hole, cell)?;
    add_outs(graph, place, hole, cell, outs)?;
    add_done(graph, place, hole, cell)
}

/// Adds what the invokes of a statement say.
#[cycle(add_statement)]
fn add_statement(graph: &mut WireGraph, place: &Place, statement: &Control) -> Result<(), Memory>
    requires names { graph.old.ports.names ≡ names_at place.now }
    requires statement { StatementHasNumbers (names_at place.now) statement.now }
    ensures { OnOk result (AddsGroups (design_at place.now) (comp_at place.now) (groups_invoked (design_at place.now) (comp_at place.now) (statements_in (statement_tree (names_at place.now) statement.now))) graph.old graph.new) }
{
    match statement {
        Control::Enable(_) => Ok(()),
        Control::Invoke { cell, ins, outs } => add_invoke(graph, place, *cell, ins, outs),
        Control::Seq(list) => add_statements(graph, place, list),
        Control::Par(list) => add_statements(graph, place, list),
        Control::If { yes, no, .. } => {
            add_statement(graph, place, yes)?;
            add_statement(graph, place, no)
        }
        Control::While { body, .. } => add_statement(graph, place, body),
    }
}

/// Adds what the invokes of the statements of a list say.
#[cycle(add_statement)]
fn add_statements(graph: &mut WireGraph, place: &Place, list: &[Control]) -> Result<(), Memory>
    requires names { graph.old.ports.names ≡ names_at place.now }
    requires list { All (StatementHasNumbers (names_at place.now)) list.now }
    ensures { OnOk result (AddsGroups (design_at place.now) (comp_at place.now) (groups_invoked (design_at place.now) (comp_at place.now) (statements_of (statements_from (map (statement_tree (names_at place.now)) list.now)))) graph.old graph.new) }
{
    for statement in list {
        add_statement(graph, place, statement)?;
    }
    Ok(())
}

/// Adds what the invokes of a component's control say.
fn add_control(graph: &mut WireGraph, place: &Place, control: &ControlPart) -> Result<(), Memory>
    requires names { graph.old.ports.names ≡ names_at place.now }
    requires control { ControlHasNumbers (names_at place.now) control.now }
    ensures { OnOk result (AddsGroups (design_at place.now) (comp_at place.now) (groups_invoked (design_at place.now) (comp_at place.now) (control_statements (control_tree (names_at place.now) control.now))) graph.old graph.new) }
{
    match control {
        ControlPart::Absent => Ok(()),
        ControlPart::Empty => Ok(()),
        ControlPart::Body(statement) => add_statement(graph, place, statement),
    }
}

/// The name of a port of a primitive, by its place: inputs come first, then outputs.
fn pin_name(prim: Prim, place: usize) -> &'static str
    requires made { IsMade prim }
    requires place { place < length (pins_of prim) }
    ensures { result.now ≡ name_at (pins_of prim) place }
{
    match prim.port(place) {
        Some(port) => port.name,
        None => unreachable!(),
    }
}

/// Adds that an output of a cell of a primitive reads an input, if it depends on it.
fn add_through(
    graph: &mut WireGraph,
    cell: NameId,
    prim: Prim,
    output: usize,
    input: usize,
) -> Result<(), Memory>
    requires cell { IsNumberOf graph.old.ports.names cell }
    requires made { IsMade prim }
    requires output { output < length (outputs_of prim) }
    requires input { input < length (inputs_of prim) }
    ensures { (names : List Text) → graph.old.ports.names ≡ names
        → OnOk result (Grows (ReadsThrough (text_of names cell) prim (name_at (outputs_of prim) output) (name_at (inputs_of prim) input)) graph.old graph.new) }
{
    if !prim.through(input, output) {
        return Ok(());
    }
    let place = prim.inputs() + output;
    let pin = pin_name(prim, place);
    let number = graph.port(cell_port(cell, PinName::Text(pin.as_bytes())))?;
    let read = pin_name(prim, input);
    let other = graph.port(cell_port(cell, PinName::Text(read.as_bytes())))?;
    graph.add(number, other)
}

/// Adds on which inputs an output of a cell of a primitive depends.
fn add_primitive_output(
    graph: &mut WireGraph,
    cell: NameId,
    prim: Prim,
    output: usize,
) -> Result<(), Memory>
    requires cell { IsNumberOf graph.old.ports.names cell }
    requires made { IsMade prim }
    requires output { output < length (outputs_of prim) }
    ensures { (names : List Text) → graph.old.ports.names ≡ names
        → OnOk result (Grows (ReadsOutput (text_of names cell) prim (name_at (outputs_of prim) output)) graph.old graph.new) }
{
    for input in 0..prim.inputs() {
        add_through(graph, cell, prim, output, input)?;
    }
    Ok(())
}

/// Adds on which inputs the outputs of a cell of a primitive depend.
fn add_primitive(graph: &mut WireGraph, cell: NameId, prim: Prim) -> Result<(), Memory>
    requires cell { IsNumberOf graph.old.ports.names cell }
    requires made { IsMade prim }
    ensures { (names : List Text) → graph.old.ports.names ≡ names
        → OnOk result (Grows (ReadsInPrimitive (text_of names cell) prim) graph.old graph.new) }
{
    for output in 0..prim.outputs() {
        add_primitive_output(graph, cell, prim, output)?;
    }
    Ok(())
}

/// Adds on which inputs the outputs of the cell of this number depend, if it is of a primitive.
fn add_primitive_cell(graph: &mut WireGraph, place: &Place, number: usize) -> Result<(), Memory>
    requires names { graph.old.ports.names ≡ names_at place.now }
    requires kept { KeepsRules (design_at place.now) }
    requires number { number < length (comp_at place.now).cells }
    ensures { (cell : CellDef) → slice_get (comp_at place.now).cells number ≡ Some cell
        → OnOk result (Grows (ReadsPrimitive (comp_at place.now) cell.name) graph.old graph.new) }
{
    let name = place.comp().cells[number].name;
    match place.made(number) {
        Some(Prototype::Primitive(prim)) => add_primitive(graph, name, prim),
        Some(Prototype::Component(_part)) => Ok(()),
        None => Ok(()),
    }
}

/// Adds on which inputs the outputs of the component's cells of primitives depend.
fn add_primitives(graph: &mut WireGraph, place: &Place) -> Result<(), Memory>
    requires names { graph.old.ports.names ≡ names_at place.now }
    requires kept { KeepsRules (design_at place.now) }
    ensures { OnOk result (Grows (ReadsPrimitives (comp_at place.now)) graph.old graph.new) }
{
    for number in 0..place.comp().cells.len() {
        add_primitive_cell(graph, place, number)?;
    }
    Ok(())
}

/// Numbers the component's own inputs, in their order.
fn add_inputs(graph: &mut WireGraph, place: &Place) -> Result<(), Memory>
    requires kept { KeepsRules (design_at place.now) }
    requires none { graph.old.ports.keys ≡ [] }
    ensures inputs { OnOk result (graph.new.ports.keys ≡ map input_key (inputs_in (comp_at place.now))) }
    ensures grows { OnOk result (Grows NoPair graph.old graph.new) }
{
    let ports = port_names(place);
    for input in 0..place.signature().inputs {
        let _number = graph.port(own_port(PinName::Text(text_at(ports, input))))?;
    }
    Ok(())
}

/// Which port of the component reads which within a row, by its own text: but for cells that are made of components. Its own
/// inputs are the first ports, by their numbers.
pub fn text_graph<'a>(alloc: Global, place: &Place<'a>) -> Result<WireGraph<'a>, Memory>
    requires kept { KeepsRules (design_at place.now) }
    ensures reads { IfOk result (HasOwnReadings (design_at place.now) (comp_at place.now)) }
    ensures inputs { IfOk result (λ graph. KeepsTexts (map input_key (inputs_in (comp_at place.now))) graph.ports.keys) }
{
    let comp = place.comp();
    let mut graph = WireGraph::new(alloc, place.names());
    add_inputs(&mut graph, place)?;
    add_sets(&mut graph, place, None, &comp.sets)?;
    add_groups(&mut graph, place, &comp.groups)?;
    add_control(&mut graph, place, &comp.control)?;
    add_primitives(&mut graph, place)?;
    Ok(graph)
}
