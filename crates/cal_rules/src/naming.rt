//! C1 and C2: names are distinct, and what a line names exists.
ghost use Rattle.std.specs.Prelude.{◌≡◌, ◌↔◌, map, take, slice_get, Some, All, IsTrue};
ghost use Rattle.cal_ast.specs.Naming.{DoneNamesKnown, HasNewNames, InvokeNamesKnown, IsKnownCell, IsKnownPort, IsNewCell, IsNewGroup, IsUnreserved, NamesKnown, StatementNamesKnown, Unreserved, BindsKnownIn, BindsKnownOut};
ghost use Rattle.net_core.specs.Numbers.{IsNumberOf};
ghost use Rattle.cal_ast.specs.Numbers.{CellHasNumbers, DoneHasNumbers, GroupHasNumbers, InHasNumbers, OutHasNumbers, PortHasNumbers, SetHasNumbers, SourceHasNumbers, StatementHasNumbers};
ghost use Rattle.cal_ast.specs.Tree.{assignment_tree, cell_tree, done_tree, group_tree, in_tree, out_tree, port_tree, statement_tree};
ghost use Rattle.cal_ast.specs.Wires.{done_ports, set_ports};
ghost use Rattle.hw_names.specs.Name.{text_of};
ghost use Rattle.net_core.specs.Graph.{source_ports};
ghost use Rattle.net_core.specs.Guard.{source_tree};
ghost use Rattle.cal_place.specs.Around.{comp_at, design_at, earlier_at, names_at};
ghost use Rattle.cal_place.specs.ReadPorts.{AreReads};

use cal_ast::{Assign, CalCell, CalPort, Control, DoneSet, Group, InBind, OutBind};
use cal_place::{Place, Prototype, is_primitive};
use hw_names::NameId;
use net_core::Src;

/// C1 at the signature: the component's name is new and no primitive's, and its ports are distinct.
pub fn has_new_names(place: &Place) -> bool
    ensures { IsTrue result ↔ HasNewNames (earlier_at place.now) (comp_at place.now) }
{
    if is_primitive(place.text(place.comp().name)) {
        return false;
    }
    if !place.is_first() {
        return false;
    }
    place.signature().names.are_distinct()
}

/// Whether a cell or a group may have the name: in a component that isn't bare, those that begin with `c$` are left to
/// lowering.
fn is_unreserved(place: &Place, name: NameId) -> bool
    requires { IsNumberOf (names_at place.now) name }
    ensures { IsTrue result ↔ IsUnreserved (comp_at place.now) (text_of (names_at place.now) name) }
{
    if place.signature().bare {
        return true;
    }
    !place.text(name).starts_with(b"c$")
}

/// C1 at a cell: its name is new, and none that lowering makes.
pub fn is_new_cell(place: &Place, number: usize, cell: &CalCell) -> bool
    requires numbers { CellHasNumbers (names_at place.now) cell.now }
    requires at { slice_get (comp_at place.now).cells number ≡ Some (cell_tree (names_at place.now) cell.now) }
    ensures { IsTrue result ↔ IsNewCell (comp_at place.now) (take number (comp_at place.now).cells) (cell_tree (names_at place.now) cell.now) }
{
    place.is_first_cell(number, cell.name) && is_unreserved(place, cell.name)
}

/// C2 at a cell of a component that is the first of its name: a primitive has the cell's, or a component that does not
/// lead back.
pub fn is_known_cell(place: &Place, number: usize, cell: &CalCell) -> bool
    requires numbers { CellHasNumbers (names_at place.now) cell.now }
    requires at { slice_get (comp_at place.now).cells number ≡ Some (cell_tree (names_at place.now) cell.now) }
    requires first { HasNewNames (earlier_at place.now) (comp_at place.now) }
    ensures { IsTrue result ↔ IsKnownCell (design_at place.now) (comp_at place.now) (cell_tree (names_at place.now) cell.now) }
{
    match place.made(number) {
        Some(Prototype::Primitive(_)) => true,
        Some(Prototype::Component(part)) => !place.comes_back(part),
        None => is_primitive(place.text(cell.made)),
    }
}

/// C1 at the header of a group: its name is new, and none that lowering makes.
pub fn is_new_group(place: &Place, number: usize, group: &Group) -> bool
    requires numbers { GroupHasNumbers (names_at place.now) group.now }
    requires at { slice_get (comp_at place.now).groups number ≡ Some (group_tree (names_at place.now) group.now) }
    ensures { IsTrue result ↔ IsNewGroup Unreserved (comp_at place.now) (take number (comp_at place.now).groups) (group_tree (names_at place.now) group.now) }
{
    place.is_first_group(number, group.name) && is_unreserved(place, group.name)
}

/// Whether the port exists.
fn is_known(place: &Place, port: CalPort) -> bool
    requires { PortHasNumbers (names_at place.now) port }
    ensures { IsTrue result ↔ IsKnownPort (design_at place.now) (comp_at place.now) (port_tree (names_at place.now) port) }
{
    place.port(port).is_some()
}

/// Whether each of the ports exists.
fn are_known(place: &Place, ports: &[CalPort]) -> bool
    requires { All (PortHasNumbers (names_at place.now)) ports.now }
    ensures { IsTrue result ↔ All (IsKnownPort (design_at place.now) (comp_at place.now)) (map (port_tree (names_at place.now)) ports.now) }
{
    for port in ports {
        if !is_known(place, *port) {
            return false;
        }
    }
    true
}

/// Whether the port of a source, if it is one, exists.
fn is_known_source(place: &Place, src: Src<CalPort>) -> bool
    requires { SourceHasNumbers (names_at place.now) src }
    ensures { IsTrue result ↔ All (IsKnownPort (design_at place.now) (comp_at place.now)) (source_ports (source_tree (port_tree (names_at place.now)) src)) }
{
    match src {
        Src::Port(port) => is_known(place, port),
        Src::Lit { .. } => true,
    }
}

/// C2 at an assignment, which reads these ports: each port exists.
pub fn names_known(place: &Place, set: &Assign, reads: &[CalPort]) -> bool
    requires numbers { SetHasNumbers (names_at place.now) set.now }
    requires reads { AreReads (names_at place.now) (set_ports (assignment_tree (names_at place.now) set.now)) reads.now }
    ensures { IsTrue result ↔ NamesKnown (design_at place.now) (comp_at place.now) (assignment_tree (names_at place.now) set.now) }
{
    is_known(place, set.dst) && are_known(place, reads)
}

/// C2 at a done line of a group, which reads these ports: it names the group, and each port exists.
pub fn done_names_known(place: &Place, group: &Group, done: &DoneSet, reads: &[CalPort]) -> bool
    requires group { GroupHasNumbers (names_at place.now) group.now }
    requires numbers { DoneHasNumbers (names_at place.now) done.now }
    requires reads { AreReads (names_at place.now) (done_ports (done_tree (names_at place.now) done.now)) reads.now }
    ensures { IsTrue result
        ↔ DoneNamesKnown (design_at place.now) (comp_at place.now) (group_tree (names_at place.now) group.now) (done_tree (names_at place.now) done.now) }
{
    place.text(done.of) == place.text(group.name) && are_known(place, reads)
}

/// Whether each binding names a port of the cell, and the ports that are given exist.
fn bind_known_ins(place: &Place, cell: NameId, ins: &[InBind]) -> bool
    requires cell { IsNumberOf (names_at place.now) cell }
    requires ins { All (InHasNumbers (names_at place.now)) ins.now }
    ensures { IsTrue result
        ↔ All (BindsKnownIn (design_at place.now) (comp_at place.now) (text_of (names_at place.now) cell)) (map (in_tree (names_at place.now)) ins.now) }
{
    for bind in ins {
        if !binds_known_in(place, cell, *bind) {
            return false;
        }
    }
    true
}

/// Whether each binding names a port of the cell, and the ports that are driven exist.
fn bind_known_outs(place: &Place, cell: NameId, outs: &[OutBind]) -> bool
    requires cell { IsNumberOf (names_at place.now) cell }
    requires outs { All (OutHasNumbers (names_at place.now)) outs.now }
    ensures { IsTrue result
        ↔ All (BindsKnownOut (design_at place.now) (comp_at place.now) (text_of (names_at place.now) cell)) (map (out_tree (names_at place.now)) outs.now) }
{
    for bind in outs {
        if !binds_known_out(place, cell, *bind) {
            return false;
        }
    }
    true
}

/// Whether the cell of an invoke exists, and so do the ports of its bindings.
fn invoke_names_known(place: &Place, cell: NameId, ins: &[InBind], outs: &[OutBind]) -> bool
    requires cell { IsNumberOf (names_at place.now) cell }
    requires ins { All (InHasNumbers (names_at place.now)) ins.now }
    requires outs { All (OutHasNumbers (names_at place.now)) outs.now }
    ensures { IsTrue result
        ↔ InvokeNamesKnown (design_at place.now) (comp_at place.now) (text_of (names_at place.now) cell)
        (map (in_tree (names_at place.now)) ins.now) (map (out_tree (names_at place.now)) outs.now) }
{
    if !place.has_cell(cell) {
        return false;
    }
    if !bind_known_ins(place, cell, ins) {
        return false;
    }
    bind_known_outs(place, cell, outs)
}

/// Whether a binding of an input names a port of the cell, and the port that it is given exists.
fn binds_known_in(place: &Place, cell: NameId, bind: InBind) -> bool
    requires cell { IsNumberOf (names_at place.now) cell }
    requires bind { InHasNumbers (names_at place.now) bind }
    ensures { IsTrue result ↔ BindsKnownIn (design_at place.now) (comp_at place.now) (text_of (names_at place.now) cell) (in_tree (names_at place.now) bind) }
{
    is_known(
        place,
        CalPort {
            cell: Some(cell),
            port: bind.port,
        },
    ) && is_known_source(place, bind.src)
}

/// Whether a binding of an output names a port of the cell, and the port that it drives exists.
fn binds_known_out(place: &Place, cell: NameId, bind: OutBind) -> bool
    requires cell { IsNumberOf (names_at place.now) cell }
    requires bind { OutHasNumbers (names_at place.now) bind }
    ensures { IsTrue result ↔ BindsKnownOut (design_at place.now) (comp_at place.now) (text_of (names_at place.now) cell) (out_tree (names_at place.now) bind) }
{
    is_known(
        place,
        CalPort {
            cell: Some(cell),
            port: bind.port,
        },
    ) && is_known(place, bind.dst)
}

/// C2 at a control statement: a condition's port exists, and so do the cell and the ports of an invoke.
pub fn statement_names_known(place: &Place, statement: &Control) -> bool
    requires { StatementHasNumbers (names_at place.now) statement.now }
    ensures { IsTrue result ↔ StatementNamesKnown (design_at place.now) (comp_at place.now) (statement_tree (names_at place.now) statement.now) }
{
    match statement {
        Control::If { port, .. } => is_known(place, *port),
        Control::While { port, .. } => is_known(place, *port),
        Control::Invoke { cell, ins, outs } => { invoke_names_known(place, *cell, ins, outs) }
        Control::Enable(_) => true,
        Control::Seq(_) => true,
        Control::Par(_) => true,
    }
}
