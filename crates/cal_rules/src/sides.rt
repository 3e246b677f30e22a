//! C5 and C6: what a component may drive, and what it may read.
ghost use Rattle.std.specs.Prelude.{◌≡◌, ◌↔◌, List, map, Some, All, IsTrue, option_map};
ghost use Rattle.hw_names.specs.Name.{Text, text_of};
ghost use Rattle.net_core.specs.Graph.{source_ports};
ghost use Rattle.net_core.specs.Guard.{source_tree};
ghost use Rattle.cal_ast.specs.Numbers.{InHasNumbers, OutHasNumbers, PortHasNumbers, SetHasNumbers, SourceHasNumbers, StatementHasNumbers};
ghost use Rattle.cal_ast.specs.Ports.{side_in};
ghost use Rattle.cal_ast.specs.Sides.{DrivesDestination, IsDestination, IsSource, StatementDrives, StatementReads, driven_side, read_side};
ghost use Rattle.cal_ast.specs.Tree.{InBinding, OutBinding, assignment_tree, in_tree, out_tree, port_tree, statement_tree};
ghost use Rattle.cal_place.specs.Around.{comp_at, design_at, names_at};
ghost use Rattle.cal_place.specs.Signatures.{side_of};

use cal_ast::{Assign, CalPort, Control, InBind, OutBind};
use cal_place::{Place, Side, is_own};
use hw_names::NameId;
use net_core::Src;

/// Whether a line names a port, and it is on this side.
pub fn is_on_side(place: &Place, port: CalPort, side: Side) -> bool
    requires { PortHasNumbers (names_at place.now) port }
    ensures { IsTrue result ↔ (side_in (design_at place.now) (comp_at place.now) (port_tree (names_at place.now) port) ≡ Some (side_of side)) }
{
    match place.port(port) {
        Some(pin) => pin.side == side,
        None => false,
    }
}

/// The side of a port of this cell that may be driven; without a cell, of the component's own ports.
fn driven_side(cell: Option<NameId>) -> Side
    ensures { (names : List Text) → side_of result ≡ driven_side (option_map (text_of names) cell) }
{
    match cell {
        None => Side::Output,
        Some(_) => Side::Input,
    }
}

/// The side of a port of this cell that may be read; without a cell, of the component's own ports.
fn read_side(cell: Option<NameId>) -> Side
    ensures { (names : List Text) → side_of result ≡ read_side (option_map (text_of names) cell) }
{
    match cell {
        None => Side::Input,
        Some(_) => Side::Output,
    }
}

/// Whether the port is an output of the component, but not the `done` of one that isn't bare, or an input of a cell.
fn is_destination(place: &Place, port: CalPort) -> bool
    requires { PortHasNumbers (names_at place.now) port }
    ensures { IsTrue result ↔ IsDestination (design_at place.now) (comp_at place.now) (port_tree (names_at place.now) port) }
{
    if !is_on_side(place, port, driven_side(port.cell)) {
        return false;
    }
    if place.signature().bare {
        return true;
    }
    !is_own(place.names(), port, b"done")
}

/// Whether the port is an input of the component, or an output of a cell.
pub fn is_source(place: &Place, port: CalPort) -> bool
    requires { PortHasNumbers (names_at place.now) port }
    ensures { IsTrue result ↔ IsSource (design_at place.now) (comp_at place.now) (port_tree (names_at place.now) port) }
{
    is_on_side(place, port, read_side(port.cell))
}

/// C6 at an assignment or a done line that reads these ports: each may be read.
pub fn are_sources(place: &Place, ports: &[CalPort]) -> bool
    requires { All (PortHasNumbers (names_at place.now)) ports.now }
    ensures { IsTrue result ↔ All (IsSource (design_at place.now) (comp_at place.now)) (map (port_tree (names_at place.now)) ports.now) }
{
    for port in ports {
        if !is_source(place, *port) {
            return false;
        }
    }
    true
}

/// C5 at an assignment: it drives a port that may be driven.
pub fn drives_destination(place: &Place, set: &Assign) -> bool
    requires { SetHasNumbers (names_at place.now) set.now }
    ensures { IsTrue result ↔ DrivesDestination (design_at place.now) (comp_at place.now) (assignment_tree (names_at place.now) set.now) }
{
    is_destination(place, set.dst)
}

/// C5 at a control statement: where an invoke puts outputs may be driven.
pub fn statement_drives(place: &Place, statement: &Control) -> bool
    requires { StatementHasNumbers (names_at place.now) statement.now }
    ensures { IsTrue result ↔ StatementDrives (design_at place.now) (comp_at place.now) (statement_tree (names_at place.now) statement.now) }
{
    match statement {
        Control::Invoke { outs, .. } => drive_destinations(place, outs),
        _ => true,
    }
}

/// Whether each binding puts an output where it may be driven.
fn drive_destinations(place: &Place, outs: &[OutBind]) -> bool
    requires { All (OutHasNumbers (names_at place.now)) outs.now }
    ensures { IsTrue result
        ↔ All (λ (b : OutBinding). IsDestination (design_at place.now) (comp_at place.now) b.dst) (map (out_tree (names_at place.now)) outs.now) }
{
    for bind in outs {
        if !is_destination(place, bind.dst) {
            return false;
        }
    }
    true
}

/// Whether what each binding gives may be read.
fn give_sources(place: &Place, ins: &[InBind]) -> bool
    requires { All (InHasNumbers (names_at place.now)) ins.now }
    ensures { IsTrue result
        ↔ All (λ (b : InBinding). All (IsSource (design_at place.now) (comp_at place.now)) (source_ports b.src)) (map (in_tree (names_at place.now)) ins.now) }
{
    for bind in ins {
        if !may_be_read(place, bind.src) {
            return false;
        }
    }
    true
}

/// Whether the port of a source, if it is one, may be read.
fn may_be_read(place: &Place, src: Src<CalPort>) -> bool
    requires { SourceHasNumbers (names_at place.now) src }
    ensures { IsTrue result ↔ All (IsSource (design_at place.now) (comp_at place.now)) (source_ports (source_tree (port_tree (names_at place.now)) src)) }
{
    match src {
        Src::Port(port) => is_source(place, port),
        Src::Lit { .. } => true,
    }
}

/// C6 at a control statement: a condition's port may be read, and so may what an invoke gives.
pub fn statement_reads(place: &Place, statement: &Control) -> bool
    requires { StatementHasNumbers (names_at place.now) statement.now }
    ensures { IsTrue result ↔ StatementReads (design_at place.now) (comp_at place.now) (statement_tree (names_at place.now) statement.now) }
{
    match statement {
        Control::If { port, .. } => is_source(place, *port),
        Control::While { port, .. } => is_source(place, *port),
        Control::Invoke { ins, .. } => give_sources(place, ins),
        Control::Enable(_) => true,
        Control::Seq(_) => true,
        Control::Par(_) => true,
    }
}
