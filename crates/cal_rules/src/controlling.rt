//! C7 to C11: groups, and the control that enables them.
ghost use Rattle.std.specs.Prelude.{◌≡◌, ◌↔◌, List, map, take, slice_get, Some, All, IfOk, IfSome, IsTrue, option_map, true};
ghost use Rattle.hw_names.specs.Name.{Text, AreDistinct, text_of};
ghost use Rattle.cal_ast.specs.Controlling.{BindsInput, BindsOutput, CanInvoke, EnablesGroup, HasCondition, HasDone, Invokes, IsCondition, IsOnlyDone, MayHaveDone};
ghost use Rattle.net_core.specs.Numbers.{IsNumberOf};
ghost use Rattle.cal_ast.specs.Numbers.{DoneHasNumbers, InHasNumbers, OutHasNumbers, PortHasNumbers, StatementHasNumbers};
ghost use Rattle.cal_ast.specs.Ports.{side_in, width_in};
ghost use Rattle.cal_ast.specs.Tree.{InBinding, done_tree, group_tree, in_tree, out_tree, port_of, port_tree, statement_tree};
ghost use Rattle.cal_place.specs.Around.{comp_at, design_at, names_at};
ghost use Rattle.cal_rules.specs.inside.Groups.{IsGroup};
ghost use Rattle.cal_place.specs.Signatures.{side_of};

use crate::sides::is_on_side;
use crate::typing::{port_width, source_width};
use cal_ast::{CalPort, Control, DoneSet, Group, InBind, OutBind};
use cal_place::{FirstPlaces, Place, Side};
use hw_bits::Memory;
use hw_names::NameId;
use std::alloc::Global;

/// C7 at the header of a group: one that isn't combinational has a done line.
pub fn has_done(group: &Group) -> bool
    ensures { (names : List Text) → IsTrue result ↔ HasDone (group_tree names group.now) }
{
    group.comb || !group.dones.is_empty()
}

/// C7 at the done line of this number: a group that isn't combinational has no other before it, and its source has one bit.
pub fn is_only_done(place: &Place, group: &Group, number: usize, done: &DoneSet) -> bool
    requires numbers { DoneHasNumbers (names_at place.now) done.now }
    requires at { slice_get (group_tree (names_at place.now) group.now).dones number ≡ Some (done_tree (names_at place.now) done.now) }
    ensures { IsTrue result
        ↔ IsOnlyDone (design_at place.now) (comp_at place.now) (group_tree (names_at place.now) group.now)
        (take number (group_tree (names_at place.now) group.now).dones) (done_tree (names_at place.now) done.now) }
{
    if group.comb {
        return true;
    }
    if number > 0 {
        return false;
    }
    source_width(place, done.src) == Some(1)
}

/// C8 at a done line: a combinational group has none.
pub fn may_have_done(group: &Group) -> bool
    ensures { (names : List Text) → IsTrue result ↔ MayHaveDone (group_tree names group.now) }
{
    !group.comb
}

/// Whether a group of this name exists, and is combinational or not.
fn is_group(place: &Place, name: NameId, comb: bool) -> bool
    requires { IsNumberOf (names_at place.now) name }
    ensures { IsTrue result ↔ IsGroup (comp_at place.now) (text_of (names_at place.now) name) comb }
{
    match place.group(name) {
        Some(group) => group.comb == comb,
        None => false,
    }
}

/// C9 at a control statement: an enable names a group that isn't combinational.
pub fn enables_group(place: &Place, statement: &Control) -> bool
    requires { StatementHasNumbers (names_at place.now) statement.now }
    ensures { IsTrue result ↔ EnablesGroup (comp_at place.now) (statement_tree (names_at place.now) statement.now) }
{
    match statement {
        Control::Enable(name) => is_group(place, *name, false),
        _ => true,
    }
}

/// Whether the group of a condition, if it has one, is combinational.
fn is_combinational(place: &Place, by: Option<NameId>) -> bool
    requires { IfSome by (IsNumberOf (names_at place.now)) }
    ensures { IsTrue result ↔ IfSome (option_map (text_of (names_at place.now)) by) (λ name. IsGroup (comp_at place.now) name true) }
{
    match by {
        Some(name) => is_group(place, name, true),
        None => true,
    }
}

/// Whether the group of a condition, if it has one, is combinational, and its port has one bit.
fn is_condition(place: &Place, port: CalPort, by: Option<NameId>) -> bool
    requires port { PortHasNumbers (names_at place.now) port }
    requires by { IfSome by (IsNumberOf (names_at place.now)) }
    ensures { IsTrue result
        ↔ IsCondition (design_at place.now) (comp_at place.now) (port_tree (names_at place.now) port) (option_map (text_of (names_at place.now)) by) }
{
    is_combinational(place, by) && port_width(place, port) == Some(1)
}

/// C10 at a control statement.
pub fn has_condition(place: &Place, statement: &Control) -> bool
    requires { StatementHasNumbers (names_at place.now) statement.now }
    ensures { IsTrue result ↔ HasCondition (design_at place.now) (comp_at place.now) (statement_tree (names_at place.now) statement.now) }
{
    match statement {
        Control::If { port, by, .. } => is_condition(place, *port, *by),
        Control::While { port, by, .. } => is_condition(place, *port, *by),
        _ => true,
    }
}

/// Whether the cell has this port on this side, and the port has one bit.
fn has_bit(place: &Place, cell: NameId, name: &[u8], side: Side) -> bool
    requires { IsNumberOf (names_at place.now) cell }
    ensures { IsTrue result
        ↔ ((side_in (design_at place.now) (comp_at place.now) (port_of (text_of (names_at place.now) cell) name.now) ≡ Some (side_of side))
        × (width_in (design_at place.now) (comp_at place.now) (port_of (text_of (names_at place.now) cell) name.now) ≡ Some 1)) }
{
    match place.pin(Some(cell), name) {
        Some(pin) => pin.side == side && pin.width == 1,
        None => false,
    }
}

/// Whether each binding names an input of the cell other than its go.
fn bind_inputs(place: &Place, cell: NameId, go: &[u8], ins: &[InBind]) -> bool
    requires cell { IsNumberOf (names_at place.now) cell }
    requires ins { All (InHasNumbers (names_at place.now)) ins.now }
    ensures { IsTrue result
        ↔ All (BindsInput (design_at place.now) (comp_at place.now) (text_of (names_at place.now) cell) go.now) (map (in_tree (names_at place.now)) ins.now) }
{
    for bind in ins {
        let port = CalPort {
            cell: Some(cell),
            port: bind.port,
        };
        if place.text(bind.port) == go {
            return false;
        }
        if !is_on_side(place, port, Side::Input) {
            return false;
        }
    }
    true
}

/// Whether each binding names an output of the cell.
fn bind_outputs(place: &Place, cell: NameId, outs: &[OutBind]) -> bool
    requires cell { IsNumberOf (names_at place.now) cell }
    requires outs { All (OutHasNumbers (names_at place.now)) outs.now }
    ensures { IsTrue result
        ↔ All (BindsOutput (design_at place.now) (comp_at place.now) (text_of (names_at place.now) cell)) (map (out_tree (names_at place.now)) outs.now) }
{
    for bind in outs {
        let port = CalPort {
            cell: Some(cell),
            port: bind.port,
        };
        if !is_on_side(place, port, Side::Output) {
            return false;
        }
    }
    true
}

/// Whether no input is bound twice.
fn bind_once(alloc: Global, place: &Place, ins: &[InBind]) -> Result<bool, Memory>
    requires { All (InHasNumbers (names_at place.now)) ins.now }
    ensures { IfOk result (λ once. IsTrue once ↔ AreDistinct (map (λ (b : InBinding). b.pin) (map (in_tree (names_at place.now)) ins.now))) }
{
    let mut bound = FirstPlaces::new(alloc, place.names());
    for (number, bind) in ins.iter().enumerate() {
        bound.add(place.text(bind.port), number)?;
    }
    Ok(bound.are_distinct())
}

/// Whether the cell can be invoked with these bindings.
fn can_invoke(
    alloc: Global,
    place: &Place,
    cell: NameId,
    ins: &[InBind],
    outs: &[OutBind],
) -> Result<bool, Memory>
    requires cell { IsNumberOf (names_at place.now) cell }
    requires ins { All (InHasNumbers (names_at place.now)) ins.now }
    requires outs { All (OutHasNumbers (names_at place.now)) outs.now }
    ensures { IfOk result (λ can. IsTrue can
        ↔ CanInvoke (design_at place.now) (comp_at place.now) (text_of (names_at place.now) cell)
        (map (in_tree (names_at place.now)) ins.now) (map (out_tree (names_at place.now)) outs.now)) }
{
    let Some(go) = place.go(cell) else {
        return Ok(false);
    };
    let go = go.as_bytes();
    if !has_bit(place, cell, go, Side::Input) {
        return Ok(false);
    }
    if !has_bit(place, cell, b"done", Side::Output) {
        return Ok(false);
    }
    if !bind_inputs(place, cell, go, ins) {
        return Ok(false);
    }
    if !bind_outputs(place, cell, outs) {
        return Ok(false);
    }
    bind_once(alloc, place, ins)
}

/// C11 at a control statement.
pub fn invokes(alloc: Global, place: &Place, statement: &Control) -> Result<bool, Memory>
    requires { StatementHasNumbers (names_at place.now) statement.now }
    ensures { IfOk result (λ can. IsTrue can ↔ Invokes (design_at place.now) (comp_at place.now) (statement_tree (names_at place.now) statement.now)) }
{
    match statement {
        Control::Invoke { cell, ins, outs } => can_invoke(alloc, place, *cell, ins, outs),
        _ => Ok(true),
    }
}
