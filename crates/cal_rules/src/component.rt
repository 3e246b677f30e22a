//! The rules C1 to C11 of a component, item by item.
ghost use Rattle.std.specs.Prelude.{◌≡◌, map, take, flat_map, slice_get, Some, All, IfErr, OnOk};
ghost use Rattle.cal_ast.specs.Items.{TheAssignment, TheCell, TheDone, TheStatement, control_statements, each, group_items, statements_in, statements_of, unless_empty};
ghost use Rattle.cal_ast.specs.Naming.{HasNewNames, Unreserved};
ghost use Rattle.cal_ast.specs.Numbers.{CellHasNumbers, ControlHasNumbers, GroupHasNumbers, SetHasNumbers, StatementHasNumbers};
ghost use Rattle.cal_ast.specs.Rules.{KeepsComponent};
ghost use Rattle.cal_ast.specs.Tree.{assignment_tree, cell_tree, control_tree, group_tree, statement_tree};
ghost use Rattle.cal_place.specs.Around.{comp_at, design_at, earlier_at, names_at};
ghost use Rattle.cal_rules.specs.FirstItem.{TellsItem};
ghost use Rattle.cal_rules.specs.inside.Walks.{WalksOver};
ghost use Rattle.cal_place.specs.Statements.{statements_from};

use crate::item::{at_assignment, at_cell, at_done, at_group, at_signature, at_statement};
use crate::rule::CompEnd;
use crate::walk::Walk;
use cal_ast::{Assign, CalCell, Control, ControlPart, Group};
use cal_place::{Place, is_empty_seq};
use std::alloc::Global;

/// Judges the cells.
fn judge_cells(place: &Place, walk: &mut Walk, cells: &[CalCell]) -> Result<(), CompEnd>
    requires new { HasNewNames (earlier_at place.now) (comp_at place.now) }
    requires numbers { All (CellHasNumbers (names_at place.now)) cells.now }
    requires are { map (cell_tree (names_at place.now)) cells.now ≡ (comp_at place.now).cells }
    ensures { WalksOver place.now (each TheCell (comp_at place.now).cells) walk.old walk.new result }
{
    for (number, cell) in cells.iter().enumerate() {
        walk.pass(at_cell(place, number, cell))?;
    }
    Ok(())
}

/// Judges assignments, of a group or continuous.
fn judge_sets(alloc: Global, place: &Place, walk: &mut Walk, sets: &[Assign]) -> Result<(), CompEnd>
    requires { All (SetHasNumbers (names_at place.now)) sets.now }
    ensures { WalksOver place.now (map TheAssignment (map (assignment_tree (names_at place.now)) sets.now)) walk.old walk.new result }
{
    for set in sets {
        walk.pass(at_assignment(alloc, place, set)?)?;
    }
    Ok(())
}

/// Judges the done lines of a group.
fn judge_dones(alloc: Global, place: &Place, walk: &mut Walk, group: &Group) -> Result<(), CompEnd>
    requires { GroupHasNumbers (names_at place.now) group.now }
    ensures { WalksOver place.now (each (TheDone (group_tree (names_at place.now) group.now)) (group_tree (names_at place.now) group.now).dones) walk.old walk.new result }
{
    for (number, done) in group.dones.iter().enumerate() {
        walk.pass(at_done(alloc, place, group, number, done)?)?;
    }
    Ok(())
}

/// Judges the header of a group, its assignments and its done lines.
fn judge_group(
    alloc: Global,
    place: &Place,
    walk: &mut Walk,
    number: usize,
    group: &Group,
) -> Result<(), CompEnd>
    requires numbers { GroupHasNumbers (names_at place.now) group.now }
    requires at { slice_get (comp_at place.now).groups number ≡ Some (group_tree (names_at place.now) group.now) }
    ensures { WalksOver place.now (group_items (take number (comp_at place.now).groups) (group_tree (names_at place.now) group.now)) walk.old walk.new result }
{
    walk.pass(at_group(place, number, group))?;
    judge_sets(alloc, place, walk, &group.sets)?;
    judge_dones(alloc, place, walk, group)
}

/// Judges the groups.
fn judge_groups(
    alloc: Global,
    place: &Place,
    walk: &mut Walk,
    groups: &[Group],
) -> Result<(), CompEnd>
    requires numbers { All (GroupHasNumbers (names_at place.now)) groups.now }
    requires are { map (group_tree (names_at place.now)) groups.now ≡ (comp_at place.now).groups }
    ensures { WalksOver place.now (flat_map (λ items. items) (each group_items (comp_at place.now).groups)) walk.old walk.new result }
{
    for (number, group) in groups.iter().enumerate() {
        judge_group(alloc, place, walk, number, group)?;
    }
    Ok(())
}

/// Judges a control statement and those inside it.
#[cycle(judge_statement)]
fn judge_statement(
    alloc: Global,
    place: &Place,
    walk: &mut Walk,
    statement: &Control,
) -> Result<(), CompEnd>
    requires { StatementHasNumbers (names_at place.now) statement.now }
    ensures { WalksOver place.now (map TheStatement (statements_in (statement_tree (names_at place.now) statement.now))) walk.old walk.new result }
{
    walk.pass(at_statement(alloc, place, statement)?)?;
    match statement {
        Control::Enable(_) => Ok(()),
        Control::Invoke { .. } => Ok(()),
        Control::Seq(list) => judge_statements(alloc, place, walk, list),
        Control::Par(list) => judge_statements(alloc, place, walk, list),
        Control::If { yes, no, .. } => {
            judge_branch(alloc, place, walk, yes)?;
            judge_branch(alloc, place, walk, no)
        }
        Control::While { body, .. } => judge_branch(alloc, place, walk, body),
    }
}

/// Judges a branch or a body, unless it is no statement.
#[cycle(judge_statement)]
fn judge_branch(
    alloc: Global,
    place: &Place,
    walk: &mut Walk,
    statement: &Control,
) -> Result<(), CompEnd>
    requires { StatementHasNumbers (names_at place.now) statement.now }
    ensures { WalksOver place.now (map TheStatement (unless_empty (statement_tree (names_at place.now) statement.now) (statements_in (statement_tree (names_at place.now) statement.now)))) walk.old walk.new result }
{
    if is_empty_seq(statement) {
        return Ok(());
    }
    judge_statement(alloc, place, walk, statement)
}

/// Judges the statements of a list.
#[cycle(judge_statement)]
fn judge_statements(
    alloc: Global,
    place: &Place,
    walk: &mut Walk,
    list: &[Control],
) -> Result<(), CompEnd>
    requires { All (StatementHasNumbers (names_at place.now)) list.now }
    ensures { WalksOver place.now (map TheStatement (statements_of (statements_from (map (statement_tree (names_at place.now)) list.now)))) walk.old walk.new result }
{
    for statement in list {
        judge_statement(alloc, place, walk, statement)?;
    }
    Ok(())
}

/// Judges the control of a component.
fn judge_control(
    alloc: Global,
    place: &Place,
    walk: &mut Walk,
    control: &ControlPart,
) -> Result<(), CompEnd>
    requires { ControlHasNumbers (names_at place.now) control.now }
    ensures { WalksOver place.now (map TheStatement (control_statements (control_tree (names_at place.now) control.now))) walk.old walk.new result }
{
    match control {
        ControlPart::Absent => Ok(()),
        ControlPart::Empty => Ok(()),
        ControlPart::Body(statement) => judge_statement(alloc, place, walk, statement),
    }
}

/// Judges a component by C1 to C11.
pub fn judge_component(alloc: Global, place: &Place) -> Result<(), CompEnd>
    ensures kept { OnOk result (KeepsComponent Unreserved (design_at place.now) (earlier_at place.now) (comp_at place.now)) }
    ensures broken { IfErr result (TellsItem place.now) }
{
    let comp = place.comp();
    let mut walk = Walk { item: 0 };
    walk.pass(at_signature(place))?;
    judge_cells(place, &mut walk, &comp.cells)?;
    judge_groups(alloc, place, &mut walk, &comp.groups)?;
    judge_sets(alloc, place, &mut walk, &comp.sets)?;
    judge_control(alloc, place, &mut walk, &comp.control)
}
