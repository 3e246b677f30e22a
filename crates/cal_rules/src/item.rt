//! The least rule that is broken at one item.
ghost use Rattle.std.specs.Prelude.{◌≡◌, take, slice_get, Some, IfOk};
ghost use Rattle.cal_ast.specs.Naming.{HasNewNames};
ghost use Rattle.cal_ast.specs.Numbers.{CellHasNumbers, DoneHasNumbers, GroupHasNumbers, SetHasNumbers, StatementHasNumbers};
ghost use Rattle.cal_ast.specs.Items.{TheAssignment, TheCell, TheDone, TheGroup, TheSignature, TheStatement};
ghost use Rattle.cal_ast.specs.Tree.{assignment_tree, cell_tree, done_tree, group_tree, statement_tree};
ghost use Rattle.cal_place.specs.Around.{KeepsAt, comp_at, earlier_at, names_at};
ghost use Rattle.cal_rules.specs.LeastRule.{TellsLeast};

use crate::controlling::{
    enables_group, has_condition, has_done, invokes, is_only_done, may_have_done,
};
use crate::naming::{
    done_names_known, has_new_names, is_known_cell, is_new_cell, is_new_group, names_known,
    statement_names_known,
};
use crate::rule::Rule;
use crate::sides::{are_sources, drives_destination, statement_drives, statement_reads};
use crate::typing::{done_agrees, has_parameters, has_widths, statement_agrees, widths_agree};
use cal_ast::{Assign, CalCell, Control, DoneSet, Group};
use cal_place::{Place, ports_read};
use hw_bits::Memory;
use std::alloc::Global;

/// The rule at the signature.
pub fn at_signature(place: &Place) -> Option<Rule>
    ensures { TellsLeast (KeepsAt place.now TheSignature) result }
{
    if !has_new_names(place) {
        return Some(Rule::C1);
    }
    if !has_widths(place) {
        return Some(Rule::C4);
    }
    None
}

/// The rule at the cell of this number, of a component whose signature keeps the rules.
pub fn at_cell(place: &Place, number: usize, cell: &CalCell) -> Option<Rule>
    requires numbers { CellHasNumbers (names_at place.now) cell.now }
    requires at { slice_get (comp_at place.now).cells number ≡ Some (cell_tree (names_at place.now) cell.now) }
    requires new { HasNewNames (earlier_at place.now) (comp_at place.now) }
    ensures { TellsLeast (KeepsAt place.now (TheCell (take number (comp_at place.now).cells) (cell_tree (names_at place.now) cell.now))) result }
{
    if !is_new_cell(place, number, cell) {
        return Some(Rule::C1);
    }
    if !is_known_cell(place, number, cell) {
        return Some(Rule::C2);
    }
    if !has_parameters(place, number, cell) {
        return Some(Rule::C3);
    }
    None
}

/// The rule at the header of the group of this number.
pub fn at_group(place: &Place, number: usize, group: &Group) -> Option<Rule>
    requires numbers { GroupHasNumbers (names_at place.now) group.now }
    requires at { slice_get (comp_at place.now).groups number ≡ Some (group_tree (names_at place.now) group.now) }
    ensures { TellsLeast (KeepsAt place.now (TheGroup (take number (comp_at place.now).groups) (group_tree (names_at place.now) group.now))) result }
{
    if !is_new_group(place, number, group) {
        return Some(Rule::C1);
    }
    if !has_done(group) {
        return Some(Rule::C7);
    }
    None
}

/// The rule at an assignment.
pub fn at_assignment(alloc: Global, place: &Place, set: &Assign) -> Result<Option<Rule>, Memory>
    requires { SetHasNumbers (names_at place.now) set.now }
    ensures { IfOk result (TellsLeast (KeepsAt place.now (TheAssignment (assignment_tree (names_at place.now) set.now)))) }
{
    let reads = ports_read(alloc, &set.guard, set.src)?;
    if !names_known(place, set, &reads) {
        return Ok(Some(Rule::C2));
    }
    if !widths_agree(place, set) {
        return Ok(Some(Rule::C4));
    }
    if !drives_destination(place, set) {
        return Ok(Some(Rule::C5));
    }
    if !are_sources(place, &reads) {
        return Ok(Some(Rule::C6));
    }
    Ok(None)
}

/// The rule at the done line of this number of a group.
pub fn at_done(
    alloc: Global,
    place: &Place,
    group: &Group,
    number: usize,
    done: &DoneSet,
) -> Result<Option<Rule>, Memory>
    requires group { GroupHasNumbers (names_at place.now) group.now }
    requires numbers { DoneHasNumbers (names_at place.now) done.now }
    requires at { slice_get (group_tree (names_at place.now) group.now).dones number ≡ Some (done_tree (names_at place.now) done.now) }
    ensures { IfOk result
        (TellsLeast (KeepsAt place.now (TheDone (group_tree (names_at place.now) group.now)
        (take number (group_tree (names_at place.now) group.now).dones) (done_tree (names_at place.now) done.now)))) }
{
    let reads = ports_read(alloc, &done.guard, done.src)?;
    if !done_names_known(place, group, done, &reads) {
        return Ok(Some(Rule::C2));
    }
    if !done_agrees(place, done) {
        return Ok(Some(Rule::C4));
    }
    if !are_sources(place, &reads) {
        return Ok(Some(Rule::C6));
    }
    if !is_only_done(place, group, number, done) {
        return Ok(Some(Rule::C7));
    }
    if !may_have_done(group) {
        return Ok(Some(Rule::C8));
    }
    Ok(None)
}

/// The rule at a control statement.
pub fn at_statement(
    alloc: Global,
    place: &Place,
    statement: &Control,
) -> Result<Option<Rule>, Memory>
    requires { StatementHasNumbers (names_at place.now) statement.now }
    ensures { IfOk result (TellsLeast (KeepsAt place.now (TheStatement (statement_tree (names_at place.now) statement.now)))) }
{
    if !statement_names_known(place, statement) {
        return Ok(Some(Rule::C2));
    }
    if !statement_agrees(place, statement) {
        return Ok(Some(Rule::C4));
    }
    if !statement_drives(place, statement) {
        return Ok(Some(Rule::C5));
    }
    if !statement_reads(place, statement) {
        return Ok(Some(Rule::C6));
    }
    if !enables_group(place, statement) {
        return Ok(Some(Rule::C9));
    }
    if !has_condition(place, statement) {
        return Ok(Some(Rule::C10));
    }
    if !invokes(alloc, place, statement)? {
        return Ok(Some(Rule::C11));
    }
    Ok(None)
}
