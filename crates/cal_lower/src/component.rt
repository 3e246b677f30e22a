//! A component without control.
ghost use Rattle.std.specs.Prelude.{◌≡◌, ◌∷◌, [], ◌++◌, ℕ, Bool, false, List, map, All, IfOk, OnOk};
ghost use Rattle.hw_names.specs.Name.{KeepsTexts, Text, text_of};
ghost use Rattle.net_core.specs.Numbers.{IsNumberOf};
ghost use Rattle.cal_ast.specs.Holes.{ActivityRule, rule_tree};
ghost use Rattle.cal_ast.specs.Numbers.{ComponentHasNumbers, SetHasNumbers};
ghost use Rattle.cal_ast.specs.Ports.{is_bare};
ghost use Rattle.cal_ast.specs.Tree.{Absent, assignment_tree, component_tree, group_tree};
ghost use Rattle.cal_lower.specs.inside.Labels.{AreTexts, KeepsLabels};
ghost use Rattle.cal_lower.specs.inside.Lowered.{HasFewParts, done_set, lowered, rule_of, with_registers};
ghost use Rattle.cal_lower.specs.inside.Making.{ShowRules, rule_when};
ghost use Rattle.cal_lower.specs.inside.Shown.{Shows, ShowsGuard};
ghost use Rattle.cal_lower.specs.inside.Statements.{CanLowerComponent};

use crate::bare::{is_bare, with_pin};
use crate::guards::{never, reads};
use crate::instance::control_pieces;
use crate::labels::Labels;
use crate::sizes::few_parts;
use crate::texts::Label;
use cal_ast::{ActRule, Assign, CalComp, CalPort, ControlPart};
use cal_copy::{copy_cells, copy_groups, copy_sets};
use hw_bits::Memory;
use hw_names::NameId;
use net_core::{Guard, Src};
use std::alloc::Global;

/// The component's own `done` is 1 in the done row of its control.
fn done_set(alloc: Global, labels: &mut Labels) -> Result<Assign, Memory>
    requires { AreTexts labels.old.names labels.old.texts }
    ensures kept { KeepsLabels labels.old labels.new }
    ensures set { IfOk result (Shows SetHasNumbers assignment_tree labels.new.names done_set) }
{
    let dst = labels.own(b"done")?;
    let over = labels.port(alloc, Label::Over)?;
    Ok(Assign {
        dst,
        guard: None,
        src: Src::Port(over),
    })
}

/// A bare component: its control section has nothing in it.
fn without_control(alloc: Global, comp: &CalComp) -> Result<CalComp, Memory>
    ensures { (source names : List Text) → KeepsTexts source names → ComponentHasNumbers source comp.now
        → IfOk result (Shows ComponentHasNumbers component_tree names (record (component_tree source comp.now) { control = Absent })) }
{
    Ok(CalComp {
        name: comp.name,
        ins: Vec::from_slice(alloc, &comp.ins)?,
        outs: Vec::from_slice(alloc, &comp.outs)?,
        cells: copy_cells(alloc, &comp.cells)?,
        groups: copy_groups(alloc, &comp.groups)?,
        sets: copy_sets(alloc, &comp.sets)?,
        control: ControlPart::Absent,
    })
}

/// A component that control starts: wires and registers stand for its control.
fn with_registers(alloc: Global, labels: &mut Labels, comp: &CalComp) -> Result<CalComp, Memory>
    requires texts { AreTexts labels.old.names labels.old.texts }
    requires comp { (source : List Text) × CanLowerComponent source labels.old.names comp.now }
    ensures kept { KeepsLabels labels.old labels.new }
    ensures lowered { (source : List Text) → CanLowerComponent source labels.old.names comp.now → is_bare (component_tree source comp.now) ≡ false
        → IfOk result (Shows ComponentHasNumbers component_tree labels.new.names (with_registers (component_tree source comp.now))) }
{
    let mut pieces = control_pieces(alloc, labels, comp)?;
    let mut cells = copy_cells(alloc, &comp.cells)?;
    cells.append(&mut pieces.cells)?;
    let mut sets = copy_sets(alloc, &comp.sets)?;
    sets.append(&mut pieces.sets)?;
    sets.push(done_set(alloc, labels)?)?;
    Ok(CalComp {
        name: comp.name,
        ins: with_pin(alloc, labels, &comp.ins, b"go")?,
        outs: with_pin(alloc, labels, &comp.outs, b"done")?,
        cells,
        groups: copy_groups(alloc, &comp.groups)?,
        sets,
        control: ControlPart::Absent,
    })
}

/// The component without control.
pub(crate) fn lower_component(
    alloc: Global,
    labels: &mut Labels,
    comp: &CalComp,
) -> Result<CalComp, Memory>
    requires texts { AreTexts labels.old.names labels.old.texts }
    requires comp { (source : List Text) × CanLowerComponent source labels.old.names comp.now }
    ensures kept { KeepsLabels labels.old labels.new }
    ensures lowered { (source : List Text) → CanLowerComponent source labels.old.names comp.now
        → IfOk result (Shows ComponentHasNumbers component_tree labels.new.names (lowered (component_tree source comp.now))) }
    ensures few { (source : List Text) → OnOk result (HasFewParts (component_tree source comp.now)) }
{
    few_parts(&comp.control)?;
    if is_bare(&labels.names, comp) {
        return without_control(alloc, comp);
    }
    with_registers(alloc, labels, comp)
}

/// When a group acts: one of a bare component never does.
fn rule_when(
    alloc: Global,
    labels: &mut Labels,
    bare: bool,
    group: NameId,
) -> Result<Guard<CalPort>, Memory>
    requires texts { AreTexts labels.old.names labels.old.texts }
    requires group { IsNumberOf labels.old.names group }
    ensures kept { KeepsLabels labels.old labels.new }
    ensures guard { IfOk result (ShowsGuard labels.new.names (rule_when bare (text_of labels.old.names group))) }
{
    if bare {
        return never(alloc);
    }
    let acts = labels.port(alloc, Label::Acts(group))?;
    reads(alloc, acts)
}

/// Puts the rules of the groups of a component last, which has this number.
pub(crate) fn push_rules(
    alloc: Global,
    labels: &mut Labels,
    number: usize,
    comp: &CalComp,
    rules: &mut Vec<ActRule>,
) -> Result<(), Memory>
    requires texts { AreTexts labels.old.names labels.old.texts }
    requires comp { (source : List Text) × CanLowerComponent source labels.old.names comp.now }
    ensures kept { KeepsLabels labels.old labels.new }
    ensures pushed { (source : List Text) (list : List ActivityRule) → CanLowerComponent source labels.old.names comp.now → ShowRules labels.old.names list rules.old.items
        → OnOk result (ShowRules labels.new.names
        (list ++ map (rule_of number (component_tree source comp.now)) (map (group_tree source) comp.now.groups.items)) rules.new.items) }
{
    let bare = is_bare(&labels.names, comp);
    for group in &comp.groups {
        let when = rule_when(alloc, labels, bare, group.name)?;
        rules.push(ActRule {
            comp: number,
            group: group.name,
            when,
        })?;
    }
    Ok(())
}
