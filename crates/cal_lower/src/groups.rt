//! When groups act, and when they are done, as wires.
ghost use Rattle.std.specs.Prelude.{◌++◌, List, map, flat_map, All, IfOk, OnOk};
ghost use Rattle.hw_names.specs.Name.{KeepsTexts, Text};
ghost use Rattle.cal_ast.specs.Numbers.{DoneHasNumbers};
ghost use Rattle.cal_ast.specs.Plan.{Plan};
ghost use Rattle.cal_ast.specs.Tree.{done_tree, group_tree};
ghost use Rattle.cal_lower.specs.inside.Labels.{AreTexts, KeepsLabels};
ghost use Rattle.cal_lower.specs.inside.Lowered.{acts_guard, done_wire, group_pieces};
ghost use Rattle.cal_lower.specs.inside.Making.{CanLowerGroup};
ghost use Rattle.cal_lower.specs.inside.Pieces.{Piece};
ghost use Rattle.cal_lower.specs.inside.Shown.{ShowsGuard, ShowsPieces};

use crate::acts::Acts;
use crate::guards::{any_of, unless};
use crate::labels::Labels;
use crate::pieces::{Drive, Pieces, one_when};
use crate::texts::Label;
use cal_ast::{CalPort, DoneSet, Group};
use cal_copy::{copy_guards, copy_when};
use hw_bits::Memory;
use net_core::Guard;
use std::alloc::Global;

/// The rows in which a group acts: a combinational one in those of the tests that it is for, any other one where it is enabled and not done.
fn acts_guard(
    alloc: Global,
    labels: &mut Labels,
    acts: &Acts,
    group: &Group,
) -> Result<Guard<CalPort>, Memory>
    requires texts { AreTexts labels.old.names labels.old.texts }
    requires group { (source : List Text) × (plan : Plan) × CanLowerGroup source labels.old.names plan acts.now group.now }
    ensures kept { KeepsLabels labels.old labels.new }
    ensures guard { (source : List Text) (plan : Plan) → CanLowerGroup source labels.old.names plan acts.now group.now
        → IfOk result (ShowsGuard labels.new.names (acts_guard plan (group_tree source group.now))) }
{
    let wanted = acts.wanted(labels.names.text(group.name));
    if group.comb {
        return any_of(alloc, copy_guards(alloc, &wanted.tested)?);
    }
    let enabled = any_of(alloc, copy_guards(alloc, &wanted.enabled)?)?;
    let done = labels.port(alloc, Label::Done(group.name))?;
    unless(alloc, enabled, done)
}

/// Puts a wire for each of the done lines last.
fn push_dones(
    alloc: Global,
    labels: &mut Labels,
    pieces: &mut Pieces,
    dones: &[DoneSet],
) -> Result<(), Memory>
    requires texts { AreTexts labels.old.names labels.old.texts }
    requires numbers { (source : List Text) × KeepsTexts source labels.old.names × All (DoneHasNumbers source) dones.now }
    ensures kept { KeepsLabels labels.old labels.new }
    ensures pushed { (source : List Text) (list : List Piece) → KeepsTexts source labels.old.names → All (DoneHasNumbers source) dones.now
        → ShowsPieces labels.old.names list pieces.old
        → OnOk result (ShowsPieces labels.new.names (list ++ map done_wire (map (done_tree source) dones.now)) pieces.new) }
{
    for done in dones {
        let drive = Drive {
            guard: copy_when(alloc, &done.guard)?,
            src: done.src,
        };
        pieces.push(alloc, labels, Label::Done(done.of), drive)?;
    }
    Ok(())
}

/// Puts the wires of a group last: that it acts, and where it is done.
fn push_group(
    alloc: Global,
    labels: &mut Labels,
    pieces: &mut Pieces,
    acts: &Acts,
    group: &Group,
) -> Result<(), Memory>
    requires texts { AreTexts labels.old.names labels.old.texts }
    requires group { (source : List Text) × (plan : Plan) × CanLowerGroup source labels.old.names plan acts.now group.now }
    ensures kept { KeepsLabels labels.old labels.new }
    ensures pushed { (source : List Text) (plan : Plan) (list : List Piece) → CanLowerGroup source labels.old.names plan acts.now group.now
        → ShowsPieces labels.old.names list pieces.old
        → OnOk result (ShowsPieces labels.new.names (list ++ group_pieces plan (group_tree source group.now)) pieces.new) }
{
    let guard = acts_guard(alloc, labels, acts, group)?;
    pieces.push(alloc, labels, Label::Acts(group.name), one_when(guard))?;
    push_dones(alloc, labels, pieces, &group.dones)
}

/// Puts the wires of groups last.
pub(crate) fn push_groups(
    alloc: Global,
    labels: &mut Labels,
    pieces: &mut Pieces,
    acts: &Acts,
    groups: &[Group],
) -> Result<(), Memory>
    requires texts { AreTexts labels.old.names labels.old.texts }
    requires groups { (source : List Text) × (plan : Plan) × All (CanLowerGroup source labels.old.names plan acts.now) groups.now }
    ensures kept { KeepsLabels labels.old labels.new }
    ensures pushed { (source : List Text) (plan : Plan) (list : List Piece) → All (CanLowerGroup source labels.old.names plan acts.now) groups.now
        → ShowsPieces labels.old.names list pieces.old
        → OnOk result (ShowsPieces labels.new.names (list ++ flat_map (group_pieces plan) (map (group_tree source) groups.now)) pieces.new) }
{
    for group in groups {
        push_group(alloc, labels, pieces, acts, group)?;
    }
    Ok(())
}
