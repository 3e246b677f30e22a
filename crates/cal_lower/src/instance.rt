//! The control of an instance as a whole: where it starts and ends, and the parts of its plan.
ghost use Rattle.std.specs.Prelude.{◌≡◌, ◌∷◌, [], ◌++◌, ℕ, List, flat_map, map, All, IfOk, OnOk};
ghost use Rattle.hw_names.specs.Name.{KeepsTexts, Text, text_of};
ghost use Rattle.cal_ast.specs.Numbers.{ComponentHasNumbers, ControlHasNumbers};
ghost use Rattle.cal_ast.specs.Plan.{plan_at, section_plan};
ghost use Rattle.cal_ast.specs.Tree.{component_tree, control_tree, statement_tree};
ghost use Rattle.cal_lower.specs.inside.Labels.{AreTexts, KeepsLabels};
ghost use Rattle.cal_lower.specs.inside.Lowered.{control_ends, control_pieces, instance_pieces, start_guard};
ghost use Rattle.cal_lower.specs.inside.Making.{Made, ShowsParts, busy_guard, plan_made, with_made};
ghost use Rattle.cal_lower.specs.inside.Pieces.{Piece};
ghost use Rattle.cal_lower.specs.inside.Shown.{ShowsGuard, ShowsPieces};
ghost use Rattle.cal_lower.specs.inside.Statements.{CanLower, CanLowerComponent, CanLowerSection};
ghost use Rattle.cal_walk.specs.Left.{is_over};

use crate::acts::Acts;
use crate::ends::part_ends;
use crate::groups::push_groups;
use crate::guards::{all_of, both, either, negate, reads};
use crate::labels::Labels;
use crate::made::{Entry, Parts};
use crate::parts::push_part;
use crate::pieces::{Pieces, one_when};
use crate::sizes::is_over;
use crate::texts::Label;
use cal_ast::{CalComp, CalPort, Control, ControlPart};
use hw_bits::Memory;
use net_core::Guard;
use std::alloc::Global;

/// Whether a control section takes no row.
fn is_nothing(control: &ControlPart) -> bool
    ensures { (names : List Text) (item : ℕ) → result ≡ is_over (section_plan item (control_tree names control.now)) }
{
    match control {
        ControlPart::Body(statement) => is_over(statement),
        ControlPart::Absent | ControlPart::Empty => true,
    }
}

/// Control starts: in a row with go in which it doesn't run and which isn't its done row.
fn start_guard(alloc: Global, labels: &mut Labels) -> Result<Guard<CalPort>, Memory>
    requires { AreTexts labels.old.names labels.old.texts }
    ensures kept { KeepsLabels labels.old labels.new }
    ensures guard { IfOk result (ShowsGuard labels.new.names start_guard) }
{
    let go = labels.own(b"go")?;
    let busy = labels.port(alloc, Label::Busy)?;
    let over = labels.port(alloc, Label::Over)?;
    let mut guards = Vec::new(alloc);
    guards.push(reads(alloc, go)?)?;
    guards.push(negate(alloc, reads(alloc, busy)?)?)?;
    guards.push(negate(alloc, reads(alloc, over)?)?)?;
    all_of(alloc, guards)
}

/// Control ends: of a section that takes no row, where it starts.
fn control_ends(
    alloc: Global,
    labels: &mut Labels,
    control: &ControlPart,
) -> Result<Guard<CalPort>, Memory>
    requires { AreTexts labels.old.names labels.old.texts }
    ensures kept { KeepsLabels labels.old labels.new }
    ensures guard { (source : List Text) (item : ℕ) → IfOk result (ShowsGuard labels.new.names (control_ends (section_plan item (control_tree source control.now)))) }
{
    if is_nothing(control) {
        let start = labels.port(alloc, Label::Start)?;
        return reads(alloc, start);
    }
    part_ends(alloc, labels, 0)
}

/// Control runs on: it starts or runs, and doesn't end.
fn busy_guard(
    alloc: Global,
    labels: &mut Labels,
    control: &ControlPart,
) -> Result<Guard<CalPort>, Memory>
    requires { AreTexts labels.old.names labels.old.texts }
    ensures kept { KeepsLabels labels.old labels.new }
    ensures guard { (source : List Text) (item : ℕ) → IfOk result (ShowsGuard labels.new.names (busy_guard (section_plan item (control_tree source control.now)))) }
{
    let start = labels.port(alloc, Label::Start)?;
    let busy = labels.port(alloc, Label::Busy)?;
    let runs = either(alloc, reads(alloc, start)?, reads(alloc, busy)?)?;
    let ends = control_ends(alloc, labels, control)?;
    let not_ends = negate(alloc, ends)?;
    both(alloc, runs, not_ends)
}

/// Puts last what tells where control starts, runs and is done.
fn push_instance(
    alloc: Global,
    labels: &mut Labels,
    pieces: &mut Pieces,
    control: &ControlPart,
) -> Result<(), Memory>
    requires { AreTexts labels.old.names labels.old.texts }
    ensures kept { KeepsLabels labels.old labels.new }
    ensures pushed { (source : List Text) (item : ℕ) (list : List Piece) → ShowsPieces labels.old.names list pieces.old
        → OnOk result (ShowsPieces labels.new.names (list ++ instance_pieces (section_plan item (control_tree source control.now))) pieces.new) }
{
    let starts = one_when(start_guard(alloc, labels)?);
    pieces.push(alloc, labels, Label::Start, starts)?;
    let runs = one_when(busy_guard(alloc, labels, control)?);
    pieces.push(alloc, labels, Label::Busy, runs)?;
    let ends = one_when(control_ends(alloc, labels, control)?);
    pieces.push(alloc, labels, Label::Over, ends)
}

/// The parts of a statement that control starts with, if it takes a row.
fn push_whole(
    alloc: Global,
    labels: &mut Labels,
    parts: &mut Parts,
    control: &Control,
) -> Result<(), Memory>
    requires texts { AreTexts labels.old.names labels.old.texts }
    requires control { (source : List Text) × CanLower source labels.old.names control.now }
    ensures kept { KeepsLabels labels.old labels.new }
    ensures groups { parts.new.acts.groups ≡ parts.old.acts.groups }
    ensures made { (source : List Text) (item : ℕ) (made : Made) → CanLower source labels.old.names control.now → ShowsParts labels.old.names made parts.old
        → OnOk result (ShowsParts labels.new.names (with_made made (plan_made (plan_at item (statement_tree source control.now)))) parts.new) }
{
    if is_over(control) {
        return Ok(());
    }
    let start = labels.port(alloc, Label::Start)?;
    push_part(alloc, labels, parts, control, Entry { number: 0, start })
}

/// The parts of a control section.
fn push_plan(
    alloc: Global,
    labels: &mut Labels,
    parts: &mut Parts,
    control: &ControlPart,
) -> Result<(), Memory>
    requires texts { AreTexts labels.old.names labels.old.texts }
    requires control { (source : List Text) × CanLowerSection source labels.old.names control.now }
    ensures kept { KeepsLabels labels.old labels.new }
    ensures groups { parts.new.acts.groups ≡ parts.old.acts.groups }
    ensures made { (source : List Text) (item : ℕ) (made : Made) → CanLowerSection source labels.old.names control.now → ShowsParts labels.old.names made parts.old
        → OnOk result (ShowsParts labels.new.names (with_made made (plan_made (section_plan item (control_tree source control.now)))) parts.new) }
{
    match control {
        ControlPart::Body(statement) => push_whole(alloc, labels, parts, statement),
        ControlPart::Absent | ControlPart::Empty => Ok(()),
    }
}

/// The pieces of a component that control starts.
pub(crate) fn control_pieces(
    alloc: Global,
    labels: &mut Labels,
    comp: &CalComp,
) -> Result<Pieces, Memory>
    requires texts { AreTexts labels.old.names labels.old.texts }
    requires comp { (source : List Text) × CanLowerComponent source labels.old.names comp.now }
    ensures kept { KeepsLabels labels.old labels.new }
    ensures pieces { (source : List Text) → CanLowerComponent source labels.old.names comp.now
        → IfOk result (ShowsPieces labels.new.names (control_pieces (component_tree source comp.now))) }
{
    let mut parts = Parts {
        pieces: Pieces::new(alloc),
        acts: Acts::make(alloc, &labels.names, &comp.groups)?,
    };
    push_plan(alloc, labels, &mut parts, &comp.control)?;
    let Parts { pieces: plan, acts } = parts;
    let mut pieces = Pieces::new(alloc);
    push_instance(alloc, labels, &mut pieces, &comp.control)?;
    push_groups(alloc, labels, &mut pieces, &acts, &comp.groups)?;
    pieces.append(plan)?;
    Ok(pieces)
}
