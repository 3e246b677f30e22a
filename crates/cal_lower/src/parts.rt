//! The parts of a plan, in text order, as pieces and guards for groups. Nesting is bounded, so that the stack holds; a list of statements is a loop.
ghost use Rattle.std.specs.Prelude.{◌≡◌, ◌+◌, ℕ, List, map, OnOk};
ghost use Rattle.hw_names.specs.Name.{Text};
ghost use Rattle.net_core.specs.Guard.{GuardTree};
ghost use Rattle.cal_ast.specs.Plan.{plan_at, plans_from};
ghost use Rattle.cal_ast.specs.Tree.{PortName, statement_tree};
ghost use Rattle.cal_lower.specs.inside.Labels.{AreTexts, KeepsLabels};
ghost use Rattle.cal_lower.specs.inside.Making.{Made, ShowsParts, at_once_made, in_turn_made, later_made, part_made, turn_made, with_made};
ghost use Rattle.cal_lower.specs.inside.Parts.{part_ends};
ghost use Rattle.cal_lower.specs.inside.Pieces.{reads};
ghost use Rattle.cal_lower.specs.inside.Shown.{ShowsGuard, ShowsPort};
ghost use Rattle.cal_lower.specs.inside.Statements.{CanLower, CanLowerAll, statements_from};

use crate::ends::{
    part_ends, push_all_end, push_choice, push_enable, push_ended, push_loop, push_turn_end, tested,
};
use crate::guards::{both, reads, unless};
use crate::labels::Labels;
use crate::made::{Choice, Entry, Inner, Later, Parts, Repeat, Test, Turn};
use crate::pieces::one_when;
use crate::sizes::{after, after_part, is_over};
use crate::texts::Label;
use cal_ast::Control;
use hw_bits::Memory;
use std::alloc::Global;

/// A part that takes a row, and the parts inside it.
#[cycle(push_part)]
pub(crate) fn push_part(
    alloc: Global,
    labels: &mut Labels,
    parts: &mut Parts,
    control: &Control,
    at: Entry,
) -> Result<(), Memory>
    requires texts { AreTexts labels.old.names labels.old.texts }
    requires control { (source : List Text) × CanLower source labels.old.names control.now }
    ensures kept { KeepsLabels labels.old labels.new }
    ensures groups { parts.new.acts.groups ≡ parts.old.acts.groups }
    ensures made { (source : List Text) (item : ℕ) (start : PortName) (made : Made) → CanLower source labels.old.names control.now
        → ShowsPort labels.old.names start at.start → ShowsParts labels.old.names made parts.old
        → OnOk result (ShowsParts labels.new.names (with_made made (part_made at.number (plan_at item (statement_tree source control.now)) (reads start))) parts.new) }
{
    match control {
        Control::Enable(group) => push_enable(alloc, labels, parts, *group, at),
        Control::Seq(statements) => {
            push_turn_end(alloc, labels, &mut parts.pieces, statements, at.number)?;
            push_in_turn(alloc, labels, parts, statements, at)
        }
        Control::Par(statements) => {
            push_all_end(alloc, labels, &mut parts.pieces, statements, at.number)?;
            push_at_once(alloc, labels, parts, statements, at)
        }
        Control::If { port, by, yes, no } => {
            let test = Test {
                port: *port,
                by: *by,
            };
            let on = Inner {
                number: after(at.number)?,
                control: yes,
            };
            let off = Inner {
                number: after_part(on.number, yes)?,
                control: no,
            };
            push_choice(alloc, labels, parts, &Choice { test, on, off }, at)?;
            let next = both(alloc, reads(alloc, at.start)?, reads(alloc, test.port)?)?;
            let number = on.number;
            push_later(alloc, labels, parts, yes, Later { number, next })?;
            let next = unless(alloc, reads(alloc, at.start)?, test.port)?;
            let number = off.number;
            push_later(alloc, labels, parts, no, Later { number, next })
        }
        Control::While { port, by, body } => {
            let test = Test {
                port: *port,
                by: *by,
            };
            let number = after(at.number)?;
            let inner = Inner {
                number,
                control: body,
            };
            push_loop(alloc, labels, parts, &Repeat { test, body: inner }, at)?;
            let tested = tested(alloc, labels, at)?;
            let next = both(alloc, tested, reads(alloc, test.port)?)?;
            push_later(alloc, labels, parts, body, Later { number, next })
        }
        Control::Invoke { .. } => unreachable!(),
    }
}

/// A part that starts by its own token, unless it takes no row.
#[cycle(push_part)]
fn push_later(
    alloc: Global,
    labels: &mut Labels,
    parts: &mut Parts,
    control: &Control,
    later: Later,
) -> Result<(), Memory>
    requires texts { AreTexts labels.old.names labels.old.texts }
    requires control { (source : List Text) × CanLower source labels.old.names control.now }
    ensures kept { KeepsLabels labels.old labels.new }
    ensures groups { parts.new.acts.groups ≡ parts.old.acts.groups }
    ensures made { (source : List Text) (item : ℕ) (next : GuardTree PortName) (made : Made) → CanLower source labels.old.names control.now
        → ShowsGuard labels.old.names next later.next → ShowsParts labels.old.names made parts.old
        → OnOk result (ShowsParts labels.new.names (with_made made (later_made later.number (plan_at item (statement_tree source control.now)) next)) parts.new) }
{
    if is_over(control) {
        return Ok(());
    }
    let Later { number, next } = later;
    parts
        .pieces
        .push(alloc, labels, Label::Starting(number), one_when(next))?;
    let start = labels.port(alloc, Label::Starting(number))?;
    push_part(alloc, labels, parts, control, Entry { number, start })
}

/// Statements in turn, inside the part with this number, which starts where the first of them does that takes a row.
#[cycle(push_part)]
fn push_in_turn(
    alloc: Global,
    labels: &mut Labels,
    parts: &mut Parts,
    statements: &[Control],
    at: Entry,
) -> Result<(), Memory>
    requires texts { AreTexts labels.old.names labels.old.texts }
    requires statements { (source : List Text) × CanLowerAll source labels.old.names statements.now }
    ensures kept { KeepsLabels labels.old labels.new }
    ensures groups { parts.new.acts.groups ≡ parts.old.acts.groups }
    ensures made { (source : List Text) (item : ℕ) (start : PortName) (made : Made) → CanLowerAll source labels.old.names statements.now
        → ShowsPort labels.old.names start at.start → ShowsParts labels.old.names made parts.old
        → OnOk result (ShowsParts labels.new.names
        (with_made made (in_turn_made (at.number + 1) (plans_from item (statements_from (map (statement_tree source) statements.now))) (reads start))) parts.new) }
{
    let start = at.start;
    let mut number = after(at.number)?;
    let mut before = None;
    for statement in statements {
        if !is_over(statement) {
            let turn = Turn {
                number,
                start,
                before,
            };
            push_turn(alloc, labels, parts, statement, turn)?;
            before = Some(number);
        }
        number = after_part(number, statement)?;
    }
    Ok(())
}

/// A part in turn that takes a row.
#[cycle(push_part)]
fn push_turn(
    alloc: Global,
    labels: &mut Labels,
    parts: &mut Parts,
    control: &Control,
    turn: Turn,
) -> Result<(), Memory>
    requires texts { AreTexts labels.old.names labels.old.texts }
    requires control { (source : List Text) × CanLower source labels.old.names control.now }
    ensures kept { KeepsLabels labels.old labels.new }
    ensures groups { parts.new.acts.groups ≡ parts.old.acts.groups }
    ensures made { (source : List Text) (item : ℕ) (start : PortName) (made : Made) → CanLower source labels.old.names control.now
        → ShowsPort labels.old.names start turn.start → ShowsParts labels.old.names made parts.old
        → OnOk result (ShowsParts labels.new.names (with_made made (turn_made turn.before turn.number (plan_at item (statement_tree source control.now)) (reads start))) parts.new) }
{
    let number = turn.number;
    match turn.before {
        None => {
            let start = turn.start;
            push_part(alloc, labels, parts, control, Entry { number, start })
        }
        Some(before) => {
            let next = part_ends(alloc, labels, before)?;
            push_later(alloc, labels, parts, control, Later { number, next })
        }
    }
}

/// Statements at once, inside the part with this number, which start where it does.
#[cycle(push_part)]
fn push_at_once(
    alloc: Global,
    labels: &mut Labels,
    parts: &mut Parts,
    statements: &[Control],
    at: Entry,
) -> Result<(), Memory>
    requires texts { AreTexts labels.old.names labels.old.texts }
    requires statements { (source : List Text) × CanLowerAll source labels.old.names statements.now }
    ensures kept { KeepsLabels labels.old labels.new }
    ensures groups { parts.new.acts.groups ≡ parts.old.acts.groups }
    ensures made { (source : List Text) (item : ℕ) (start : PortName) (made : Made) → CanLowerAll source labels.old.names statements.now
        → ShowsPort labels.old.names start at.start → ShowsParts labels.old.names made parts.old
        → OnOk result (ShowsParts labels.new.names
        (with_made made (at_once_made (at.number + 1) (plans_from item (statements_from (map (statement_tree source) statements.now))) (reads start) (part_ends at.number)))
        parts.new) }
{
    let start = at.start;
    let mut number = after(at.number)?;
    for statement in statements {
        if !is_over(statement) {
            push_ended(alloc, labels, &mut parts.pieces, number, at.number)?;
            push_part(alloc, labels, parts, statement, Entry { number, start })?;
        }
        number = after_part(number, statement)?;
    }
    Ok(())
}
