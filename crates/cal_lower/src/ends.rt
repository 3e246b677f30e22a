//! Where a part of a plan ends, and what else it is lowered to without the parts inside it.
ghost use Rattle.std.specs.Prelude.{◌≡◌, [], ◌∷◌, ◌++◌, ◌+◌, ℕ, List, map, IfOk, OnOk, IfSome};
ghost use Rattle.hw_names.specs.Name.{Text, text_of};
ghost use Rattle.net_core.specs.Guard.{GuardTree};
ghost use Rattle.net_core.specs.Numbers.{IsNumberOf};
ghost use Rattle.cal_ast.specs.Actors.{GroupNamed};
ghost use Rattle.cal_ast.specs.Plan.{AtOnce, Enables, InTurn, plan_at, plans_from};
ghost use Rattle.cal_ast.specs.Tree.{PortName, statement_tree};
ghost use Rattle.cal_token.specs.inside.Tokens.{Ended, Going};
ghost use Rattle.cal_lower.specs.inside.Labels.{AreTexts, KeepsLabels, LabelHasNumber, label_text};
ghost use Rattle.cal_lower.specs.inside.Making.{IsChoiceAt, Made, ShowsParts, by_group, choice_made, choice_plan, loop_made, part_made, tests_group, with_made};
ghost use Rattle.cal_lower.specs.inside.Parts.{again_guard, chooses_nothing, ended_guard, ended_guards, ends_guard, ends_wire, none_if_over, part_ends, tested_guard};
ghost use Rattle.cal_lower.specs.inside.Pieces.{Piece, Register, either, has_token, is_set, piece, reads, token_name};
ghost use Rattle.cal_lower.specs.inside.Shown.{Guards, ShowsActs, ShowsGuard, ShowsGuards, ShowsPieces, ShowsPort};
ghost use Rattle.cal_lower.specs.inside.Statements.{statements_from};

use crate::acts::Acts;
use crate::guards::{all_of, any_of, both, either, reads, unless};
use crate::labels::Labels;
use crate::made::{Choice, Entry, Inner, Parts, Repeat};
use crate::pieces::{Pieces, one_when};
use crate::sizes::{after, after_part, is_over, last_part};
use crate::texts::Label;
use cal_ast::{CalPort, Control};
use hw_bits::Memory;
use hw_names::NameId;
use net_core::Guard;
use std::alloc::Global;

/// The port is 1, or what this tells is so.
fn port_or(
    alloc: Global,
    labels: &mut Labels,
    port: CalPort,
    label: Label,
) -> Result<Guard<CalPort>, Memory>
    requires number { LabelHasNumber labels.old.names label }
    requires texts { AreTexts labels.old.names labels.old.texts }
    ensures kept { KeepsLabels labels.old labels.new }
    ensures guard { (tree : PortName) → ShowsPort labels.old.names tree port
        → IfOk result (ShowsGuard labels.new.names (either (reads tree) (is_set (label_text labels.old.names label)))) }
{
    let other = labels.port(alloc, label)?;
    either(alloc, reads(alloc, port)?, reads(alloc, other)?)
}

/// What the part enables is enabled: the part starts, or goes on.
fn enabled(alloc: Global, labels: &mut Labels, at: Entry) -> Result<Guard<CalPort>, Memory>
    requires { AreTexts labels.old.names labels.old.texts }
    ensures kept { KeepsLabels labels.old labels.new }
    ensures guard { (start : PortName) → ShowsPort labels.old.names start at.start
        → IfOk result (ShowsGuard labels.new.names (either (reads start) (has_token (Going at.number)))) }
{
    port_or(alloc, labels, at.start, Label::Going(at.number))
}

/// The loop is tested: it starts, or a turn has ended.
pub(crate) fn tested(
    alloc: Global,
    labels: &mut Labels,
    at: Entry,
) -> Result<Guard<CalPort>, Memory>
    requires { AreTexts labels.old.names labels.old.texts }
    ensures kept { KeepsLabels labels.old labels.new }
    ensures guard { (start : PortName) → ShowsPort labels.old.names start at.start
        → IfOk result (ShowsGuard labels.new.names (tested_guard at.number (reads start))) }
{
    port_or(alloc, labels, at.start, Label::Again(at.number))
}

/// The part with this number ends.
pub(crate) fn part_ends(
    alloc: Global,
    labels: &mut Labels,
    number: u64,
) -> Result<Guard<CalPort>, Memory>
    requires { AreTexts labels.old.names labels.old.texts }
    ensures kept { KeepsLabels labels.old labels.new }
    ensures guard { IfOk result (ShowsGuard labels.new.names (part_ends number)) }
{
    let port = labels.port(alloc, Label::Ends(number))?;
    reads(alloc, port)
}

/// An enabled group: where it ends, whether it goes on, and that it is enabled.
pub(crate) fn push_enable(
    alloc: Global,
    labels: &mut Labels,
    parts: &mut Parts,
    group: NameId,
    at: Entry,
) -> Result<(), Memory>
    requires group { IsNumberOf labels.old.names group }
    requires texts { AreTexts labels.old.names labels.old.texts }
    ensures kept { KeepsLabels labels.old labels.new }
    ensures groups { parts.new.acts.groups ≡ parts.old.acts.groups }
    ensures made { (start : PortName) (made : Made) → ShowsPort labels.old.names start at.start → ShowsParts labels.old.names made parts.old
        → OnOk result (ShowsParts labels.new.names (with_made made (part_made at.number (Enables (GroupNamed (text_of labels.old.names group))) (reads start))) parts.new) }
{
    let done = labels.port(alloc, Label::Done(group))?;
    let acting = enabled(alloc, labels, at)?;
    let ends = both(alloc, acting, reads(alloc, done)?)?;
    let drive = one_when(ends);
    parts
        .pieces
        .push(alloc, labels, Label::Ends(at.number), drive)?;
    let acting = enabled(alloc, labels, at)?;
    let goes_on = one_when(unless(alloc, acting, done)?);
    parts
        .pieces
        .push(alloc, labels, Label::Going(at.number), goes_on)?;
    let acting = enabled(alloc, labels, at)?;
    parts.acts.enable(labels.names.text(group), acting)
}

/// Statements in turn, inside the part with this number, which ends where the last of them does.
pub(crate) fn push_turn_end(
    alloc: Global,
    labels: &mut Labels,
    pieces: &mut Pieces,
    statements: &[Control],
    number: u64,
) -> Result<(), Memory>
    requires { AreTexts labels.old.names labels.old.texts }
    ensures kept { KeepsLabels labels.old labels.new }
    ensures pushed { (source : List Text) (item : ℕ) (start : GuardTree PortName) (list : List Piece) → ShowsPieces labels.old.names list pieces.old
        → OnOk result (ShowsPieces labels.new.names
        (list ++ ends_wire number (InTurn (plans_from item (statements_from (map (statement_tree source) statements.now)))) start ∷ []) pieces.new) }
{
    let last = last_part(after(number)?, statements)?;
    let ends = one_when(part_ends(alloc, labels, last)?);
    pieces.push(alloc, labels, Label::Ends(number), ends)
}

/// Puts the guard last that a part ends or has ended, unless it takes no row.
fn push_has_ended(
    alloc: Global,
    labels: &mut Labels,
    guards: &mut Vec<Guard<CalPort>>,
    part: &Inner<'_>,
) -> Result<(), Memory>
    requires { AreTexts labels.old.names labels.old.texts }
    ensures kept { KeepsLabels labels.old labels.new }
    ensures pushed { (source : List Text) (item : ℕ) (trees : List (GuardTree PortName)) → ShowsGuards labels.old.names trees guards.old.items
        → OnOk result (ShowsGuards labels.new.names
        (trees ++ none_if_over (plan_at item (statement_tree source part.now.control.now)) (either (part_ends part.now.number) (has_token (Ended part.now.number)) ∷ []))
        guards.new.items) }
{
    if !is_over(part.control) {
        guards.push(ended(alloc, labels, part.number)?)?;
    }
    Ok(())
}

/// For each of statements at once that takes a row, that it ends or has ended; the first has this number.
fn all_ended(
    alloc: Global,
    labels: &mut Labels,
    number: u64,
    statements: &[Control],
) -> Result<Vec<Guard<CalPort>>, Memory>
    requires { AreTexts labels.old.names labels.old.texts }
    ensures kept { KeepsLabels labels.old labels.new }
    ensures guards { (source : List Text) (item : ℕ) → IfOk result (λ guards.
        ShowsGuards labels.new.names (ended_guards number (plans_from item (statements_from (map (statement_tree source) statements.now)))) guards.items) }
{
    let mut guards = Vec::new(alloc);
    let mut number = number;
    for control in statements {
        push_has_ended(alloc, labels, &mut guards, &Inner { number, control })?;
        number = after_part(number, control)?;
    }
    Ok(guards)
}

/// The part with this number ends, or has ended.
fn ended(alloc: Global, labels: &mut Labels, number: u64) -> Result<Guard<CalPort>, Memory>
    requires { AreTexts labels.old.names labels.old.texts }
    ensures kept { KeepsLabels labels.old labels.new }
    ensures guard { IfOk result (ShowsGuard labels.new.names (either (part_ends number) (has_token (Ended number)))) }
{
    let ends = labels.port(alloc, Label::Ends(number))?;
    port_or(alloc, labels, ends, Label::Ended(number))
}

/// Statements at once, inside the part with this number, which ends where each of them ends or has ended.
pub(crate) fn push_all_end(
    alloc: Global,
    labels: &mut Labels,
    pieces: &mut Pieces,
    statements: &[Control],
    number: u64,
) -> Result<(), Memory>
    requires { AreTexts labels.old.names labels.old.texts }
    ensures kept { KeepsLabels labels.old labels.new }
    ensures pushed { (source : List Text) (item : ℕ) (start : GuardTree PortName) (list : List Piece) → ShowsPieces labels.old.names list pieces.old
        → OnOk result (ShowsPieces labels.new.names
        (list ++ ends_wire number (AtOnce (plans_from item (statements_from (map (statement_tree source) statements.now)))) start ∷ []) pieces.new) }
{
    let guards = all_ended(alloc, labels, after(number)?, statements)?;
    pieces.push(
        alloc,
        labels,
        Label::Ends(number),
        one_when(all_of(alloc, guards)?),
    )
}

/// One of statements at once: that it has ended is kept until all of them have, the part with the number `all`.
pub(crate) fn push_ended(
    alloc: Global,
    labels: &mut Labels,
    pieces: &mut Pieces,
    number: u64,
    all: u64,
) -> Result<(), Memory>
    requires { AreTexts labels.old.names labels.old.texts }
    ensures kept { KeepsLabels labels.old labels.new }
    ensures pushed { (list : List Piece) → ShowsPieces labels.old.names list pieces.old
        → OnOk result (ShowsPieces labels.new.names
        (list ++ piece Register (token_name (Ended number)) (ended_guard number (part_ends all)) ∷ [])
        pieces.new) }
{
    let has_ended = ended(alloc, labels, number)?;
    let all_end = labels.port(alloc, Label::Ends(all))?;
    let still_ended = one_when(unless(alloc, has_ended, all_end)?);
    pieces.push(alloc, labels, Label::Ended(number), still_ended)
}

/// A guard alone.
fn alone(alloc: Global, guard: Guard<CalPort>) -> Result<Vec<Guard<CalPort>>, Memory>
    ensures { (names : List Text) (tree : GuardTree PortName) → ShowsGuard names tree guard → IfOk result (λ guards. ShowsGuards names (tree ∷ []) guards.items) }
{
    let mut guards = Vec::new(alloc);
    guards.push(guard)?;
    Ok(guards)
}

/// The choice starts, and the branch that it takes has no row; no guard where both branches have one.
fn chooses_nothing(
    alloc: Global,
    start: CalPort,
    port: CalPort,
    on_over: bool,
    off_over: bool,
) -> Result<Vec<Guard<CalPort>>, Memory>
    ensures { (names : List Text) (begin tested : PortName) → ShowsPort names begin start → ShowsPort names tested port
        → IfOk result (λ guards. ShowsGuards names (chooses_nothing (reads begin) tested on_over off_over) guards.items) }
{
    if on_over && off_over {
        return alone(alloc, reads(alloc, start)?);
    }
    if on_over {
        return alone(
            alloc,
            both(alloc, reads(alloc, start)?, reads(alloc, port)?)?,
        );
    }
    if off_over {
        return alone(alloc, unless(alloc, reads(alloc, start)?, port)?);
    }
    Ok(Vec::new(alloc))
}

/// Puts the guard last that a part ends, unless it takes no row.
fn push_part_ends(
    alloc: Global,
    labels: &mut Labels,
    guards: &mut Vec<Guard<CalPort>>,
    part: &Inner<'_>,
) -> Result<(), Memory>
    requires { AreTexts labels.old.names labels.old.texts }
    ensures kept { KeepsLabels labels.old labels.new }
    ensures pushed { (source : List Text) (item : ℕ) (trees : List (GuardTree PortName)) → ShowsGuards labels.old.names trees guards.old.items
        → OnOk result (ShowsGuards labels.new.names
        (trees ++ none_if_over (plan_at item (statement_tree source part.now.control.now)) (part_ends part.now.number ∷ [])) guards.new.items) }
{
    if !is_over(part.control) {
        guards.push(part_ends(alloc, labels, part.number)?)?;
    }
    Ok(())
}

/// Where a choice ends.
fn choice_ends(
    alloc: Global,
    labels: &mut Labels,
    choice: &Choice<'_>,
    start: CalPort,
) -> Result<Guard<CalPort>, Memory>
    requires { AreTexts labels.old.names labels.old.texts }
    ensures kept { KeepsLabels labels.old labels.new }
    ensures guard { (source : List Text) (item other number : ℕ) (begin tested : PortName) → IsChoiceAt number source item choice.now
        → ShowsPort labels.old.names begin start → ShowsPort labels.old.names tested choice.now.test.port
        → IfOk result (ShowsGuard labels.new.names (ends_guard number (choice_plan source item other tested labels.old.names choice.now) (reads begin))) }
{
    let on_over = is_over(choice.on.control);
    let off_over = is_over(choice.off.control);
    let mut guards = chooses_nothing(alloc, start, choice.test.port, on_over, off_over)?;
    push_part_ends(alloc, labels, &mut guards, &choice.on)?;
    push_part_ends(alloc, labels, &mut guards, &choice.off)?;
    any_of(alloc, guards)
}

/// The guard of a test goes to the group that acts then, if there is one.
fn push_test(
    labels: &Labels,
    acts: &mut Acts,
    by: Option<NameId>,
    guard: Guard<CalPort>,
) -> Result<(), Memory>
    requires { IfSome by (IsNumberOf labels.now.names) }
    ensures groups { acts.new.groups ≡ acts.old.groups }
    ensures tested { (enabled so_far : Guards) (tree : GuardTree PortName) → ShowsActs labels.now.names enabled so_far acts.old → ShowsGuard labels.now.names tree guard
        → OnOk result (ShowsActs labels.now.names enabled
        (λ group. so_far group ++ tests_group (by_group labels.now.names by) tree group) acts.new) }
{
    match by {
        None => Ok(()),
        Some(group) => acts.test(labels.names.text(group), guard),
    }
}

/// A choice: where it ends, and its test.
pub(crate) fn push_choice(
    alloc: Global,
    labels: &mut Labels,
    parts: &mut Parts,
    choice: &Choice<'_>,
    at: Entry,
) -> Result<(), Memory>
    requires texts { AreTexts labels.old.names labels.old.texts }
    requires by { IfSome choice.now.test.by (IsNumberOf labels.old.names) }
    ensures kept { KeepsLabels labels.old labels.new }
    ensures groups { parts.new.acts.groups ≡ parts.old.acts.groups }
    ensures made { (source : List Text) (item other : ℕ) (begin tested : PortName) (made : Made) → ShowsPort labels.old.names begin at.start
        → ShowsPort labels.old.names tested choice.now.test.port → IsChoiceAt at.number source item choice.now → ShowsParts labels.old.names made parts.old
        → OnOk result (ShowsParts labels.new.names
        (with_made made (choice_made at.number (choice_plan source item other tested labels.old.names choice.now) (by_group labels.old.names choice.now.test.by) (reads begin)))
        parts.new) }
{
    let ends = one_when(choice_ends(alloc, labels, choice, at.start)?);
    parts
        .pieces
        .push(alloc, labels, Label::Ends(at.number), ends)?;
    push_test(
        labels,
        &mut parts.acts,
        choice.test.by,
        reads(alloc, at.start)?,
    )
}

/// In the next row the loop is tested again: its body ends, or is over and the port is 1 in a test.
fn again(
    alloc: Global,
    labels: &mut Labels,
    port: CalPort,
    body: &Inner<'_>,
    at: Entry,
) -> Result<Guard<CalPort>, Memory>
    requires { AreTexts labels.old.names labels.old.texts }
    ensures kept { KeepsLabels labels.old labels.new }
    ensures guard { (source : List Text) (item : ℕ) (begin bit : PortName) → body.now.number ≡ at.number + 1 → ShowsPort labels.old.names begin at.start
        → ShowsPort labels.old.names bit port
        → IfOk result (ShowsGuard labels.new.names (again_guard at.number bit (plan_at item (statement_tree source body.now.control.now)) (reads begin))) }
{
    if is_over(body.control) {
        let tested = tested(alloc, labels, at)?;
        both(alloc, tested, reads(alloc, port)?)
    } else {
        part_ends(alloc, labels, body.number)
    }
}

/// A loop: where it ends, where it is tested again, and its test.
pub(crate) fn push_loop(
    alloc: Global,
    labels: &mut Labels,
    parts: &mut Parts,
    repeat: &Repeat<'_>,
    at: Entry,
) -> Result<(), Memory>
    requires texts { AreTexts labels.old.names labels.old.texts }
    requires by { IfSome repeat.now.test.by (IsNumberOf labels.old.names) }
    ensures kept { KeepsLabels labels.old labels.new }
    ensures groups { parts.new.acts.groups ≡ parts.old.acts.groups }
    ensures made { (source : List Text) (item : ℕ) (begin bit : PortName) (made : Made) → repeat.now.body.number ≡ at.number + 1
        → ShowsPort labels.old.names begin at.start → ShowsPort labels.old.names bit repeat.now.test.port → ShowsParts labels.old.names made parts.old
        → OnOk result (ShowsParts labels.new.names
        (with_made made (loop_made at.number bit (by_group labels.old.names repeat.now.test.by)
        (plan_at item (statement_tree source repeat.now.body.control.now)) (reads begin))) parts.new) }
{
    let port = repeat.test.port;
    let test = tested(alloc, labels, at)?;
    let ends = one_when(unless(alloc, test, port)?);
    parts
        .pieces
        .push(alloc, labels, Label::Ends(at.number), ends)?;
    let turn = one_when(again(alloc, labels, port, &repeat.body, at)?);
    parts
        .pieces
        .push(alloc, labels, Label::Again(at.number), turn)?;
    let test = tested(alloc, labels, at)?;
    push_test(labels, &mut parts.acts, repeat.test.by, test)
}
