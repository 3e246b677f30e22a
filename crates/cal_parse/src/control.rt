//! Control statements, from terminals. Only blocks make the reading recur.
ghost use Rattle.std.specs.Prelude.{◌≡◌, [], ◌∷◌, List, map, option_map};
ghost use Rattle.cal_ast.specs.Tree.{port_tree, statement_tree, control_tree};
ghost use Rattle.cal_parse.specs.Grammar.{branch_from, control_from};
ghost use Rattle.cal_parse.specs.inside.Reading.{statement_set, enable_at, maybe_with_at, maybe_else_by, condition_at, branches_by, if_by, while_by, invoke_at, block_by, branch_by, plain_statement_by, statement_to, maybe_control_at};
ghost use Rattle.hw_grammar.specs.declared.sort.Sort.TheVariants as Sort;
ghost use Rattle.hw_grammar.specs.Reading.{GivesNamed, many};
ghost use Rattle.hw_grammar.specs.Sort.{has};
ghost use Rattle.hw_names.specs.Name.{Text, text_of};

use crate::attribute::read_attributes;
use crate::binding::{read_in_bindings, read_out_bindings};
use crate::port::read_port;
use cal_ast::{CalPort, Control, ControlPart};
use hw_grammar::{ReadEnd, Sort, Terminal, read_name, read_one, starts, starts_any};
use hw_names::NameId;
use std::alloc::Global;

/// Whether a statement starts here.
fn starts_statement(ts: &[Terminal]) -> bool
    ensures { result ≡ has statement_set ts.now }
{
    starts_any(
        ts,
        &[
            Sort::At,
            Sort::Name,
            Sort::Seq,
            Sort::Par,
            Sort::If,
            Sort::While,
            Sort::Invoke,
        ],
    )
}

/// One after another; a statement alone is itself.
fn branch_of(mut statements: Vec<Control>) -> Control
    ensures { (names : List Text) → statement_tree names result ≡ branch_from (map (statement_tree names) statements.items) }
{
    if statements.len() != 1 {
        return Control::Seq(statements);
    }
    match statements.pop() {
        Some(only) => only,
        None => Control::Seq(statements),
    }
}

/// `NAME ";"`
#[tactic(auto, unfolding(crate::specs::inside::Reading::enable_at))]
fn read_enable(ts: &[Terminal]) -> Result<(Control, &[Terminal]), ReadEnd<'_>>
    ensures { GivesNamed (λ names x. (statement_tree names x.0, x.1.now)) result (λ names. enable_at names ts.now) }
{
    let (group, rest) = read_name(ts)?;
    let (_, rest) = read_one(rest, Sort::Semicolon)?;
    Ok((Control::Enable(group), rest))
}

/// `["with" NAME]`
#[tactic(auto, unfolding(crate::specs::inside::Reading::maybe_with_at))]
fn with_or_none(ts: &[Terminal]) -> Result<(Option<NameId>, &[Terminal]), ReadEnd<'_>>
    ensures { GivesNamed (λ names x. (option_map (text_of names) x.0, x.1.now)) result (λ names. maybe_with_at names ts.now) }
{
    if starts(ts, Sort::With) {
        let (_, rest) = read_one(ts, Sort::With)?;
        let (group, rest) = read_name(rest)?;
        Ok((Some(group), rest))
    } else {
        Ok((None, ts))
    }
}

/// `port ["with" NAME]`
#[tactic(auto, unfolding(crate::specs::inside::Reading::condition_at))]
fn read_condition(ts: &[Terminal]) -> Result<((CalPort, Option<NameId>), &[Terminal]), ReadEnd<'_>>
    ensures { GivesNamed (λ names x. ((port_tree names x.0.0, option_map (text_of names) x.0.1), x.1.now)) result (λ names. condition_at names ts.now) }
{
    let (port, rest) = read_port(ts)?;
    let (by, rest) = with_or_none(rest)?;
    Ok(((port, by), rest))
}

/// `"invoke" NAME "(" [ib {"," ib} [","]] ")" "(" [ob {"," ob} [","]] ")" ";"`
#[tactic(auto, unfolding(crate::specs::inside::Reading::invoke_at))]
fn read_invoke(alloc: Global, ts: &[Terminal]) -> Result<(Control, &[Terminal]), ReadEnd<'_>>
    ensures { GivesNamed (λ names x. (statement_tree names x.0, x.1.now)) result (λ names. invoke_at names ts.now) }
{
    let (_, rest) = read_one(ts, Sort::Invoke)?;
    let (cell, rest) = read_name(rest)?;
    let (ins, rest) = read_in_bindings(alloc, rest)?;
    let (outs, rest) = read_out_bindings(alloc, rest)?;
    let (_, rest) = read_one(rest, Sort::Semicolon)?;
    Ok((Control::Invoke { cell, ins, outs }, rest))
}

/// `{stmt}`, with blocks in the statements less deep in one another than `depth`.
#[cycle(statements)]
fn read_statements(
    alloc: Global,
    depth: usize,
    ts: &[Terminal],
) -> Result<(Vec<Control>, &[Terminal]), ReadEnd<'_>>
    ensures { GivesNamed (λ names x. (map (statement_tree names) x.0.items, x.1.now)) result
        (λ names. many statement_set (statement_to names depth) ts.now) }
{
    let mut all = Vec::new(alloc);
    let mut rest = ts;
    // Each round takes a terminal at least.
    for _ in 0..ts.len() {
        if !starts_statement(rest) {
            return Ok((all, rest));
        }
        let (next, after) = read_statement(alloc, depth, rest)?;
        all.push(next)?;
        rest = after;
    }
    if starts_statement(rest) {
        Err(ReadEnd::Refused(rest))
    } else {
        Ok((all, rest))
    }
}

/// `"{" {stmt} "}"`
#[cycle(statements)]
fn read_block(
    alloc: Global,
    depth: usize,
    ts: &[Terminal],
) -> Result<(Vec<Control>, &[Terminal]), ReadEnd<'_>>
    ensures { GivesNamed (λ names x. (map (statement_tree names) x.0.items, x.1.now)) result (λ names. block_by (statement_to names depth) ts.now) }
{
    let (_, rest) = read_one(ts, Sort::LeftBrace)?;
    let (statements, rest) = read_statements(alloc, depth, rest)?;
    let (_, rest) = read_one(rest, Sort::RightBrace)?;
    Ok((statements, rest))
}

/// The block of an `if` or a `while`.
#[cycle(statements)]
fn read_branch(
    alloc: Global,
    depth: usize,
    ts: &[Terminal],
) -> Result<(Control, &[Terminal]), ReadEnd<'_>>
    ensures { GivesNamed (λ names x. (statement_tree names x.0, x.1.now)) result (λ names. branch_by (statement_to names depth) ts.now) }
{
    let (statements, rest) = read_block(alloc, depth, ts)?;
    Ok((branch_of(statements), rest))
}

/// `["else" block]`
#[cycle(statements)]
fn else_or_none(
    alloc: Global,
    depth: usize,
    ts: &[Terminal],
) -> Result<(Control, &[Terminal]), ReadEnd<'_>>
    ensures { GivesNamed (λ names x. (statement_tree names x.0, x.1.now)) result (λ names. maybe_else_by (statement_to names depth) ts.now) }
{
    if starts(ts, Sort::Else) {
        let (_, rest) = read_one(ts, Sort::Else)?;
        let (branch, rest) = read_branch(alloc, depth, rest)?;
        Ok((branch, rest))
    } else {
        Ok((Control::Seq(Vec::new(alloc)), ts))
    }
}

/// `block ["else" block]`
#[cycle(statements)]
fn read_branches(
    alloc: Global,
    depth: usize,
    ts: &[Terminal],
) -> Result<((Control, Control), &[Terminal]), ReadEnd<'_>>
    ensures { GivesNamed (λ names x. ((statement_tree names x.0.0, statement_tree names x.0.1), x.1.now)) result (λ names. branches_by (statement_to names depth) ts.now) }
{
    let (yes, rest) = read_branch(alloc, depth, ts)?;
    let (no, rest) = else_or_none(alloc, depth, rest)?;
    Ok(((yes, no), rest))
}

/// `"if" port ["with" NAME] block ["else" block]`
#[cycle(statements)]
fn read_if(
    alloc: Global,
    depth: usize,
    ts: &[Terminal],
) -> Result<(Control, &[Terminal]), ReadEnd<'_>>
    ensures { GivesNamed (λ names x. (statement_tree names x.0, x.1.now)) result (λ names. if_by names (statement_to names depth) ts.now) }
{
    let (_, rest) = read_one(ts, Sort::If)?;
    let ((port, by), rest) = read_condition(rest)?;
    let ((yes, no), rest) = read_branches(alloc, depth, rest)?;
    let statement = Control::If {
        port,
        by,
        yes: Box::new(alloc, yes)?,
        no: Box::new(alloc, no)?,
    };
    Ok((statement, rest))
}

/// `"while" port ["with" NAME] block`
#[cycle(statements)]
fn read_while(
    alloc: Global,
    depth: usize,
    ts: &[Terminal],
) -> Result<(Control, &[Terminal]), ReadEnd<'_>>
    ensures { GivesNamed (λ names x. (statement_tree names x.0, x.1.now)) result (λ names. while_by names (statement_to names depth) ts.now) }
{
    let (_, rest) = read_one(ts, Sort::While)?;
    let ((port, by), rest) = read_condition(rest)?;
    let (body, rest) = read_branch(alloc, depth, rest)?;
    let statement = Control::While {
        port,
        by,
        body: Box::new(alloc, body)?,
    };
    Ok((statement, rest))
}

/// A statement without its attributes.
#[cycle(statements)]
fn read_plain_statement(
    alloc: Global,
    depth: usize,
    ts: &[Terminal],
) -> Result<(Control, &[Terminal]), ReadEnd<'_>>
    ensures { GivesNamed (λ names x. (statement_tree names x.0, x.1.now)) result (λ names. plain_statement_by names (statement_to names depth) ts.now) }
{
    if starts(ts, Sort::Name) {
        read_enable(ts)
    } else if starts(ts, Sort::Seq) {
        let (_, rest) = read_one(ts, Sort::Seq)?;
        let (statements, rest) = read_block(alloc, depth, rest)?;
        Ok((Control::Seq(statements), rest))
    } else if starts(ts, Sort::Par) {
        let (_, rest) = read_one(ts, Sort::Par)?;
        let (statements, rest) = read_block(alloc, depth, rest)?;
        Ok((Control::Par(statements), rest))
    } else if starts(ts, Sort::If) {
        read_if(alloc, depth, ts)
    } else if starts(ts, Sort::While) {
        read_while(alloc, depth, ts)
    } else {
        read_invoke(alloc, ts)
    }
}

/// A statement with its attributes, which are dropped; its blocks stand less deep in one another than `depth`.
#[cycle(statements)]
fn read_statement(
    alloc: Global,
    depth: usize,
    ts: &[Terminal],
) -> Result<(Control, &[Terminal]), ReadEnd<'_>>
    ensures { GivesNamed (λ names x. (statement_tree names x.0, x.1.now)) result (λ names. statement_to names depth ts.now) }
{
    if depth == 0 {
        return Err(ReadEnd::Refused(ts));
    }
    let (_, rest) = read_attributes(ts)?;
    let (statement, rest) = read_plain_statement(alloc, depth - 1, rest)?;
    Ok((statement, rest))
}

/// The control section that has these statements.
fn control_of(statements: Vec<Control>) -> ControlPart
    ensures { (names : List Text) → control_tree names result ≡ control_from (map (statement_tree names) statements.items) }
{
    if statements.len() == 0 {
        ControlPart::Empty
    } else {
        ControlPart::Body(branch_of(statements))
    }
}

/// `["control" "{" {stmt} "}"]`
#[tactic(auto, unfolding(crate::specs::inside::Reading::maybe_control_at))]
pub fn control_or_none(
    alloc: Global,
    ts: &[Terminal],
) -> Result<(ControlPart, &[Terminal]), ReadEnd<'_>>
    ensures { GivesNamed (λ names x. (control_tree names x.0, x.1.now)) result (λ names. maybe_control_at names ts.now) }
{
    if starts(ts, Sort::Control) {
        let (_, rest) = read_one(ts, Sort::Control)?;
        let (statements, rest) = read_block(alloc, ts.len(), rest)?;
        Ok((control_of(statements), rest))
    } else {
        Ok((ControlPart::Absent, ts))
    }
}
