//! Loops, choices and bodies, from terminals. Only blocks make the reading recur.
ghost use Rattle.std.specs.Prelude.{◌≡◌, List, map};
ghost use Rattle.hw_grammar.specs.Reading.{Gives, GivesNamed, many};
ghost use Rattle.hw_grammar.specs.Sort.{has};
ghost use Rattle.hw_names.specs.Name.{Text, text_of};
ghost use Rattle.par_parse.specs.Tree.{expression_tree, statement_tree};
ghost use Rattle.par_parse.specs.inside.Reading.{statement_set, block_by, range_at, for_by, comparison_at, condition_at};
ghost use Rattle.par_parse.specs.inside.Reading.{maybe_else_by, branches_by, if_by, statement_to, body_at};

use crate::expression::read_expression;
use crate::statement::read_plain_statement;
use crate::tree::{Expression, ParamStatement};
use hw_grammar::{ReadEnd, Sort, Terminal, read_name, read_one, starts, starts_any};
use hw_names::NameId;
use std::alloc::Global;

/// The head of a loop: `name in from..to`.
#[derive(Drop)]
struct Range {
    name: NameId,
    from: Expression,
    to: Expression,
}

/// What a choice goes by: `left < right`, or `left == right` where it is not `less`.
#[derive(Drop)]
struct Condition {
    less: bool,
    left: Expression,
    right: Expression,
}

/// The two bodies of a choice.
#[derive(Drop)]
struct Branches {
    yes: Vec<ParamStatement>,
    no: Vec<ParamStatement>,
}

/// `NAME "in" expr ".." expr`
#[tactic(auto, unfolding(crate::specs::inside::Reading::range_at))]
fn read_range(alloc: Global, ts: &[Terminal]) -> Result<(Range, &[Terminal]), ReadEnd<'_>>
    ensures { GivesNamed (λ names x. ((text_of names x.0.name, (expression_tree names x.0.from, expression_tree names x.0.to)), x.1.now)) result
        (λ names. range_at names ts.now) }
{
    let (name, rest) = read_name(ts)?;
    let (_, rest) = read_one(rest, Sort::In)?;
    let (from, rest) = read_expression(alloc, rest)?;
    let (_, rest) = read_one(rest, Sort::DotDot)?;
    let (to, rest) = read_expression(alloc, rest)?;
    Ok((Range { name, from, to }, rest))
}

/// `"==" | "<"`; whether it is the second.
#[tactic(auto, unfolding(crate::specs::inside::Reading::comparison_at))]
fn read_comparison(ts: &[Terminal]) -> Result<(bool, &[Terminal]), ReadEnd<'_>>
    ensures { Gives (λ x. (x.0, x.1.now)) result (comparison_at ts.now) }
{
    if starts(ts, Sort::EqualsEquals) {
        let (_, rest) = read_one(ts, Sort::EqualsEquals)?;
        Ok((false, rest))
    } else {
        let (_, rest) = read_one(ts, Sort::LeftAngle)?;
        Ok((true, rest))
    }
}

/// `expr ("==" | "<") expr`
#[tactic(auto, unfolding(crate::specs::inside::Reading::condition_at))]
fn read_condition(alloc: Global, ts: &[Terminal]) -> Result<(Condition, &[Terminal]), ReadEnd<'_>>
    ensures { GivesNamed (λ names x. ((expression_tree names x.0.left, (x.0.less, expression_tree names x.0.right)), x.1.now)) result
        (λ names. condition_at names ts.now) }
{
    let (left, rest) = read_expression(alloc, ts)?;
    let (less, rest) = read_comparison(rest)?;
    let (right, rest) = read_expression(alloc, rest)?;
    Ok((Condition { less, left, right }, rest))
}

/// Whether a statement starts here.
fn starts_statement(ts: &[Terminal]) -> bool
    ensures { result ≡ has statement_set ts.now }
{
    starts_any(ts, &[Sort::Name, Sort::For, Sort::If])
}

/// `{stmt}`, with blocks in the statements less deep in one another than `depth`.
#[cycle(statements)]
fn read_statements(
    alloc: Global,
    depth: usize,
    ts: &[Terminal],
) -> Result<(Vec<ParamStatement>, &[Terminal]), ReadEnd<'_>>
    ensures { GivesNamed (λ names x. (map (statement_tree names) x.0.items, x.1.now)) result
        (λ names. many statement_set (statement_to names depth) ts.now) }
{
    let mut all = Vec::new(alloc);
    let mut rest = ts;
    // Each round takes a terminal at least.
    for _ in 0..ts.len() {
        if !starts_statement(rest) {
            return Ok((all, rest));
        }
        let (next, after) = read_statement(alloc, depth, rest)?;
        all.push(next)?;
        rest = after;
    }
    if starts_statement(rest) {
        Err(ReadEnd::Refused(rest))
    } else {
        Ok((all, rest))
    }
}

/// `"{" {stmt} "}"`
#[cycle(statements)]
fn read_block(
    alloc: Global,
    depth: usize,
    ts: &[Terminal],
) -> Result<(Vec<ParamStatement>, &[Terminal]), ReadEnd<'_>>
    ensures { GivesNamed (λ names x. (map (statement_tree names) x.0.items, x.1.now)) result (λ names. block_by (statement_to names depth) ts.now) }
{
    let (_, rest) = read_one(ts, Sort::LeftBrace)?;
    let (statements, rest) = read_statements(alloc, depth, rest)?;
    let (_, rest) = read_one(rest, Sort::RightBrace)?;
    Ok((statements, rest))
}

/// `"for" NAME "in" expr ".." expr "{" {stmt} "}"`
#[cycle(statements)]
fn read_for(
    alloc: Global,
    depth: usize,
    ts: &[Terminal],
) -> Result<(ParamStatement, &[Terminal]), ReadEnd<'_>>
    ensures { GivesNamed (λ names x. (statement_tree names x.0, x.1.now)) result (λ names. for_by names (statement_to names depth) ts.now) }
{
    let (_, rest) = read_one(ts, Sort::For)?;
    let (range, rest) = read_range(alloc, rest)?;
    let Range { name, from, to } = range;
    let (body, rest) = read_block(alloc, depth, rest)?;
    let statement = ParamStatement::For {
        name,
        from,
        to,
        body,
    };
    Ok((statement, rest))
}

/// `["else" "{" {stmt} "}"]`
#[cycle(statements)]
fn else_or_none(
    alloc: Global,
    depth: usize,
    ts: &[Terminal],
) -> Result<(Vec<ParamStatement>, &[Terminal]), ReadEnd<'_>>
    ensures { GivesNamed (λ names x. (map (statement_tree names) x.0.items, x.1.now)) result (λ names. maybe_else_by (statement_to names depth) ts.now) }
{
    if starts(ts, Sort::Else) {
        let (_, rest) = read_one(ts, Sort::Else)?;
        let (body, rest) = read_block(alloc, depth, rest)?;
        Ok((body, rest))
    } else {
        Ok((Vec::new(alloc), ts))
    }
}

/// The two bodies of an `if`, of which the second may be missing.
#[cycle(statements)]
fn read_branches(
    alloc: Global,
    depth: usize,
    ts: &[Terminal],
) -> Result<(Branches, &[Terminal]), ReadEnd<'_>>
    ensures { GivesNamed (λ names x. ((map (statement_tree names) x.0.yes.items, map (statement_tree names) x.0.no.items), x.1.now)) result
        (λ names. branches_by (statement_to names depth) ts.now) }
{
    let (yes, rest) = read_block(alloc, depth, ts)?;
    let (no, rest) = else_or_none(alloc, depth, rest)?;
    Ok((Branches { yes, no }, rest))
}

/// `"if" expr ("==" | "<") expr "{" {stmt} "}" ["else" "{" {stmt} "}"]`
#[cycle(statements)]
fn read_if(
    alloc: Global,
    depth: usize,
    ts: &[Terminal],
) -> Result<(ParamStatement, &[Terminal]), ReadEnd<'_>>
    ensures { GivesNamed (λ names x. (statement_tree names x.0, x.1.now)) result (λ names. if_by names (statement_to names depth) ts.now) }
{
    let (_, rest) = read_one(ts, Sort::If)?;
    let (condition, rest) = read_condition(alloc, rest)?;
    let (branches, rest) = read_branches(alloc, depth, rest)?;
    let Condition { less, left, right } = condition;
    let Branches { yes, no } = branches;
    let statement = ParamStatement::If {
        less,
        left,
        right,
        yes,
        no,
    };
    Ok((statement, rest))
}

/// A statement, with blocks in it less deep in one another than `depth`.
#[cycle(statements)]
fn read_statement(
    alloc: Global,
    depth: usize,
    ts: &[Terminal],
) -> Result<(ParamStatement, &[Terminal]), ReadEnd<'_>>
    ensures { GivesNamed (λ names x. (statement_tree names x.0, x.1.now)) result (λ names. statement_to names depth ts.now) }
{
    if depth == 0 {
        return Err(ReadEnd::Refused(ts));
    }
    if starts(ts, Sort::Name) {
        read_plain_statement(alloc, ts)
    } else if starts(ts, Sort::For) {
        read_for(alloc, depth - 1, ts)
    } else {
        read_if(alloc, depth - 1, ts)
    }
}

/// The body of a component: `"{" {stmt} "}"`.
#[tactic(auto, unfolding(crate::specs::inside::Reading::body_at))]
pub fn read_body(
    alloc: Global,
    ts: &[Terminal],
) -> Result<(Vec<ParamStatement>, &[Terminal]), ReadEnd<'_>>
    ensures { GivesNamed (λ names x. (map (statement_tree names) x.0.items, x.1.now)) result (λ names. body_at names ts.now) }
{
    // Blocks stand less deep in one another than there are terminals.
    read_block(alloc, ts.len(), ts)
}
