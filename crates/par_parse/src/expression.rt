//! Expressions, from terminals. Only parentheses make the reading recur.
ghost use Rattle.std.specs.Prelude.{◌≡◌, List, [], ◌∷◌, map};
ghost use Rattle.hw_grammar.specs.declared.sort.Sort.TheVariants as Sort;
ghost use Rattle.hw_grammar.specs.Reading.{GivesNamed, with_front, after, between, many, separated};
ghost use Rattle.hw_grammar.specs.Sort.{has};
ghost use Rattle.hw_names.specs.Name.{Text};
ghost use Rattle.par_parse.specs.Grammar.{product_from, sum_from};
ghost use Rattle.par_parse.specs.Tree.{expression_tree};
ghost use Rattle.par_parse.specs.inside.Reading.{atom_by, term_by, next_term_by, signs, expression_to, expression_at, atom_at, more_expression_at};

use crate::tree::Expression;
use hw_grammar::{ReadEnd, Sort, Terminal, read_name, read_number, read_one, starts, starts_any};
use std::alloc::Global;

/// The product of these factors; a factor alone is itself.
fn product_of(mut factors: Vec<Expression>) -> Expression
    ensures { (names : List Text) → expression_tree names result ≡ product_from (map (expression_tree names) factors.items) }
{
    if factors.len() != 1 {
        return Expression::Product(factors);
    }
    match factors.pop() {
        Some(only) => only,
        None => Expression::Product(factors),
    }
}

/// The sum of these terms; a term alone is itself.
fn sum_of(mut terms: Vec<Expression>) -> Expression
    ensures { (names : List Text) → expression_tree names result ≡ sum_from (map (expression_tree names) terms.items) }
{
    if terms.len() != 1 {
        return Expression::Sum(terms);
    }
    match terms.pop() {
        Some(only) => only,
        None => Expression::Sum(terms),
    }
}

/// Whether `+` or `-` starts here.
fn starts_sign(ts: &[Terminal]) -> bool
    ensures { result ≡ has signs ts.now }
{
    starts_any(ts, &[Sort::Plus, Sort::Minus])
}

/// `"(" expr ")"`, with parentheses in the expression less deep in one another than `depth`.
#[cycle(expressions)]
fn read_parentheses(
    alloc: Global,
    depth: usize,
    ts: &[Terminal],
) -> Result<(Expression, &[Terminal]), ReadEnd<'_>>
    ensures { GivesNamed (λ names x. (expression_tree names x.0, x.1.now)) result
        (λ names. between Sort.LeftParen (expression_to names depth) Sort.RightParen ts.now) }
{
    let (_, rest) = read_one(ts, Sort::LeftParen)?;
    let (expression, rest) = read_nested(alloc, depth, rest)?;
    let (_, rest) = read_one(rest, Sort::RightParen)?;
    Ok((expression, rest))
}

/// `NUMBER | NAME | "(" expr ")"`
#[cycle(expressions)]
fn read_nested_atom(
    alloc: Global,
    depth: usize,
    ts: &[Terminal],
) -> Result<(Expression, &[Terminal]), ReadEnd<'_>>
    ensures { GivesNamed (λ names x. (expression_tree names x.0, x.1.now)) result (λ names. atom_by names (expression_to names depth) ts.now) }
{
    if starts(ts, Sort::Number) {
        let (number, rest) = read_number(ts)?;
        Ok((Expression::Num(number), rest))
    } else if starts(ts, Sort::Name) {
        let (name, rest) = read_name(ts)?;
        Ok((Expression::Name(name), rest))
    } else {
        read_parentheses(alloc, depth, ts)
    }
}

/// The factors of `front`, and those that follow, each after a `*`.
#[cycle(expressions)]
fn more_factors<'a>(
    alloc: Global,
    depth: usize,
    front: Vec<Expression>,
    ts: &'a [Terminal],
) -> Result<(Vec<Expression>, &'a [Terminal]), ReadEnd<'a>>
    ensures { GivesNamed (λ names x. (map (expression_tree names) x.0.items, x.1.now)) result
        (λ names. with_front (map (expression_tree names) front.items)
        (many (Sort.Star ∷ []) (after Sort.Star (atom_by names (expression_to names depth))) ts.now)) }
{
    let mut all = front;
    let mut rest = ts;
    // Each round takes a terminal at least.
    for _ in 0..ts.len() {
        if !starts(rest, Sort::Star) {
            return Ok((all, rest));
        }
        let (_, mid) = read_one(rest, Sort::Star)?;
        let (next, after) = read_nested_atom(alloc, depth, mid)?;
        all.push(next)?;
        rest = after;
    }
    if starts(rest, Sort::Star) {
        Err(ReadEnd::Refused(rest))
    } else {
        Ok((all, rest))
    }
}

/// `atom {"*" atom}`
#[cycle(expressions)]
fn read_term(
    alloc: Global,
    depth: usize,
    ts: &[Terminal],
) -> Result<(Expression, &[Terminal]), ReadEnd<'_>>
    ensures { GivesNamed (λ names x. (expression_tree names x.0, x.1.now)) result (λ names. term_by names (expression_to names depth) ts.now) }
{
    let (first, rest) = read_nested_atom(alloc, depth, ts)?;
    let mut all = Vec::new(alloc);
    all.push(first)?;
    let (all, rest) = more_factors(alloc, depth, all, rest)?;
    Ok((product_of(all), rest))
}

/// `("+" | "-") term`
#[cycle(expressions)]
fn read_next_term(
    alloc: Global,
    depth: usize,
    ts: &[Terminal],
) -> Result<(Expression, &[Terminal]), ReadEnd<'_>>
    ensures { GivesNamed (λ names x. (expression_tree names x.0, x.1.now)) result (λ names. next_term_by names (expression_to names depth) ts.now) }
{
    if starts(ts, Sort::Plus) {
        let (_, rest) = read_one(ts, Sort::Plus)?;
        let (term, rest) = read_term(alloc, depth, rest)?;
        Ok((term, rest))
    } else {
        let (_, rest) = read_one(ts, Sort::Minus)?;
        let (term, rest) = read_term(alloc, depth, rest)?;
        Ok((Expression::Minus(Box::new(alloc, term)?), rest))
    }
}

/// The terms of `front`, and those that follow, each after a `+` or a `-`.
#[cycle(expressions)]
fn more_terms<'a>(
    alloc: Global,
    depth: usize,
    front: Vec<Expression>,
    ts: &'a [Terminal],
) -> Result<(Vec<Expression>, &'a [Terminal]), ReadEnd<'a>>
    ensures { GivesNamed (λ names x. (map (expression_tree names) x.0.items, x.1.now)) result
        (λ names. with_front (map (expression_tree names) front.items) (many signs (next_term_by names (expression_to names depth)) ts.now)) }
{
    let mut all = front;
    let mut rest = ts;
    // Each round takes a terminal at least.
    for _ in 0..ts.len() {
        if !starts_sign(rest) {
            return Ok((all, rest));
        }
        let (next, after) = read_next_term(alloc, depth, rest)?;
        all.push(next)?;
        rest = after;
    }
    if starts_sign(rest) {
        Err(ReadEnd::Refused(rest))
    } else {
        Ok((all, rest))
    }
}

/// `term {("+" | "-") term}`, with parentheses less deep in one another than `depth`.
#[cycle(expressions)]
fn read_nested(
    alloc: Global,
    depth: usize,
    ts: &[Terminal],
) -> Result<(Expression, &[Terminal]), ReadEnd<'_>>
    ensures { GivesNamed (λ names x. (expression_tree names x.0, x.1.now)) result (λ names. expression_to names depth ts.now) }
{
    if depth == 0 {
        return Err(ReadEnd::Refused(ts));
    }
    let (first, rest) = read_term(alloc, depth - 1, ts)?;
    let mut all = Vec::new(alloc);
    all.push(first)?;
    let (all, rest) = more_terms(alloc, depth - 1, all, rest)?;
    Ok((sum_of(all), rest))
}

/// `term {("+" | "-") term}`
#[tactic(auto, unfolding(crate::specs::inside::Reading::expression_at))]
pub fn read_expression(
    alloc: Global,
    ts: &[Terminal],
) -> Result<(Expression, &[Terminal]), ReadEnd<'_>>
    ensures { GivesNamed (λ names x. (expression_tree names x.0, x.1.now)) result (λ names. expression_at names ts.now) }
{
    // Parentheses stand less deep in one another than there are terminals.
    read_nested(alloc, ts.len(), ts)
}

/// `NUMBER | NAME | "(" expr ")"`
#[tactic(auto, unfolding(crate::specs::inside::Reading::atom_at))]
pub fn read_atom(alloc: Global, ts: &[Terminal]) -> Result<(Expression, &[Terminal]), ReadEnd<'_>>
    ensures { GivesNamed (λ names x. (expression_tree names x.0, x.1.now)) result (λ names. atom_at names ts.now) }
{
    read_nested_atom(alloc, ts.len(), ts)
}

/// `"," expr`
#[tactic(auto, unfolding(crate::specs::inside::Reading::more_expression_at))]
fn read_more_expression(
    alloc: Global,
    ts: &[Terminal],
) -> Result<(Expression, &[Terminal]), ReadEnd<'_>>
    ensures { GivesNamed (λ names x. (expression_tree names x.0, x.1.now)) result (λ names. more_expression_at names ts.now) }
{
    let (_, rest) = read_one(ts, Sort::Comma)?;
    let (expression, rest) = read_expression(alloc, rest)?;
    Ok((expression, rest))
}

/// The expressions of `front`, and those that follow, each after a comma.
fn more_expressions<'a>(
    alloc: Global,
    front: Vec<Expression>,
    ts: &'a [Terminal],
) -> Result<(Vec<Expression>, &'a [Terminal]), ReadEnd<'a>>
    ensures { GivesNamed (λ names x. (map (expression_tree names) x.0.items, x.1.now)) result
        (λ names. with_front (map (expression_tree names) front.items) (many (Sort.Comma ∷ []) (more_expression_at names) ts.now)) }
{
    let mut all = front;
    let mut rest = ts;
    // Each round takes a terminal at least.
    for _ in 0..ts.len() {
        if !starts(rest, Sort::Comma) {
            return Ok((all, rest));
        }
        let (next, after) = read_more_expression(alloc, rest)?;
        all.push(next)?;
        rest = after;
    }
    if starts(rest, Sort::Comma) {
        Err(ReadEnd::Refused(rest))
    } else {
        Ok((all, rest))
    }
}

/// `expr {"," expr}`
#[tactic(auto, unfolding(crate::specs::inside::Reading::more_expression_at))]
pub fn read_expressions(
    alloc: Global,
    ts: &[Terminal],
) -> Result<(Vec<Expression>, &[Terminal]), ReadEnd<'_>>
    ensures { GivesNamed (λ names x. (map (expression_tree names) x.0.items, x.1.now)) result (λ names. separated Sort.Comma (expression_at names) ts.now) }
{
    let mut all = Vec::new(alloc);
    let (first, rest) = read_expression(alloc, ts)?;
    all.push(first)?;
    more_expressions(alloc, all, rest)
}
