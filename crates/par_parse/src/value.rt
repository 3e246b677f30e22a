//! Values, from terminals.
ghost use Rattle.std.specs.Prelude.{◌≡◌, [], ◌∷◌, List, map};
ghost use Rattle.hw_grammar.specs.declared.sort.Sort.TheVariants as Sort;
ghost use Rattle.hw_grammar.specs.Reading.{GivesNamed, with_front, listed, list_tail};
ghost use Rattle.hw_grammar.specs.Sort.{has};
ghost use Rattle.par_parse.specs.Tree.{value_tree};
ghost use Rattle.par_parse.specs.inside.Reading.{named_value_at, made_literal_at, value_at, value_set, values_at};

use crate::expression::read_expression;
use crate::name::read_indexed;
use crate::tree::ParamValue;
use hw_grammar::{ReadEnd, Sort, Terminal, read_one, starts, starts_any};
use std::alloc::Global;

/// `NAME ["#" atom] | NAME ["#" atom] "." NAME ["#" atom]`
#[tactic(auto, unfolding(crate::specs::inside::Reading::named_value_at))]
fn read_named_value(
    alloc: Global,
    ts: &[Terminal],
) -> Result<(ParamValue, &[Terminal]), ReadEnd<'_>>
    ensures { GivesNamed (λ names x. (value_tree names x.0, x.1.now)) result (λ names. named_value_at names ts.now) }
{
    let (name, rest) = read_indexed(alloc, ts)?;
    if starts(rest, Sort::Dot) {
        let (_, rest) = read_one(rest, Sort::Dot)?;
        let (port, rest) = read_indexed(alloc, rest)?;
        Ok((ParamValue::Out(name, port), rest))
    } else {
        Ok((ParamValue::Port(name), rest))
    }
}

/// `"lit" "(" expr "," expr ")"`
#[tactic(auto, unfolding(crate::specs::inside::Reading::made_literal_at))]
fn read_made_literal(
    alloc: Global,
    ts: &[Terminal],
) -> Result<(ParamValue, &[Terminal]), ReadEnd<'_>>
    ensures { GivesNamed (λ names x. (value_tree names x.0, x.1.now)) result (λ names. made_literal_at names ts.now) }
{
    let (_, rest) = read_one(ts, Sort::Lit)?;
    let (_, rest) = read_one(rest, Sort::LeftParen)?;
    let (width, rest) = read_expression(alloc, rest)?;
    let (_, rest) = read_one(rest, Sort::Comma)?;
    let (value, rest) = read_expression(alloc, rest)?;
    let (_, rest) = read_one(rest, Sort::RightParen)?;
    Ok((ParamValue::Made { width, value }, rest))
}

/// A value.
#[tactic(auto, unfolding(crate::specs::inside::Reading::value_at))]
pub fn read_value(alloc: Global, ts: &[Terminal]) -> Result<(ParamValue, &[Terminal]), ReadEnd<'_>>
    ensures { GivesNamed (λ names x. (value_tree names x.0, x.1.now)) result (λ names. value_at names ts.now) }
{
    if starts(ts, Sort::Name) {
        read_named_value(alloc, ts)
    } else if starts(ts, Sort::Literal) {
        let (literal, rest) = read_one(ts, Sort::Literal)?;
        let value = ParamValue::Lit {
            width: literal.width,
            value: literal.value,
        };
        Ok((value, rest))
    } else {
        read_made_literal(alloc, ts)
    }
}

/// Whether a value starts here.
fn starts_value(ts: &[Terminal]) -> bool
    ensures { result ≡ has value_set ts.now }
{
    starts_any(ts, &[Sort::Name, Sort::Literal, Sort::Lit])
}

/// The values of `front`, and those that follow, each after a comma; perhaps one comma more.
fn more_values<'a>(
    alloc: Global,
    front: Vec<ParamValue>,
    ts: &'a [Terminal],
) -> Result<(Vec<ParamValue>, &'a [Terminal]), ReadEnd<'a>>
    ensures { GivesNamed (λ names x. (map (value_tree names) x.0.items, x.1.now)) result
        (λ names. with_front (map (value_tree names) front.items) (list_tail Sort.Comma value_set (value_at names) ts.now)) }
{
    let mut all = front;
    let mut rest = ts;
    // Each round takes a terminal at least.
    for _ in 0..ts.len() {
        if !starts(rest, Sort::Comma) {
            return Ok((all, rest));
        }
        let (_, mid) = read_one(rest, Sort::Comma)?;
        if !starts_value(mid) {
            return Ok((all, mid));
        }
        let (next, after) = read_value(alloc, mid)?;
        all.push(next)?;
        rest = after;
    }
    if starts(rest, Sort::Comma) {
        Err(ReadEnd::Refused(rest))
    } else {
        Ok((all, rest))
    }
}

/// `[value {"," value} [","]]`
fn listed_values(
    alloc: Global,
    ts: &[Terminal],
) -> Result<(Vec<ParamValue>, &[Terminal]), ReadEnd<'_>>
    ensures { GivesNamed (λ names x. (map (value_tree names) x.0.items, x.1.now)) result (λ names. listed Sort.Comma value_set (value_at names) ts.now) }
{
    let mut all = Vec::new(alloc);
    if starts_value(ts) {
        let (first, rest) = read_value(alloc, ts)?;
        all.push(first)?;
        more_values(alloc, all, rest)
    } else {
        Ok((all, ts))
    }
}

/// `"(" [value {"," value} [","]] ")"`
#[tactic(auto, unfolding(crate::specs::inside::Reading::values_at))]
pub fn read_values(
    alloc: Global,
    ts: &[Terminal],
) -> Result<(Vec<ParamValue>, &[Terminal]), ReadEnd<'_>>
    ensures { GivesNamed (λ names x. (map (value_tree names) x.0.items, x.1.now)) result (λ names. values_at names ts.now) }
{
    let (_, rest) = read_one(ts, Sort::LeftParen)?;
    let (values, rest) = listed_values(alloc, rest)?;
    let (_, rest) = read_one(rest, Sort::RightParen)?;
    Ok((values, rest))
}
