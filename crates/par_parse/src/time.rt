//! Times, from terminals.
ghost use Rattle.std.specs.Prelude.{◌≡◌, [], ◌∷◌, List, map};
ghost use Rattle.hw_grammar.specs.declared.sort.Sort.TheVariants as Sort;
ghost use Rattle.hw_grammar.specs.Reading.{GivesNamed, with_front, many, separated};
ghost use Rattle.par_parse.specs.Tree.{expression_tree, time_tree};
ghost use Rattle.par_parse.specs.inside.Reading.{plus_at, time_at, more_time_at, times_at};

use crate::expression::read_expression;
use crate::tree::{Expression, ParamTime};
use hw_grammar::{ReadEnd, Sort, Terminal, read_name, read_one, starts};
use std::alloc::Global;

/// `["+" expr]`; 0 where it is missing.
#[tactic(auto, unfolding(crate::specs::inside::Reading::plus_at))]
fn read_plus(alloc: Global, ts: &[Terminal]) -> Result<(Expression, &[Terminal]), ReadEnd<'_>>
    ensures { GivesNamed (λ names x. (expression_tree names x.0, x.1.now)) result (λ names. plus_at names ts.now) }
{
    if starts(ts, Sort::Plus) {
        let (_, rest) = read_one(ts, Sort::Plus)?;
        let (plus, rest) = read_expression(alloc, rest)?;
        Ok((plus, rest))
    } else {
        Ok((Expression::Num(0), ts))
    }
}

/// `NAME ["+" expr]`
#[tactic(auto, unfolding(crate::specs::inside::Reading::time_at))]
pub fn read_time(alloc: Global, ts: &[Terminal]) -> Result<(ParamTime, &[Terminal]), ReadEnd<'_>>
    ensures { GivesNamed (λ names x. (time_tree names x.0, x.1.now)) result (λ names. time_at names ts.now) }
{
    let (event, rest) = read_name(ts)?;
    let (plus, rest) = read_plus(alloc, rest)?;
    Ok((ParamTime { event, plus }, rest))
}

/// `"," NAME ["+" expr]`
#[tactic(auto, unfolding(crate::specs::inside::Reading::more_time_at))]
fn read_more_time(alloc: Global, ts: &[Terminal]) -> Result<(ParamTime, &[Terminal]), ReadEnd<'_>>
    ensures { GivesNamed (λ names x. (time_tree names x.0, x.1.now)) result (λ names. more_time_at names ts.now) }
{
    let (_, rest) = read_one(ts, Sort::Comma)?;
    let (time, rest) = read_time(alloc, rest)?;
    Ok((time, rest))
}

/// The times of `front`, and those that follow, each after a comma.
fn more_times<'a>(
    alloc: Global,
    front: Vec<ParamTime>,
    ts: &'a [Terminal],
) -> Result<(Vec<ParamTime>, &'a [Terminal]), ReadEnd<'a>>
    ensures { GivesNamed (λ names x. (map (time_tree names) x.0.items, x.1.now)) result
        (λ names. with_front (map (time_tree names) front.items) (many (Sort.Comma ∷ []) (more_time_at names) ts.now)) }
{
    let mut all = front;
    let mut rest = ts;
    // Each round takes a terminal at least.
    for _ in 0..ts.len() {
        if !starts(rest, Sort::Comma) {
            return Ok((all, rest));
        }
        let (next, after) = read_more_time(alloc, rest)?;
        all.push(next)?;
        rest = after;
    }
    if starts(rest, Sort::Comma) {
        Err(ReadEnd::Refused(rest))
    } else {
        Ok((all, rest))
    }
}

/// `time {"," time}`
#[tactic(auto, unfolding(crate::specs::inside::Reading::more_time_at))]
fn separated_times(
    alloc: Global,
    ts: &[Terminal],
) -> Result<(Vec<ParamTime>, &[Terminal]), ReadEnd<'_>>
    ensures { GivesNamed (λ names x. (map (time_tree names) x.0.items, x.1.now)) result (λ names. separated Sort.Comma (time_at names) ts.now) }
{
    let mut all = Vec::new(alloc);
    let (first, rest) = read_time(alloc, ts)?;
    all.push(first)?;
    more_times(alloc, all, rest)
}

/// `"<" time {"," time} ">"`
#[tactic(auto, unfolding(crate::specs::inside::Reading::times_at))]
pub fn read_times(
    alloc: Global,
    ts: &[Terminal],
) -> Result<(Vec<ParamTime>, &[Terminal]), ReadEnd<'_>>
    ensures { GivesNamed (λ names x. (map (time_tree names) x.0.items, x.1.now)) result (λ names. times_at names ts.now) }
{
    let (_, rest) = read_one(ts, Sort::LeftAngle)?;
    let (times, rest) = separated_times(alloc, rest)?;
    let (_, rest) = read_one(rest, Sort::RightAngle)?;
    Ok((times, rest))
}
