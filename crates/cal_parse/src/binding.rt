//! Bindings of invokes, from terminals.
ghost use Rattle.std.specs.Prelude.{◌≡◌, [], ◌∷◌, List, map};
ghost use Rattle.cal_ast.specs.Tree.{in_tree, out_tree};
ghost use Rattle.cal_parse.specs.inside.Reading.{in_binding_at, out_binding_at, in_bindings_at, out_bindings_at};
ghost use Rattle.hw_grammar.specs.declared.sort.Sort.TheVariants as Sort;
ghost use Rattle.hw_grammar.specs.Reading.{GivesNamed, with_front, list_tail, listed};

use crate::port::{read_port, read_source};
use cal_ast::{InBind, OutBind};
use hw_grammar::{ReadEnd, Sort, Terminal, read_name, read_one, starts};
use std::alloc::Global;

/// `NAME "=" source`
#[tactic(auto, unfolding(crate::specs::inside::Reading::in_binding_at))]
fn read_in_binding(ts: &[Terminal]) -> Result<(InBind, &[Terminal]), ReadEnd<'_>>
    ensures { GivesNamed (λ names x. (in_tree names x.0, x.1.now)) result (λ names. in_binding_at names ts.now) }
{
    let (port, rest) = read_name(ts)?;
    let (_, rest) = read_one(rest, Sort::Equals)?;
    let (src, rest) = read_source(rest)?;
    Ok((InBind { port, src }, rest))
}

/// The bindings of `front`, and those that follow, each after a comma; perhaps one comma more.
fn more_in_bindings<'a>(
    front: Vec<InBind>,
    ts: &'a [Terminal],
) -> Result<(Vec<InBind>, &'a [Terminal]), ReadEnd<'a>>
    ensures { GivesNamed (λ names x. (map (in_tree names) x.0.items, x.1.now)) result
        (λ names. with_front (map (in_tree names) front.items) (list_tail Sort.Comma (Sort.Name ∷ []) (in_binding_at names) ts.now)) }
{
    let mut all = front;
    let mut rest = ts;
    // Each round takes a terminal at least.
    for _ in 0..ts.len() {
        if !starts(rest, Sort::Comma) {
            return Ok((all, rest));
        }
        let (_, mid) = read_one(rest, Sort::Comma)?;
        if !starts(mid, Sort::Name) {
            return Ok((all, mid));
        }
        let (next, after) = read_in_binding(mid)?;
        all.push(next)?;
        rest = after;
    }
    if starts(rest, Sort::Comma) {
        Err(ReadEnd::Refused(rest))
    } else {
        Ok((all, rest))
    }
}

/// `[ib {"," ib} [","]]`
fn listed_in_bindings(
    alloc: Global,
    ts: &[Terminal],
) -> Result<(Vec<InBind>, &[Terminal]), ReadEnd<'_>>
    ensures { GivesNamed (λ names x. (map (in_tree names) x.0.items, x.1.now)) result (λ names. listed Sort.Comma (Sort.Name ∷ []) (in_binding_at names) ts.now) }
{
    let mut all = Vec::new(alloc);
    if starts(ts, Sort::Name) {
        let (first, rest) = read_in_binding(ts)?;
        all.push(first)?;
        more_in_bindings(all, rest)
    } else {
        Ok((all, ts))
    }
}

/// `"(" [ib {"," ib} [","]] ")"`
#[tactic(auto, unfolding(crate::specs::inside::Reading::in_bindings_at))]
pub fn read_in_bindings(
    alloc: Global,
    ts: &[Terminal],
) -> Result<(Vec<InBind>, &[Terminal]), ReadEnd<'_>>
    ensures { GivesNamed (λ names x. (map (in_tree names) x.0.items, x.1.now)) result (λ names. in_bindings_at names ts.now) }
{
    let (_, rest) = read_one(ts, Sort::LeftParen)?;
    let (bindings, rest) = listed_in_bindings(alloc, rest)?;
    let (_, rest) = read_one(rest, Sort::RightParen)?;
    Ok((bindings, rest))
}

/// `NAME "=" port`
#[tactic(auto, unfolding(crate::specs::inside::Reading::out_binding_at))]
fn read_out_binding(ts: &[Terminal]) -> Result<(OutBind, &[Terminal]), ReadEnd<'_>>
    ensures { GivesNamed (λ names x. (out_tree names x.0, x.1.now)) result (λ names. out_binding_at names ts.now) }
{
    let (port, rest) = read_name(ts)?;
    let (_, rest) = read_one(rest, Sort::Equals)?;
    let (dst, rest) = read_port(rest)?;
    Ok((OutBind { port, dst }, rest))
}

/// The bindings of `front`, and those that follow, each after a comma; perhaps one comma more.
fn more_out_bindings<'a>(
    front: Vec<OutBind>,
    ts: &'a [Terminal],
) -> Result<(Vec<OutBind>, &'a [Terminal]), ReadEnd<'a>>
    ensures { GivesNamed (λ names x. (map (out_tree names) x.0.items, x.1.now)) result
        (λ names. with_front (map (out_tree names) front.items) (list_tail Sort.Comma (Sort.Name ∷ []) (out_binding_at names) ts.now)) }
{
    let mut all = front;
    let mut rest = ts;
    // Each round takes a terminal at least.
    for _ in 0..ts.len() {
        if !starts(rest, Sort::Comma) {
            return Ok((all, rest));
        }
        let (_, mid) = read_one(rest, Sort::Comma)?;
        if !starts(mid, Sort::Name) {
            return Ok((all, mid));
        }
        let (next, after) = read_out_binding(mid)?;
        all.push(next)?;
        rest = after;
    }
    if starts(rest, Sort::Comma) {
        Err(ReadEnd::Refused(rest))
    } else {
        Ok((all, rest))
    }
}

/// `[ob {"," ob} [","]]`
fn listed_out_bindings(
    alloc: Global,
    ts: &[Terminal],
) -> Result<(Vec<OutBind>, &[Terminal]), ReadEnd<'_>>
    ensures { GivesNamed (λ names x. (map (out_tree names) x.0.items, x.1.now)) result (λ names. listed Sort.Comma (Sort.Name ∷ []) (out_binding_at names) ts.now) }
{
    let mut all = Vec::new(alloc);
    if starts(ts, Sort::Name) {
        let (first, rest) = read_out_binding(ts)?;
        all.push(first)?;
        more_out_bindings(all, rest)
    } else {
        Ok((all, ts))
    }
}

/// `"(" [ob {"," ob} [","]] ")"`
#[tactic(auto, unfolding(crate::specs::inside::Reading::out_bindings_at))]
pub fn read_out_bindings(
    alloc: Global,
    ts: &[Terminal],
) -> Result<(Vec<OutBind>, &[Terminal]), ReadEnd<'_>>
    ensures { GivesNamed (λ names x. (map (out_tree names) x.0.items, x.1.now)) result (λ names. out_bindings_at names ts.now) }
{
    let (_, rest) = read_one(ts, Sort::LeftParen)?;
    let (bindings, rest) = listed_out_bindings(alloc, rest)?;
    let (_, rest) = read_one(rest, Sort::RightParen)?;
    Ok((bindings, rest))
}
