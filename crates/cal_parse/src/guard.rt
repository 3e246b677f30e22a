//! Guards, from terminals. Only parentheses make the reading recur, so runs of `!` may be long.
ghost use Rattle.std.specs.Prelude.{◌≡◌, List, [], ◌∷◌, map, length, drop, ◌≤◌, IfOk};
ghost use Rattle.std.specs.List.{prefix_len};
ghost use Rattle.cal_ast.specs.Tree.{port_tree};
ghost use Rattle.cal_parse.specs.Grammar.{any_from, all_from};
ghost use Rattle.cal_parse.specs.inside.Reading.{operators, operator_at, test_at, operand_by, negated_by, unit_by, conjunction_by, guard_to, is_not, negated};
ghost use Rattle.hw_grammar.specs.declared.sort.Sort.TheVariants as Sort;
ghost use Rattle.hw_grammar.specs.Reading.{Gives, GivesNamed, with_front, after, between, many};
ghost use Rattle.hw_grammar.specs.Sort.{has};
ghost use Rattle.hw_names.specs.Name.{Text};
ghost use Rattle.net_core.specs.Guard.{guard_tree};

use crate::port::read_source;
use cal_ast::CalPort;
use hw_grammar::{ReadEnd, Sort, Terminal, read_one, starts, starts_any};
use net_core::{Cmp, Guard};
use std::alloc::{AllocError, Global};

/// Whether an operator starts here.
fn starts_operator(ts: &[Terminal]) -> bool
    ensures { result ≡ has operators ts.now }
{
    starts_any(
        ts,
        &[
            Sort::EqualsEquals,
            Sort::NotEquals,
            Sort::LeftAngle,
            Sort::RightAngle,
            Sort::AtMost,
            Sort::AtLeast,
        ],
    )
}

/// `"==" | "!=" | "<" | ">" | "<=" | ">="`
#[tactic(auto, unfolding(crate::specs::inside::Reading::operator_at))]
fn read_operator(ts: &[Terminal]) -> Result<(Cmp, &[Terminal]), ReadEnd<'_>>
    ensures { Gives (λ x. (x.0, x.1.now)) result (operator_at ts.now) }
{
    if starts(ts, Sort::EqualsEquals) {
        let (_, rest) = read_one(ts, Sort::EqualsEquals)?;
        Ok((Cmp::Eq, rest))
    } else if starts(ts, Sort::NotEquals) {
        let (_, rest) = read_one(ts, Sort::NotEquals)?;
        Ok((Cmp::Neq, rest))
    } else if starts(ts, Sort::LeftAngle) {
        let (_, rest) = read_one(ts, Sort::LeftAngle)?;
        Ok((Cmp::Lt, rest))
    } else if starts(ts, Sort::RightAngle) {
        let (_, rest) = read_one(ts, Sort::RightAngle)?;
        Ok((Cmp::Gt, rest))
    } else if starts(ts, Sort::AtMost) {
        let (_, rest) = read_one(ts, Sort::AtMost)?;
        Ok((Cmp::Le, rest))
    } else {
        let (_, rest) = read_one(ts, Sort::AtLeast)?;
        Ok((Cmp::Ge, rest))
    }
}

/// `source [op source]`
#[tactic(auto, unfolding(crate::specs::inside::Reading::test_at))]
fn read_test(alloc: Global, ts: &[Terminal]) -> Result<(Guard<CalPort>, &[Terminal]), ReadEnd<'_>>
    ensures { GivesNamed (λ names x. (guard_tree (port_tree names) x.0, x.1.now)) result (λ names. test_at names ts.now) }
{
    let (left, rest) = read_source(ts)?;
    if starts_operator(rest) {
        let (op, rest) = read_operator(rest)?;
        let (right, rest) = read_source(rest)?;
        let left = Box::new(alloc, left)?;
        let right = Box::new(alloc, right)?;
        Ok((Guard::Test(op, left, right), rest))
    } else {
        Ok((Guard::Read(Box::new(alloc, left)?), rest))
    }
}

/// A guard that is true where all of these are; a guard alone is itself.
fn all_of(mut guards: Vec<Guard<CalPort>>) -> Guard<CalPort>
    ensures { (names : List Text) → guard_tree (port_tree names) result ≡ all_from (map (guard_tree (port_tree names)) guards.items) }
{
    if guards.len() != 1 {
        return Guard::All(guards);
    }
    match guards.pop() {
        Some(only) => only,
        None => Guard::All(guards),
    }
}

/// A guard that is true where one of these is; a guard alone is itself.
fn any_of(mut guards: Vec<Guard<CalPort>>) -> Guard<CalPort>
    ensures { (names : List Text) → guard_tree (port_tree names) result ≡ any_from (map (guard_tree (port_tree names)) guards.items) }
{
    if guards.len() != 1 {
        return Guard::Any(guards);
    }
    match guards.pop() {
        Some(only) => only,
        None => Guard::Any(guards),
    }
}

/// How many `!` stand at the front.
#[tactic(auto, using(crate::proofs::GuardLaws::prefix_fits))]
fn negation_count(ts: &[Terminal]) -> usize
    ensures is { result ≡ prefix_len is_not ts.now }
    ensures fits { result ≤ length ts.now }
{
    ts.iter().take_while(|t| t.sort == Sort::Not).count()
}

/// How many `!` stand at the front, and what follows them.
fn read_negations(ts: &[Terminal]) -> (usize, &[Terminal])
    ensures count { result.0 ≡ prefix_len is_not ts.now }
    ensures rest { result.1.now ≡ drop result.0 ts.now }
{
    let count = negation_count(ts);
    let (_, rest) = ts.split_at(count);
    (count, rest)
}

/// The guard behind so many `!`.
fn negate(alloc: Global, guard: Guard<CalPort>, count: usize) -> Result<Guard<CalPort>, AllocError>
    ensures { IfOk result (λ g. (names : List Text) → guard_tree (port_tree names) g ≡ negated count (guard_tree (port_tree names) guard)) }
{
    let mut negated = guard;
    for _ in 0..count {
        negated = Guard::Not(Box::new(alloc, negated)?);
    }
    Ok(negated)
}

/// `"(" guard ")"`, with parentheses in the guard less deep in one another than `depth`.
#[cycle(guards)]
fn read_parentheses(
    alloc: Global,
    depth: usize,
    ts: &[Terminal],
) -> Result<(Guard<CalPort>, &[Terminal]), ReadEnd<'_>>
    ensures { GivesNamed (λ names x. (guard_tree (port_tree names) x.0, x.1.now)) result
        (λ names. between Sort.LeftParen (guard_to names depth) Sort.RightParen ts.now) }
{
    let (_, rest) = read_one(ts, Sort::LeftParen)?;
    let (guard, rest) = read_guard(alloc, depth, rest)?;
    let (_, rest) = read_one(rest, Sort::RightParen)?;
    Ok((guard, rest))
}

/// What stands behind a run of `!`: `"(" guard ")" | source`.
#[cycle(guards)]
fn read_operand(
    alloc: Global,
    depth: usize,
    ts: &[Terminal],
) -> Result<(Guard<CalPort>, &[Terminal]), ReadEnd<'_>>
    ensures { GivesNamed (λ names x. (guard_tree (port_tree names) x.0, x.1.now)) result (λ names. operand_by names (guard_to names depth) ts.now) }
{
    if starts(ts, Sort::LeftParen) {
        read_parentheses(alloc, depth, ts)
    } else {
        let (source, rest) = read_source(ts)?;
        Ok((Guard::Read(Box::new(alloc, source)?), rest))
    }
}

/// `"!" tight`
#[cycle(guards)]
fn read_negated(
    alloc: Global,
    depth: usize,
    ts: &[Terminal],
) -> Result<(Guard<CalPort>, &[Terminal]), ReadEnd<'_>>
    ensures { GivesNamed (λ names x. (guard_tree (port_tree names) x.0, x.1.now)) result (λ names. negated_by names (guard_to names depth) ts.now) }
{
    let (_, rest) = read_one(ts, Sort::Not)?;
    let (count, rest) = read_negations(rest);
    let (operand, rest) = read_operand(alloc, depth, rest)?;
    let negated = negate(alloc, operand, count)?;
    Ok((Guard::Not(Box::new(alloc, negated)?), rest))
}

/// `"!" tight | "(" guard ")" | source [op source]`
#[cycle(guards)]
fn read_unit(
    alloc: Global,
    depth: usize,
    ts: &[Terminal],
) -> Result<(Guard<CalPort>, &[Terminal]), ReadEnd<'_>>
    ensures { GivesNamed (λ names x. (guard_tree (port_tree names) x.0, x.1.now)) result (λ names. unit_by names (guard_to names depth) ts.now) }
{
    if starts(ts, Sort::Not) {
        read_negated(alloc, depth, ts)
    } else if starts(ts, Sort::LeftParen) {
        read_parentheses(alloc, depth, ts)
    } else {
        read_test(alloc, ts)
    }
}

/// The units of `front`, and those that follow, each after an `&`.
#[cycle(guards)]
fn more_units<'a>(
    alloc: Global,
    depth: usize,
    front: Vec<Guard<CalPort>>,
    ts: &'a [Terminal],
) -> Result<(Vec<Guard<CalPort>>, &'a [Terminal]), ReadEnd<'a>>
    ensures { GivesNamed (λ names x. (map (guard_tree (port_tree names)) x.0.items, x.1.now)) result
        (λ names. with_front (map (guard_tree (port_tree names)) front.items) (many (Sort.And ∷ []) (after Sort.And (unit_by names (guard_to names depth))) ts.now)) }
{
    let mut all = front;
    let mut rest = ts;
    // Each round takes a terminal at least.
    for _ in 0..ts.len() {
        if !starts(rest, Sort::And) {
            return Ok((all, rest));
        }
        let (_, mid) = read_one(rest, Sort::And)?;
        let (next, after) = read_unit(alloc, depth, mid)?;
        all.push(next)?;
        rest = after;
    }
    if starts(rest, Sort::And) {
        Err(ReadEnd::Refused(rest))
    } else {
        Ok((all, rest))
    }
}

/// `unit {"&" unit}`
#[cycle(guards)]
fn read_conjunction(
    alloc: Global,
    depth: usize,
    ts: &[Terminal],
) -> Result<(Guard<CalPort>, &[Terminal]), ReadEnd<'_>>
    ensures { GivesNamed (λ names x. (guard_tree (port_tree names) x.0, x.1.now)) result (λ names. conjunction_by names (guard_to names depth) ts.now) }
{
    let (first, rest) = read_unit(alloc, depth, ts)?;
    let mut all = Vec::new(alloc);
    all.push(first)?;
    let (all, rest) = more_units(alloc, depth, all, rest)?;
    Ok((all_of(all), rest))
}

/// The conjunctions of `front`, and those that follow, each after a `|`.
#[cycle(guards)]
fn more_conjunctions<'a>(
    alloc: Global,
    depth: usize,
    front: Vec<Guard<CalPort>>,
    ts: &'a [Terminal],
) -> Result<(Vec<Guard<CalPort>>, &'a [Terminal]), ReadEnd<'a>>
    ensures { GivesNamed (λ names x. (map (guard_tree (port_tree names)) x.0.items, x.1.now)) result
        (λ names. with_front (map (guard_tree (port_tree names)) front.items) (many (Sort.Or ∷ []) (after Sort.Or (conjunction_by names (guard_to names depth))) ts.now)) }
{
    let mut all = front;
    let mut rest = ts;
    // Each round takes a terminal at least.
    for _ in 0..ts.len() {
        if !starts(rest, Sort::Or) {
            return Ok((all, rest));
        }
        let (_, mid) = read_one(rest, Sort::Or)?;
        let (next, after) = read_conjunction(alloc, depth, mid)?;
        all.push(next)?;
        rest = after;
    }
    if starts(rest, Sort::Or) {
        Err(ReadEnd::Refused(rest))
    } else {
        Ok((all, rest))
    }
}

/// `conj {"|" conj}`, with parentheses less deep in one another than `depth`.
#[cycle(guards)]
pub fn read_guard(
    alloc: Global,
    depth: usize,
    ts: &[Terminal],
) -> Result<(Guard<CalPort>, &[Terminal]), ReadEnd<'_>>
    ensures { GivesNamed (λ names x. (guard_tree (port_tree names) x.0, x.1.now)) result (λ names. guard_to names depth ts.now) }
{
    if depth == 0 {
        return Err(ReadEnd::Refused(ts));
    }
    let (first, rest) = read_conjunction(alloc, depth - 1, ts)?;
    let mut all = Vec::new(alloc);
    all.push(first)?;
    let (all, rest) = more_conjunctions(alloc, depth - 1, all, rest)?;
    Ok((any_of(all), rest))
}
