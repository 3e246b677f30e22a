//! Guards at the front of a text. Only brackets make the reading recur, so runs of `!` may be long.
ghost use Rattle.std.specs.Prelude.{◌≡◌, ℕ, zero, ◌+◌, ◌*◌, ◌<◌, ◌≤◌, length, drop, take, List, [], ◌∷◌, Some, IfOk, OnOk, codes};
ghost use Rattle.std.specs.List.{prefix_len};
ghost use Rattle.hw_names.specs.Name.{Text, text_of};
ghost use Rattle.net_core.specs.Guard.{GuardTree, source_tree, guard_tree};
ghost use Rattle.net_text.specs.inside.ReadGuards.{operator_at, test_at, test_from, closed, negated, operands_at, bracket_at, guard_at, is_bang};
ghost use Rattle.net_text.specs.inside.ReadResults.{Extends, Gives, GivesNamed, Grows, HasRoom};
ghost use Rattle.net_text.specs.inside.View.{guards_of};

use crate::line_end::LineEnd;
use crate::lines::source;
use crate::words::{after, expect};
use hw_bits::Memory;
use hw_names::{NameId, Names};
use net_core::{Cmp, Guard, Src};
use std::alloc::Global;

/// An operator with the spaces round it, and what follows.
#[tactic(auto, unfolding(crate::specs::inside::ReadGuards::operator_at))]
fn operator(text: &[u8]) -> Result<(Cmp, &[u8]), LineEnd>
    ensures read { Gives (λ x. (x.0, x.1.now)) result (operator_at text.now) }
    ensures length { IfOk result (λ x. length x.1.now ≤ length text.now) }
{
    if let Some(rest) = after(text, b" == ") {
        Ok((Cmp::Eq, rest))
    } else if let Some(rest) = after(text, b" != ") {
        Ok((Cmp::Neq, rest))
    } else if let Some(rest) = after(text, b" < ") {
        Ok((Cmp::Lt, rest))
    } else if let Some(rest) = after(text, b" > ") {
        Ok((Cmp::Gt, rest))
    } else if let Some(rest) = after(text, b" <= ") {
        Ok((Cmp::Le, rest))
    } else if let Some(rest) = after(text, b" >= ") {
        Ok((Cmp::Ge, rest))
    } else {
        Err(LineEnd::Grammar)
    }
}

/// A comparison in brackets, from its operator on, and what follows.
#[tactic(auto, unfolding(crate::specs::inside::ReadGuards::test_at))]
fn test<'a>(
    alloc: Global,
    names: &mut Names,
    left: Src<NameId>,
    text: &'a [u8],
) -> Result<(Guard<NameId>, &'a [u8]), LineEnd>
    requires { HasRoom names.old text.now }
    ensures read { (tree : Src Text) → ((later : List Text) → Extends names.old later → source_tree (text_of later) left ≡ tree)
        → GivesNamed names.new (λ names x. (guard_tree (text_of names) x.0, x.1.now)) result (test_at tree text.now) }
    ensures grows { IfOk result (λ x. Grows names.old names.new text.now x.1.now) }
{
    let (op, rest) = operator(text)?;
    let (right, rest) = source(names, rest)?;
    let rest = expect(rest, b")")?;
    let left = Box::new(alloc, left)?;
    let right = Box::new(alloc, right)?;
    Ok((Guard::Test(op, left, right), rest))
}

/// A comparison of this guard, which has to be a source, from the operator on.
fn compared<'a>(
    alloc: Global,
    names: &mut Names,
    first: &Guard<NameId>,
    text: &'a [u8],
) -> Result<(Guard<NameId>, &'a [u8]), LineEnd>
    requires { HasRoom names.old text.now }
    ensures read { (tree : GuardTree Text) → ((later : List Text) → Extends names.old later → guard_tree (text_of later) first.now ≡ tree)
        → GivesNamed names.new (λ names x. (guard_tree (text_of names) x.0, x.1.now)) result (test_from tree text.now) }
    ensures grows { IfOk result (λ x. Grows names.old names.new text.now x.1.now) }
{
    match first {
        Guard::Read(left) => test(alloc, names, **left, text),
        _ => Err(LineEnd::Grammar),
    }
}

/// How many `!` stand at the front.
#[tactic(auto, using(crate::proofs::WordLemmas::prefix_fits))]
fn negation_count(text: &[u8]) -> usize
    ensures is { result ≡ prefix_len is_bang text.now }
    ensures fits { result ≤ length text.now }
{
    text.iter().take_while(|byte| **byte == b'!').count()
}

/// How many `!` stand at the front, and what follows them.
fn negations(text: &[u8]) -> (usize, &[u8])
    ensures is { result.0 ≡ prefix_len is_bang text.now }
    ensures rest { result.1.now ≡ drop result.0 text.now }
    ensures plain { prefix_len is_bang result.1.now ≡ 0 }
    ensures length { result.0 + length result.1.now ≡ length text.now }
{
    let count = negation_count(text);
    let (_, rest) = text.split_at(count);
    (count, rest)
}

/// The guard behind this many `!`.
fn negate(alloc: Global, guard: Guard<NameId>, count: usize) -> Result<Guard<NameId>, Memory>
    ensures { IfOk result (λ g. (names : List Text) → guard_tree (text_of names) g ≡ negated count (guard_tree (text_of names) guard)) }
{
    let mut negated = guard;
    for _ in 0..count {
        negated = Guard::Not(Box::new(alloc, negated)?);
    }
    Ok(negated)
}

/// A guard at the front, and what follows.
#[cycle(guards)]
pub fn guard<'a>(
    alloc: Global,
    names: &mut Names,
    text: &'a [u8],
) -> Result<(Guard<NameId>, &'a [u8]), LineEnd>
    requires { HasRoom names.old text.now }
    ensures read { GivesNamed names.new (λ names x. (guard_tree (text_of names) x.0, x.1.now)) result (guard_at text.now) }
    ensures grows { IfOk result (λ x. Grows names.old names.new text.now x.1.now) }
{
    let (count, rest) = negations(text);
    let (inner, rest) = unit(alloc, names, rest)?;
    Ok((negate(alloc, inner, count)?, rest))
}

/// A guard at the front that begins with no `!`, and what follows.
#[cycle(guards)]
fn unit<'a>(
    alloc: Global,
    names: &mut Names,
    text: &'a [u8],
) -> Result<(Guard<NameId>, &'a [u8]), LineEnd>
    requires plain { prefix_len is_bang text.now ≡ 0 }
    requires room { HasRoom names.old text.now }
    ensures read { GivesNamed names.new (λ names x. (guard_tree (text_of names) x.0, x.1.now)) result (guard_at text.now) }
    ensures grows { IfOk result (λ x. Grows names.old names.new text.now x.1.now) }
{
    if let Some(rest) = after(text, b"(") {
        return bracket(alloc, names, rest);
    }
    let (source, rest) = source(names, text)?;
    Ok((Guard::Read(Box::new(alloc, source)?), rest))
}

/// A guard in brackets, after the first bracket, and what follows.
#[cycle(guards)]
fn bracket<'a>(
    alloc: Global,
    names: &mut Names,
    text: &'a [u8],
) -> Result<(Guard<NameId>, &'a [u8]), LineEnd>
    requires { HasRoom names.old text.now }
    ensures read { GivesNamed names.new (λ names x. (guard_tree (text_of names) x.0, x.1.now)) result (bracket_at text.now) }
    ensures grows { IfOk result (λ x. Grows names.old names.new text.now x.1.now) }
{
    let (first, rest) = guard(alloc, names, text)?;
    if let Some(more) = after(rest, b" & ") {
        let (guards, rest) = list(alloc, names, first, b" & ", more)?;
        return Ok((Guard::All(guards), rest));
    }
    if let Some(more) = after(rest, b" | ") {
        let (guards, rest) = list(alloc, names, first, b" | ", more)?;
        return Ok((Guard::Any(guards), rest));
    }
    compared(alloc, names, &first, rest)
}

/// The guards of a list in brackets, after the first one and the first mark, and what follows the last bracket.
#[cycle(guards)]
fn list<'a>(
    alloc: Global,
    names: &mut Names,
    first: Guard<NameId>,
    between: &[u8],
    text: &'a [u8],
) -> Result<(Vec<Guard<NameId>>, &'a [u8]), LineEnd>
    requires { HasRoom names.old text.now }
    ensures read { GivesNamed names.new (λ names x. (guards_of names (drop 1 x.0.items), x.1.now)) result (closed (operands_at between.now text.now)) }
    ensures first { IfOk result (λ x. take 1 x.0.items ≡ first ∷ []) }
    ensures grows { IfOk result (λ x. Grows names.old names.new text.now x.1.now) }
{
    let (guards, rest) = operands(alloc, names, first, between, text)?;
    Ok((guards, expect(rest, b")")?))
}

/// Guards with this mark between each two, after the first one and the first mark, and what follows.
#[cycle(guards)]
fn operands<'a>(
    alloc: Global,
    names: &mut Names,
    first: Guard<NameId>,
    between: &[u8],
    text: &'a [u8],
) -> Result<(Vec<Guard<NameId>>, &'a [u8]), LineEnd>
    requires { HasRoom names.old text.now }
    ensures read { GivesNamed names.new (λ names x. (guards_of names (drop 1 x.0.items), x.1.now)) result (operands_at between.now text.now) }
    ensures first { IfOk result (λ x. take 1 x.0.items ≡ first ∷ []) }
    ensures grows { IfOk result (λ x. Grows names.old names.new text.now x.1.now) }
{
    let mut guards = Vec::new(alloc);
    guards.push(first)?;
    let mut rest = text;
    loop {
        let (next, after_next) = guard(alloc, names, rest)?;
        guards.push(next)?;
        match after(after_next, between) {
            Some(more) => rest = more,
            None => return Ok((guards, after_next)),
        }
    }
}
