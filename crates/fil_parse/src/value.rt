//! Times, values, invocations and parameters, from terminals.
ghost use Rattle.std.specs.Prelude.{◌≡◌, [], ◌∷◌, List, map};
ghost use Rattle.hw_names.specs.Name.{Text};
ghost use Rattle.hw_grammar.specs.declared.sort.Sort.TheVariants as Sort;
ghost use Rattle.hw_grammar.specs.Sort.{has};
ghost use Rattle.hw_grammar.specs.Reading.{Gives, with_front, many, any_number, separated, either, empty, listed, list_tail};
ghost use Rattle.fil_ast.specs.Tree.{time_tree, value_tree, giving};
ghost use Rattle.fil_parse.specs.inside.Reading.{time_at, more_time_at, times_at, value_at, values_at, call_at, more_number_at, params_at};

use fil_ast::{Time, Value};
use hw_grammar::{ReadEnd, Sort, Terminal, read_name, read_number, read_one, starts, starts_any};
use std::alloc::Global;

/// `NAME ["+" NUMBER]`
#[tactic(auto, unfolding(crate::specs::inside::Reading::time_at))]
pub fn read_time(ts: &[Terminal]) -> Result<(Time, &[Terminal]), ReadEnd<'_>>
    ghost names: { List Text }
    ensures { Gives (λ x. (time_tree names x.0, x.1.now)) result (time_at names ts.now) }
{
    let (event, rest) = read_name(ts)?;
    if starts(rest, Sort::Plus) {
        let (_, rest) = read_one(rest, Sort::Plus)?;
        let (plus, rest) = read_number(rest)?;
        Ok((Time { event, plus }, rest))
    } else {
        Ok((Time { event, plus: 0 }, rest))
    }
}

/// `"," NAME ["+" NUMBER]`
#[tactic(auto, unfolding(crate::specs::inside::Reading::more_time_at))]
fn read_more_time(ts: &[Terminal]) -> Result<(Time, &[Terminal]), ReadEnd<'_>>
    ghost names: { List Text }
    ensures { Gives (λ x. (time_tree names x.0, x.1.now)) result (more_time_at names ts.now) }
{
    let (_, rest) = read_one(ts, Sort::Comma)?;
    let (time, rest) = read_time(rest)?;
    Ok((time, rest))
}

/// The times of `front`, and those that follow, each after a comma.
fn more_times<'a>(
    front: Vec<Time>,
    ts: &'a [Terminal],
) -> Result<(Vec<Time>, &'a [Terminal]), ReadEnd<'a>>
    ghost names: { List Text }
    ensures { Gives (λ x. (map (time_tree names) x.0.items, x.1.now)) result
        (with_front (map (time_tree names) front.items) (many (Sort.Comma ∷ []) (more_time_at names) ts.now)) }
{
    let mut all = front;
    let mut rest = ts;
    // Each round takes a terminal at least.
    for _ in 0..ts.len() {
        if !starts(rest, Sort::Comma) {
            return Ok((all, rest));
        }
        let (next, after) = read_more_time(rest)?;
        all.push(next)?;
        rest = after;
    }
    if starts(rest, Sort::Comma) {
        Err(ReadEnd::Refused(rest))
    } else {
        Ok((all, rest))
    }
}

/// `time {"," time}`
#[tactic(auto, unfolding(crate::specs::inside::Reading::more_time_at))]
fn separated_times(alloc: Global, ts: &[Terminal]) -> Result<(Vec<Time>, &[Terminal]), ReadEnd<'_>>
    ghost names: { List Text }
    ensures { Gives (λ x. (map (time_tree names) x.0.items, x.1.now)) result (separated Sort.Comma (time_at names) ts.now) }
{
    let mut all = Vec::new(alloc);
    let (first, rest) = read_time(ts)?;
    all.push(first)?;
    more_times(all, rest)
}

/// `"<" time {"," time} ">"`
#[tactic(auto, unfolding(crate::specs::inside::Reading::times_at))]
fn read_times(alloc: Global, ts: &[Terminal]) -> Result<(Vec<Time>, &[Terminal]), ReadEnd<'_>>
    ghost names: { List Text }
    ensures { Gives (λ x. (map (time_tree names) x.0.items, x.1.now)) result (times_at names ts.now) }
{
    let (_, rest) = read_one(ts, Sort::LeftAngle)?;
    let (times, rest) = separated_times(alloc, rest)?;
    let (_, rest) = read_one(rest, Sort::RightAngle)?;
    Ok((times, rest))
}

/// `NAME | NAME "." NAME`, or a literal.
#[tactic(auto, unfolding(crate::specs::inside::Reading::value_at))]
pub fn read_value(ts: &[Terminal]) -> Result<(Value, &[Terminal]), ReadEnd<'_>>
    ghost names: { List Text }
    ensures { Gives (λ x. (value_tree names x.0, x.1.now)) result (value_at names ts.now) }
{
    if starts(ts, Sort::Name) {
        let (name, rest) = read_name(ts)?;
        if starts(rest, Sort::Dot) {
            let (_, rest) = read_one(rest, Sort::Dot)?;
            let (port, rest) = read_name(rest)?;
            Ok((Value::Out(name, port), rest))
        } else {
            Ok((Value::Port(name), rest))
        }
    } else {
        let (literal, rest) = read_one(ts, Sort::Literal)?;
        Ok((
            Value::Lit {
                width: literal.width,
                value: literal.value,
            },
            rest,
        ))
    }
}

/// Whether a value starts here.
fn starts_value(ts: &[Terminal]) -> bool
    ensures { result ≡ has (Sort.Name ∷ Sort.Literal ∷ []) ts.now }
{
    starts_any(ts, &[Sort::Name, Sort::Literal])
}

/// The values of `front`, and those that follow, each after a comma; perhaps one comma more.
fn more_values<'a>(
    front: Vec<Value>,
    ts: &'a [Terminal],
) -> Result<(Vec<Value>, &'a [Terminal]), ReadEnd<'a>>
    ghost names: { List Text }
    ensures { Gives (λ x. (map (value_tree names) x.0.items, x.1.now)) result
        (with_front (map (value_tree names) front.items) (list_tail Sort.Comma (Sort.Name ∷ Sort.Literal ∷ []) (value_at names) ts.now)) }
{
    let mut all = front;
    let mut rest = ts;
    // Each round takes a terminal at least.
    for _ in 0..ts.len() {
        if !starts(rest, Sort::Comma) {
            return Ok((all, rest));
        }
        let (_, mid) = read_one(rest, Sort::Comma)?;
        if !starts_value(mid) {
            return Ok((all, mid));
        }
        let (next, after) = read_value(mid)?;
        all.push(next)?;
        rest = after;
    }
    if starts(rest, Sort::Comma) {
        Err(ReadEnd::Refused(rest))
    } else {
        Ok((all, rest))
    }
}

/// `[value {"," value} [","]]`
fn listed_values(alloc: Global, ts: &[Terminal]) -> Result<(Vec<Value>, &[Terminal]), ReadEnd<'_>>
    ghost names: { List Text }
    ensures { Gives (λ x. (map (value_tree names) x.0.items, x.1.now)) result
        (listed Sort.Comma (Sort.Name ∷ Sort.Literal ∷ []) (value_at names) ts.now) }
{
    let mut all = Vec::new(alloc);
    if starts_value(ts) {
        let (first, rest) = read_value(ts)?;
        all.push(first)?;
        more_values(all, rest)
    } else {
        Ok((all, ts))
    }
}

/// `"(" [value {"," value} [","]] ")"`
#[tactic(auto, unfolding(crate::specs::inside::Reading::values_at))]
fn read_values(alloc: Global, ts: &[Terminal]) -> Result<(Vec<Value>, &[Terminal]), ReadEnd<'_>>
    ghost names: { List Text }
    ensures { Gives (λ x. (map (value_tree names) x.0.items, x.1.now)) result (values_at names ts.now) }
{
    let (_, rest) = read_one(ts, Sort::LeftParen)?;
    let (values, rest) = listed_values(alloc, rest)?;
    let (_, rest) = read_one(rest, Sort::RightParen)?;
    Ok((values, rest))
}

/// Times and arguments of an invocation.
#[tactic(auto, unfolding(crate::specs::inside::Reading::call_at))]
pub fn read_call(
    alloc: Global,
    ts: &[Terminal],
) -> Result<((Vec<Time>, Vec<Value>), &[Terminal]), ReadEnd<'_>>
    ghost names: { List Text }
    ensures { Gives (λ x. (giving names x.0.0.items x.0.1.items, x.1.now)) result (call_at names ts.now) }
{
    let (at, rest) = read_times(alloc, ts)?;
    let (args, rest) = read_values(alloc, rest)?;
    Ok(((at, args), rest))
}

/// `"," NUMBER`
#[tactic(auto, unfolding(crate::specs::inside::Reading::more_number_at))]
fn read_more_number(ts: &[Terminal]) -> Result<(u128, &[Terminal]), ReadEnd<'_>>
    ensures { Gives (λ x. (x.0, x.1.now)) result (more_number_at ts.now) }
{
    let (_, rest) = read_one(ts, Sort::Comma)?;
    let (number, rest) = read_number(rest)?;
    Ok((number, rest))
}

/// The numbers of `front`, and those that follow, each after a comma.
fn more_numbers<'a>(
    front: Vec<u128>,
    ts: &'a [Terminal],
) -> Result<(Vec<u128>, &'a [Terminal]), ReadEnd<'a>>
    ensures { Gives (λ x. (x.0.items, x.1.now)) result
        (with_front front.items (many (Sort.Comma ∷ []) more_number_at ts.now)) }
{
    let mut all = front;
    let mut rest = ts;
    // Each round takes a terminal at least.
    for _ in 0..ts.len() {
        if !starts(rest, Sort::Comma) {
            return Ok((all, rest));
        }
        let (next, after) = read_more_number(rest)?;
        all.push(next)?;
        rest = after;
    }
    if starts(rest, Sort::Comma) {
        Err(ReadEnd::Refused(rest))
    } else {
        Ok((all, rest))
    }
}

/// `"[" NUMBER {"," NUMBER} "]"`
#[tactic(auto, unfolding(crate::specs::inside::Reading::params_at, crate::specs::inside::Reading::more_number_at))]
fn read_params(alloc: Global, ts: &[Terminal]) -> Result<(Vec<u128>, &[Terminal]), ReadEnd<'_>>
    ensures { Gives (λ x. (x.0.items, x.1.now)) result (params_at ts.now) }
{
    let (_, rest) = read_one(ts, Sort::LeftBracket)?;
    let mut all = Vec::new(alloc);
    let (first, rest) = read_number(rest)?;
    all.push(first)?;
    let (all, rest) = more_numbers(all, rest)?;
    let (_, rest) = read_one(rest, Sort::RightBracket)?;
    Ok((all, rest))
}

/// `["[" NUMBER {"," NUMBER} "]"]`
pub fn params_or_none(
    alloc: Global,
    ts: &[Terminal],
) -> Result<(Vec<u128>, &[Terminal]), ReadEnd<'_>>
    ensures { Gives (λ x. (x.0.items, x.1.now)) result (either (Sort.LeftBracket ∷ []) params_at (empty []) ts.now) }
{
    if starts(ts, Sort::LeftBracket) {
        read_params(alloc, ts)
    } else {
        Ok((Vec::new(alloc), ts))
    }
}
