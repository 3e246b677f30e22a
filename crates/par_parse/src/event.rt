//! Parameters and events of a component, from terminals.
ghost use Rattle.std.specs.Prelude.{◌≡◌, [], ◌∷◌, List, map};
ghost use Rattle.hw_grammar.specs.declared.sort.Sort.TheVariants as Sort;
ghost use Rattle.hw_grammar.specs.Reading.{GivesNamed, with_front, any_word, many, separated};
ghost use Rattle.hw_names.specs.Name.{text_of};
ghost use Rattle.par_parse.specs.Tree.{event_tree};
ghost use Rattle.par_parse.specs.inside.Reading.{more_word_at, parameters_at, event_at, more_event_at, events_at};

use crate::expression::read_expression;
use crate::tree::ParamEvent;
use hw_grammar::{ReadEnd, Sort, Terminal, read_name, read_one, starts};
use hw_names::NameId;
use std::alloc::Global;

/// `"," NAME`
#[tactic(auto, unfolding(crate::specs::inside::Reading::more_word_at))]
fn read_more_name(ts: &[Terminal]) -> Result<(NameId, &[Terminal]), ReadEnd<'_>>
    ensures { GivesNamed (λ names x. (text_of names x.0, x.1.now)) result (λ names. more_word_at names ts.now) }
{
    let (_, rest) = read_one(ts, Sort::Comma)?;
    let (name, rest) = read_name(rest)?;
    Ok((name, rest))
}

/// The names of `front`, and those that follow, each after a comma.
fn more_names<'a>(
    front: Vec<NameId>,
    ts: &'a [Terminal],
) -> Result<(Vec<NameId>, &'a [Terminal]), ReadEnd<'a>>
    ensures { GivesNamed (λ names x. (map (text_of names) x.0.items, x.1.now)) result
        (λ names. with_front (map (text_of names) front.items) (many (Sort.Comma ∷ []) (more_word_at names) ts.now)) }
{
    let mut all = front;
    let mut rest = ts;
    // Each round takes a terminal at least.
    for _ in 0..ts.len() {
        if !starts(rest, Sort::Comma) {
            return Ok((all, rest));
        }
        let (next, after) = read_more_name(rest)?;
        all.push(next)?;
        rest = after;
    }
    if starts(rest, Sort::Comma) {
        Err(ReadEnd::Refused(rest))
    } else {
        Ok((all, rest))
    }
}

/// `NAME {"," NAME}`
#[tactic(auto, unfolding(crate::specs::inside::Reading::more_word_at))]
fn separated_names(
    alloc: Global,
    ts: &[Terminal],
) -> Result<(Vec<NameId>, &[Terminal]), ReadEnd<'_>>
    ensures { GivesNamed (λ names x. (map (text_of names) x.0.items, x.1.now)) result (λ names. separated Sort.Comma (any_word names) ts.now) }
{
    let mut all = Vec::new(alloc);
    let (first, rest) = read_name(ts)?;
    all.push(first)?;
    more_names(all, rest)
}

/// `["[" NAME {"," NAME} "]"]`
#[tactic(auto, unfolding(crate::specs::inside::Reading::parameters_at))]
pub fn names_or_none(
    alloc: Global,
    ts: &[Terminal],
) -> Result<(Vec<NameId>, &[Terminal]), ReadEnd<'_>>
    ensures { GivesNamed (λ names x. (map (text_of names) x.0.items, x.1.now)) result (λ names. parameters_at names ts.now) }
{
    if starts(ts, Sort::LeftBracket) {
        let (_, rest) = read_one(ts, Sort::LeftBracket)?;
        let (params, rest) = separated_names(alloc, rest)?;
        let (_, rest) = read_one(rest, Sort::RightBracket)?;
        Ok((params, rest))
    } else {
        Ok((Vec::new(alloc), ts))
    }
}

/// `NAME ":" expr`
#[tactic(auto, unfolding(crate::specs::inside::Reading::event_at))]
fn read_event(alloc: Global, ts: &[Terminal]) -> Result<(ParamEvent, &[Terminal]), ReadEnd<'_>>
    ensures { GivesNamed (λ names x. (event_tree names x.0, x.1.now)) result (λ names. event_at names ts.now) }
{
    let (name, rest) = read_name(ts)?;
    let (_, rest) = read_one(rest, Sort::Colon)?;
    let (delay, rest) = read_expression(alloc, rest)?;
    Ok((ParamEvent { name, delay }, rest))
}

/// `"," NAME ":" expr`
#[tactic(auto, unfolding(crate::specs::inside::Reading::more_event_at))]
fn read_more_event(alloc: Global, ts: &[Terminal]) -> Result<(ParamEvent, &[Terminal]), ReadEnd<'_>>
    ensures { GivesNamed (λ names x. (event_tree names x.0, x.1.now)) result (λ names. more_event_at names ts.now) }
{
    let (_, rest) = read_one(ts, Sort::Comma)?;
    let (event, rest) = read_event(alloc, rest)?;
    Ok((event, rest))
}

/// The events of `front`, and those that follow, each after a comma.
fn more_events<'a>(
    alloc: Global,
    front: Vec<ParamEvent>,
    ts: &'a [Terminal],
) -> Result<(Vec<ParamEvent>, &'a [Terminal]), ReadEnd<'a>>
    ensures { GivesNamed (λ names x. (map (event_tree names) x.0.items, x.1.now)) result
        (λ names. with_front (map (event_tree names) front.items) (many (Sort.Comma ∷ []) (more_event_at names) ts.now)) }
{
    let mut all = front;
    let mut rest = ts;
    // Each round takes a terminal at least.
    for _ in 0..ts.len() {
        if !starts(rest, Sort::Comma) {
            return Ok((all, rest));
        }
        let (next, after) = read_more_event(alloc, rest)?;
        all.push(next)?;
        rest = after;
    }
    if starts(rest, Sort::Comma) {
        Err(ReadEnd::Refused(rest))
    } else {
        Ok((all, rest))
    }
}

/// `event {"," event}`
#[tactic(auto, unfolding(crate::specs::inside::Reading::more_event_at))]
fn separated_events(
    alloc: Global,
    ts: &[Terminal],
) -> Result<(Vec<ParamEvent>, &[Terminal]), ReadEnd<'_>>
    ensures { GivesNamed (λ names x. (map (event_tree names) x.0.items, x.1.now)) result (λ names. separated Sort.Comma (event_at names) ts.now) }
{
    let mut all = Vec::new(alloc);
    let (first, rest) = read_event(alloc, ts)?;
    all.push(first)?;
    more_events(alloc, all, rest)
}

/// `"<" event {"," event} ">"`
#[tactic(auto, unfolding(crate::specs::inside::Reading::events_at))]
pub fn read_events(
    alloc: Global,
    ts: &[Terminal],
) -> Result<(Vec<ParamEvent>, &[Terminal]), ReadEnd<'_>>
    ensures { GivesNamed (λ names x. (map (event_tree names) x.0.items, x.1.now)) result (λ names. events_at names ts.now) }
{
    let (_, rest) = read_one(ts, Sort::LeftAngle)?;
    let (events, rest) = separated_events(alloc, rest)?;
    let (_, rest) = read_one(rest, Sort::RightAngle)?;
    Ok((events, rest))
}
