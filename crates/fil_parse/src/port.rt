//! Ports and events of a component's signature, from terminals.
ghost use Rattle.std.specs.Prelude.{◌≡◌, [], ◌∷◌, List, map};
ghost use Rattle.hw_names.specs.Name.{Text};
ghost use Rattle.hw_grammar.specs.declared.sort.Sort.TheVariants as Sort;
ghost use Rattle.hw_grammar.specs.Reading.{Gives, with_front, many, separated, listed, list_tail};
ghost use Rattle.fil_ast.specs.Tree.{event_tree, interface_tree, port_tree};
ghost use Rattle.fil_parse.specs.inside.Inputs.{input_tree};
ghost use Rattle.fil_parse.specs.inside.Reading.{placed_at, port_at, interface_at, input_at, event_at, more_event_at, events_at, inputs_at, outputs_at};

use crate::input::InputPort;
use crate::value::read_time;
use fil_ast::{EventDef, FilPort, GoPort};
use hw_grammar::{ReadEnd, Sort, Terminal, read_name, read_number, read_one, starts};
use std::alloc::Global;

/// What follows the `@` of a data port: `"[" time "," time "]" NAME ":" NUMBER`.
#[tactic(auto, unfolding(crate::specs::inside::Reading::placed_at))]
fn read_placed(ts: &[Terminal]) -> Result<(FilPort, &[Terminal]), ReadEnd<'_>>
    ghost names: { List Text }
    ensures { Gives (λ x. (port_tree names x.0, x.1.now)) result (placed_at names ts.now) }
{
    let (_, rest) = read_one(ts, Sort::LeftBracket)?;
    let (from, rest) = read_time(rest)?;
    let (_, rest) = read_one(rest, Sort::Comma)?;
    let (to, rest) = read_time(rest)?;
    let (_, rest) = read_one(rest, Sort::RightBracket)?;
    let (name, rest) = read_name(rest)?;
    let (_, rest) = read_one(rest, Sort::Colon)?;
    let (width, rest) = read_number(rest)?;
    let port = FilPort {
        from,
        to,
        name,
        width,
    };
    Ok((port, rest))
}

/// A data port.
#[tactic(auto, unfolding(crate::specs::inside::Reading::port_at))]
fn read_port(ts: &[Terminal]) -> Result<(FilPort, &[Terminal]), ReadEnd<'_>>
    ghost names: { List Text }
    ensures { Gives (λ x. (port_tree names x.0, x.1.now)) result (port_at names ts.now) }
{
    let (_, rest) = read_one(ts, Sort::At)?;
    let (port, rest) = read_placed(rest)?;
    Ok((port, rest))
}

/// What follows `"@" "interface"`: `"[" NAME "]" NAME ":" NUMBER`.
#[tactic(auto, unfolding(crate::specs::inside::Reading::interface_at))]
fn read_interface(ts: &[Terminal]) -> Result<(GoPort, &[Terminal]), ReadEnd<'_>>
    ghost names: { List Text }
    ensures { Gives (λ x. (interface_tree names x.0, x.1.now)) result (interface_at names ts.now) }
{
    let (_, rest) = read_one(ts, Sort::LeftBracket)?;
    let (event, rest) = read_name(rest)?;
    let (_, rest) = read_one(rest, Sort::RightBracket)?;
    let (name, rest) = read_name(rest)?;
    let (_, rest) = read_one(rest, Sort::Colon)?;
    let (width, rest) = read_number(rest)?;
    Ok((GoPort { event, name, width }, rest))
}

/// An interface port or a data input.
#[tactic(auto, unfolding(crate::specs::inside::Reading::input_at))]
fn read_input(ts: &[Terminal]) -> Result<(InputPort, &[Terminal]), ReadEnd<'_>>
    ghost names: { List Text }
    ensures { Gives (λ x. (input_tree names x.0, x.1.now)) result (input_at names ts.now) }
{
    let (_, rest) = read_one(ts, Sort::At)?;
    if starts(rest, Sort::Interface) {
        let (_, rest) = read_one(rest, Sort::Interface)?;
        let (port, rest) = read_interface(rest)?;
        Ok((InputPort::Interface(port), rest))
    } else {
        let (port, rest) = read_placed(rest)?;
        Ok((InputPort::Data(port), rest))
    }
}

/// The inputs of `front`, and those that follow, each after a comma; perhaps one comma more.
fn more_inputs<'a>(
    front: Vec<InputPort>,
    ts: &'a [Terminal],
) -> Result<(Vec<InputPort>, &'a [Terminal]), ReadEnd<'a>>
    ghost names: { List Text }
    ensures { Gives (λ x. (map (input_tree names) x.0.items, x.1.now)) result
        (with_front (map (input_tree names) front.items) (list_tail Sort.Comma (Sort.At ∷ []) (input_at names) ts.now)) }
{
    let mut all = front;
    let mut rest = ts;
    // Each round takes a terminal at least.
    for _ in 0..ts.len() {
        if !starts(rest, Sort::Comma) {
            return Ok((all, rest));
        }
        let (_, mid) = read_one(rest, Sort::Comma)?;
        if !starts(mid, Sort::At) {
            return Ok((all, mid));
        }
        let (next, after) = read_input(mid)?;
        all.push(next)?;
        rest = after;
    }
    if starts(rest, Sort::Comma) {
        Err(ReadEnd::Refused(rest))
    } else {
        Ok((all, rest))
    }
}

/// `[iport {"," iport} [","]]`
fn listed_inputs(
    alloc: Global,
    ts: &[Terminal],
) -> Result<(Vec<InputPort>, &[Terminal]), ReadEnd<'_>>
    ghost names: { List Text }
    ensures { Gives (λ x. (map (input_tree names) x.0.items, x.1.now)) result (listed Sort.Comma (Sort.At ∷ []) (input_at names) ts.now) }
{
    let mut all = Vec::new(alloc);
    if starts(ts, Sort::At) {
        let (first, rest) = read_input(ts)?;
        all.push(first)?;
        more_inputs(all, rest)
    } else {
        Ok((all, ts))
    }
}

/// `"(" [iport {"," iport} [","]] ")"`
#[tactic(auto, unfolding(crate::specs::inside::Reading::inputs_at))]
pub fn read_inputs(
    alloc: Global,
    ts: &[Terminal],
) -> Result<(Vec<InputPort>, &[Terminal]), ReadEnd<'_>>
    ghost names: { List Text }
    ensures { Gives (λ x. (map (input_tree names) x.0.items, x.1.now)) result (inputs_at names ts.now) }
{
    let (_, rest) = read_one(ts, Sort::LeftParen)?;
    let (inputs, rest) = listed_inputs(alloc, rest)?;
    let (_, rest) = read_one(rest, Sort::RightParen)?;
    Ok((inputs, rest))
}

/// The ports of `front`, and those that follow, each after a comma; perhaps one comma more.
fn more_ports<'a>(
    front: Vec<FilPort>,
    ts: &'a [Terminal],
) -> Result<(Vec<FilPort>, &'a [Terminal]), ReadEnd<'a>>
    ghost names: { List Text }
    ensures { Gives (λ x. (map (port_tree names) x.0.items, x.1.now)) result
        (with_front (map (port_tree names) front.items) (list_tail Sort.Comma (Sort.At ∷ []) (port_at names) ts.now)) }
{
    let mut all = front;
    let mut rest = ts;
    // Each round takes a terminal at least.
    for _ in 0..ts.len() {
        if !starts(rest, Sort::Comma) {
            return Ok((all, rest));
        }
        let (_, mid) = read_one(rest, Sort::Comma)?;
        if !starts(mid, Sort::At) {
            return Ok((all, mid));
        }
        let (next, after) = read_port(mid)?;
        all.push(next)?;
        rest = after;
    }
    if starts(rest, Sort::Comma) {
        Err(ReadEnd::Refused(rest))
    } else {
        Ok((all, rest))
    }
}

/// `[port {"," port} [","]]`
fn listed_ports(alloc: Global, ts: &[Terminal]) -> Result<(Vec<FilPort>, &[Terminal]), ReadEnd<'_>>
    ghost names: { List Text }
    ensures { Gives (λ x. (map (port_tree names) x.0.items, x.1.now)) result (listed Sort.Comma (Sort.At ∷ []) (port_at names) ts.now) }
{
    let mut all = Vec::new(alloc);
    if starts(ts, Sort::At) {
        let (first, rest) = read_port(ts)?;
        all.push(first)?;
        more_ports(all, rest)
    } else {
        Ok((all, ts))
    }
}

/// `"(" [port {"," port} [","]] ")"`
#[tactic(auto, unfolding(crate::specs::inside::Reading::outputs_at))]
pub fn read_outputs(
    alloc: Global,
    ts: &[Terminal],
) -> Result<(Vec<FilPort>, &[Terminal]), ReadEnd<'_>>
    ghost names: { List Text }
    ensures { Gives (λ x. (map (port_tree names) x.0.items, x.1.now)) result (outputs_at names ts.now) }
{
    let (_, rest) = read_one(ts, Sort::LeftParen)?;
    let (ports, rest) = listed_ports(alloc, rest)?;
    let (_, rest) = read_one(rest, Sort::RightParen)?;
    Ok((ports, rest))
}

/// `NAME ":" NUMBER`
#[tactic(auto, unfolding(crate::specs::inside::Reading::event_at))]
fn read_event(ts: &[Terminal]) -> Result<(EventDef, &[Terminal]), ReadEnd<'_>>
    ghost names: { List Text }
    ensures { Gives (λ x. (event_tree names x.0, x.1.now)) result (event_at names ts.now) }
{
    let (name, rest) = read_name(ts)?;
    let (_, rest) = read_one(rest, Sort::Colon)?;
    let (delay, rest) = read_number(rest)?;
    Ok((EventDef { name, delay }, rest))
}

/// `"," NAME ":" NUMBER`
#[tactic(auto, unfolding(crate::specs::inside::Reading::more_event_at))]
fn read_more_event(ts: &[Terminal]) -> Result<(EventDef, &[Terminal]), ReadEnd<'_>>
    ghost names: { List Text }
    ensures { Gives (λ x. (event_tree names x.0, x.1.now)) result (more_event_at names ts.now) }
{
    let (_, rest) = read_one(ts, Sort::Comma)?;
    let (event, rest) = read_event(rest)?;
    Ok((event, rest))
}

/// The events of `front`, and those that follow, each after a comma.
fn more_events<'a>(
    front: Vec<EventDef>,
    ts: &'a [Terminal],
) -> Result<(Vec<EventDef>, &'a [Terminal]), ReadEnd<'a>>
    ghost names: { List Text }
    ensures { Gives (λ x. (map (event_tree names) x.0.items, x.1.now)) result
        (with_front (map (event_tree names) front.items) (many (Sort.Comma ∷ []) (more_event_at names) ts.now)) }
{
    let mut all = front;
    let mut rest = ts;
    // Each round takes a terminal at least.
    for _ in 0..ts.len() {
        if !starts(rest, Sort::Comma) {
            return Ok((all, rest));
        }
        let (next, after) = read_more_event(rest)?;
        all.push(next)?;
        rest = after;
    }
    if starts(rest, Sort::Comma) {
        Err(ReadEnd::Refused(rest))
    } else {
        Ok((all, rest))
    }
}

/// `event {"," event}`
#[tactic(auto, unfolding(crate::specs::inside::Reading::more_event_at))]
fn separated_events(
    alloc: Global,
    ts: &[Terminal],
) -> Result<(Vec<EventDef>, &[Terminal]), ReadEnd<'_>>
    ghost names: { List Text }
    ensures { Gives (λ x. (map (event_tree names) x.0.items, x.1.now)) result (separated Sort.Comma (event_at names) ts.now) }
{
    let mut all = Vec::new(alloc);
    let (first, rest) = read_event(ts)?;
    all.push(first)?;
    more_events(all, rest)
}

/// `"<" event {"," event} ">"`
#[tactic(auto, unfolding(crate::specs::inside::Reading::events_at))]
pub fn read_events(
    alloc: Global,
    ts: &[Terminal],
) -> Result<(Vec<EventDef>, &[Terminal]), ReadEnd<'_>>
    ghost names: { List Text }
    ensures { Gives (λ x. (map (event_tree names) x.0.items, x.1.now)) result (events_at names ts.now) }
{
    let (_, rest) = read_one(ts, Sort::LeftAngle)?;
    let (events, rest) = separated_events(alloc, rest)?;
    let (_, rest) = read_one(rest, Sort::RightAngle)?;
    Ok((events, rest))
}
