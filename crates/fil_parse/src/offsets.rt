//! Numbers after `+` and delays that are too large.
ghost use Rattle.std.specs.Prelude.{◌≡◌, find, flat_map};
ghost use Rattle.fil_ast.specs.Tree.{design_of};
ghost use Rattle.fil_parse.specs.inside.Offsets.{of_times, of_port, of_statement, of_events, of_component};
ghost use Rattle.fil_parse.specs.Spelling.{is_large, first_large};

use fil_ast::{EventDef, FilComp, FilDesign, FilPort, Stmt, Time};
use hw_limits::MOST_OFFSET;

/// The first of the times that is too late.
fn large_time(times: &[Time]) -> Option<u128>
    ensures { result ≡ find is_large (of_times times.now) }
{
    times
        .iter()
        .map(|time| time.plus)
        .find(|plus| *plus > MOST_OFFSET)
}

/// The first of the delays that is too large.
fn large_delay(events: &[EventDef]) -> Option<u128>
    ensures { result ≡ find is_large (of_events events.now) }
{
    events
        .iter()
        .map(|event| event.delay)
        .find(|delay| *delay > MOST_OFFSET)
}

/// The first of a port's times that is too late.
fn large_in_port(port: &FilPort) -> Option<u128>
    ensures { result ≡ find is_large (of_port port.now) }
{
    if port.from.plus > MOST_OFFSET {
        Some(port.from.plus)
    } else if port.to.plus > MOST_OFFSET {
        Some(port.to.plus)
    } else {
        None
    }
}

/// The first of the ports' times that is too late.
fn large_port(ports: &[FilPort]) -> Option<u128>
    ensures { result ≡ find is_large (flat_map of_port ports.now) }
{
    for port in ports {
        if let Some(plus) = large_in_port(port) {
            return Some(plus);
        }
    }
    None
}

/// The first of a statement's times that is too late.
fn large_in_statement(stmt: &Stmt) -> Option<u128>
    ensures { result ≡ find is_large (of_statement stmt.now) }
{
    match stmt {
        Stmt::New { .. } | Stmt::Set { .. } => None,
        Stmt::Call { at, .. } => large_time(at),
        Stmt::Both { at, .. } => large_time(at),
    }
}

/// The first of the statements' times that is too late.
fn large_statement(body: &[Stmt]) -> Option<u128>
    ensures { result ≡ find is_large (flat_map of_statement body.now) }
{
    for stmt in body {
        if let Some(plus) = large_in_statement(stmt) {
            return Some(plus);
        }
    }
    None
}

/// The first number of a component that is too large.
fn large_in_component(comp: &FilComp) -> Option<u128>
    ensures { result ≡ find is_large (of_component comp.now) }
{
    if let Some(delay) = large_delay(&comp.events) {
        return Some(delay);
    }
    if let Some(plus) = large_port(&comp.ins) {
        return Some(plus);
    }
    if let Some(plus) = large_port(&comp.outs) {
        return Some(plus);
    }
    large_statement(&comp.body)
}

/// The first number of the components that is too large.
fn large_component(comps: &[FilComp]) -> Option<u128>
    ensures { result ≡ find is_large (flat_map of_component comps.now) }
{
    for comp in comps {
        if let Some(number) = large_in_component(comp) {
            return Some(number);
        }
    }
    None
}

/// The first number after `+` or delay of a design, in text order, that is too large.
#[tactic(auto, using(crate::proofs::OffsetLists::design_same))]
pub fn first_large(design: &FilDesign) -> Option<u128>
    ensures { result ≡ first_large (design_of design.now) }
{
    large_component(&design.comps)
}
