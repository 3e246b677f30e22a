//! When values are available, and where they are not.
ghost use Rattle.std.specs.Prelude.{◌≡◌, ◌<◌, ℕ, List, Option, IfSome, MatchOption, option_and_then};
ghost use Rattle.hw_names.specs.Name.{Text, AreDistinct};
ghost use Rattle.fil_ast.specs.Naming.{event_names};
ghost use Rattle.fil_ast.specs.Numbers.{ComponentHasNumbers, PortHasNumbers, ValueHasNumbers};
ghost use Rattle.fil_ast.specs.Scope.{Scope, input_of, output_of, result_of};
ghost use Rattle.fil_ast.specs.Signature.{sig_port};
ghost use Rattle.fil_ast.specs.Timeline as timeline;
ghost use Rattle.fil_ast.specs.Tree.{Component, port_tree, value_tree};
ghost use Rattle.fil_rules.specs.inside.Available.{IsMissingIn, ShowsDuring, result_interval};
ghost use Rattle.fil_place.specs.Place.{IsPlaceIn};
ghost use Rattle.fil_rules.specs.inside.Available.{ShowsAvailable};
ghost use Rattle.fil_place.specs.Times.{ShowsInterval};

use crate::timeline::missing::{Available, missing};
use fil_ast::{FilPort, Value};
use fil_place::{Interval, Place, given_by, input, interval_at, output, result_port};
use hw_names::Names;

/// The interval of a port of the component, where both of its times name events.
fn own_interval(names: &Names, events: &Names, port: FilPort) -> Option<Interval>
    requires { PortHasNumbers names.now port }
    ensures { (c : Component) → events.now ≡ event_names c
        → ShowsInterval events.now result (timeline.interval_at (timeline.own_times c) (sig_port c.events (port_tree names.now port))) }
{
    let event = events.find(names.text(port.from.event))?.0 as usize;
    let _end = events.find(names.text(port.to.event))?;
    Some(Interval {
        event,
        from: port.from.plus,
        to: port.to.plus,
    })
}

/// The interval of the data input of this name.
fn input_interval(place: &Place, name: &[u8]) -> Option<Interval>
    requires { ComponentHasNumbers place.now.names.now place.now.comp.now }
    ensures { (scope : Scope) → IsPlaceIn place.now scope
        → ShowsInterval place.now.tables.now.events result (timeline.own_interval scope (input_of scope name.now)) }
{
    let port = input(place.comp, place.tables, name)?;
    own_interval(place.names, &place.tables.events, *port)
}

/// The interval of the output of this name.
pub fn output_interval(place: &Place, name: &[u8]) -> Option<Interval>
    requires { ComponentHasNumbers place.now.names.now place.now.comp.now }
    ensures { (scope : Scope) → IsPlaceIn place.now scope
        → ShowsInterval place.now.tables.now.events result (timeline.own_interval scope (output_of scope name.now)) }
{
    let port = output(place.comp, place.tables, name)?;
    own_interval(place.names, &place.tables.events, *port)
}

/// The interval of the output of this name of an invocation.
fn result_interval(place: &Place, invocation: &[u8], port: &[u8]) -> Option<Interval>
    ensures { (scope : Scope) → IsPlaceIn place.now scope
        → ShowsInterval place.now.tables.now.events result (option_and_then result_interval (result_of scope invocation.now port.now)) }
{
    let found = result_port(place, invocation, port)?;
    let at = given_by(place.comp, place.tables, invocation)?;
    interval_at(at, found)
}

/// Available in the interval; never where there is none.
fn during(interval: Option<Interval>) -> Available
    ensures { (events : List Text) (o : Option timeline.Interval) → AreDistinct events → ShowsInterval events interval o
        → ShowsDuring events o result }
{
    match interval {
        Some(interval) => Available::Within(interval),
        None => Available::Never,
    }
}

/// When the value is available.
fn availability(place: &Place, value: Value) -> Available
    requires numbers { ComponentHasNumbers place.now.names.now place.now.comp.now }
    requires value { ValueHasNumbers place.now.names.now value }
    ensures { (scope : Scope) → IsPlaceIn place.now scope → AreDistinct place.now.tables.now.events
        → ShowsAvailable place.now.tables.now.events scope (value_tree place.now.names.now value) result }
{
    match value {
        Value::Port(name) => during(input_interval(place, place.names.text(name))),
        Value::Out(invocation, port) => during(result_interval(
            place,
            place.names.text(invocation),
            place.names.text(port),
        )),
        Value::Lit { .. } => Available::Always,
    }
}

/// The least offset of an interval, if there is one, at which the value is not available.
pub fn missing_in(place: &Place, need: Option<Interval>, value: Value) -> Option<u128>
    requires numbers { ComponentHasNumbers place.now.names.now place.now.comp.now }
    requires value { ValueHasNumbers place.now.names.now value }
    ensures cases { (scope : Scope) (interval : Option timeline.Interval) → IsPlaceIn place.now scope
        → AreDistinct place.now.tables.now.events → ShowsInterval place.now.tables.now.events need interval
        → MatchOption result (IfSome interval (timeline.Covers scope (value_tree place.now.names.now value))) (IsMissingIn scope (value_tree place.now.names.now value) interval) }
    ensures inside { (end : ℕ) → IfSome need (λ need. need.to < end) → IfSome result (λ offset. offset < end) }
{
    let need = need?;
    let available = availability(place, value);
    missing(need, available)
}
