//! The rules F6 to F8 and F10: when ports, arguments and events of callees are held, read and triggered.
ghost use Rattle.std.specs.Prelude.{◌≡◌, ◌↔◌, ◌^◌, ◌<◌, All, IsTrue, List, Some, IfErr, IfSome, OnOk, flat_map, map, option_map, MatchOption};
ghost use Rattle.hw_names.specs.Name.{Text, AreDistinct};
ghost use Rattle.fil_ast.specs.Connections.{connected_at};
ghost use Rattle.fil_ast.specs.Evidence.{IsMissingOffset};
ghost use Rattle.fil_ast.specs.Naming.{event_names};
ghost use Rattle.fil_ast.specs.Numbers.{ComponentHasNumbers, PortHasNumbers, StatementHasNumbers, ValueHasNumbers};
ghost use Rattle.fil_ast.specs.Scope.{Scope};
ghost use Rattle.fil_ast.specs.Signature.{Signature};
ghost use Rattle.fil_ast.specs.Timeline.{HasShortPorts, IsShort, ReadsAvailable};
ghost use Rattle.fil_ast.specs.Tree.{component_tree, port_tree, Statement, TimeAt, statement_tree, value_tree};
ghost use Rattle.fil_sig.specs.Seen.{seen, seen_port};
ghost use Rattle.fil_place.specs.Callees.{HasGoodTimes, HasSmallInterval};
ghost use Rattle.fil_rules.specs.inside.Invocation.{KeepsTimes, TellsTimes};
ghost use Rattle.fil_place.specs.Place.{IsPlaceIn};
ghost use Rattle.fil_rules.specs.inside.Stages.{HoldsUses, KeepsFrom, KeptAt, ShownAt, TellsFrom};
ghost use Rattle.fil_place.specs.Tables.{AreTimesOf, signature_at};
ghost use Rattle.fil_place.specs.Times.{AreTimes};

pub mod available;
pub mod holds;
pub mod missing;

use crate::connections::connects_once;
use crate::rules::{Broken, Evidence, ItemEnd, Rule, breaks};
use crate::timeline::available::missing_in;
use crate::timeline::holds::{holds_some, keeps_delays};
use fil_ast::{FilComp, FilPort, Stmt, Value};
use fil_place::{Callee, Offset, Place, interval_at};
use fil_sig::{SigPort, TimeSig};
use hw_names::Names;

/// Whether the port is available no longer than its event's delay.
fn is_short(names: &Names, comp: &FilComp, events: &Names, port: FilPort) -> bool
    requires numbers { PortHasNumbers names.now port }
    requires events { events.now ≡ event_names (component_tree names.now comp.now) }
    ensures { IsTrue result ↔ IsShort (component_tree names.now comp.now) (port_tree names.now port) }
{
    let Some(number) = events.find(names.text(port.from.event)) else {
        return true;
    };
    match comp.events.get(number.0 as usize) {
        Some(event) => port.to.plus.saturating_sub(port.from.plus) <= event.delay,
        None => true,
    }
}

/// Whether each port is available no longer than its event's delay.
fn are_short(names: &Names, comp: &FilComp, events: &Names, ports: &[FilPort]) -> bool
    requires numbers { All (PortHasNumbers names.now) ports.now }
    requires events { events.now ≡ event_names (component_tree names.now comp.now) }
    ensures { IsTrue result ↔ All (λ port. IsShort (component_tree names.now comp.now) (port_tree names.now port)) ports.now }
{
    for port in ports {
        if !is_short(names, comp, events, *port) {
            return false;
        }
    }
    true
}

/// F6: each port is available no longer than its event's delay, where `events` are the names of the events.
pub fn has_short_ports(names: &Names, comp: &FilComp, events: &Names) -> bool
    requires numbers { ComponentHasNumbers names.now comp.now }
    requires events { events.now ≡ event_names (component_tree names.now comp.now) }
    ensures { IsTrue result ↔ HasShortPorts (component_tree names.now comp.now) }
{
    are_short(names, comp, events, &comp.ins) && are_short(names, comp, events, &comp.outs)
}

/// F7, F8 and F10 of what is invoked, where something is.
fn judge_callee(
    place: &Place,
    callee: Option<&Callee>,
    at: &[Offset],
    args: &[Value],
) -> Result<(), ItemEnd>
    requires numbers { ComponentHasNumbers place.now.names.now place.now.comp.now }
    requires values { All (ValueHasNumbers place.now.names.now) args.now }
    ensures kept { (scope : Scope) (times : List TimeAt) (inst : Text) → IsPlaceIn place.now scope
        → AreDistinct place.now.tables.now.events → AreTimes place.now.tables.now.events at.now times
        → OnOk result (IfSome (option_map (λ callee. callee.now) callee.entry)
        (λ sig. KeepsTimes scope sig inst (record { times = times; args = map (value_tree place.now.names.now) args.now }))) }
    ensures broken { (scope : Scope) (times : List TimeAt) (inst : Text) → IsPlaceIn place.now scope
        → AreDistinct place.now.tables.now.events → AreTimes place.now.tables.now.events at.now times
        → IfErr result (λ end. (sig : Signature) × (option_map (λ callee. callee.now) callee.entry ≡ Some sig)
        × TellsTimes scope sig inst (record { times = times; args = map (value_tree place.now.names.now) args.now }) end) }
    ensures good { IfSome (option_map (λ callee. callee.now) callee.entry) HasGoodTimes }
{
    match callee {
        Some(callee) => judge_invocation(place, callee.sig(), at, args),
        None => Ok(()),
    }
}

/// Judges a statement by F7 to F10; `callee` is what it makes or invokes, at these times.
pub fn judge_timing(
    place: &Place,
    callee: Option<&Callee>,
    at: &[Offset],
    stmt: &Stmt,
) -> Result<(), ItemEnd>
    requires numbers { ComponentHasNumbers place.now.names.now place.now.comp.now }
    requires statement { StatementHasNumbers place.now.names.now stmt.now }
    ensures kept { (scope : Scope) (before : List Statement) → IsPlaceIn place.now scope
        → AreDistinct place.now.tables.now.events → place.now.tables.now.connected ≡ flat_map connected_at before
        → option_map (λ callee. callee.now) callee.entry ≡ signature_at scope (statement_tree place.now.names.now stmt.now)
        → AreTimesOf place.now.tables.now.events at.now (statement_tree place.now.names.now stmt.now)
        → OnOk result (KeepsFrom (KeptAt scope before (statement_tree place.now.names.now stmt.now)) 6 10) }
    ensures broken { (scope : Scope) (before : List Statement) → IsPlaceIn place.now scope
        → AreDistinct place.now.tables.now.events → place.now.tables.now.connected ≡ flat_map connected_at before
        → option_map (λ callee. callee.now) callee.entry ≡ signature_at scope (statement_tree place.now.names.now stmt.now)
        → AreTimesOf place.now.tables.now.events at.now (statement_tree place.now.names.now stmt.now)
        → IfErr result (TellsFrom (KeptAt scope before (statement_tree place.now.names.now stmt.now)) (ShownAt scope (statement_tree place.now.names.now stmt.now)) 6) }
    ensures held { (scope : Scope) (before : List Statement)
        → option_map (λ callee. callee.now) callee.entry ≡ signature_at scope (statement_tree place.now.names.now stmt.now)
        → KeepsFrom (KeptAt scope before (statement_tree place.now.names.now stmt.now)) 6 10
        → HoldsUses scope (statement_tree place.now.names.now stmt.now) }
{
    match stmt {
        Stmt::Call { args, .. } => judge_callee(place, callee, at, args),
        Stmt::Both { args, .. } => judge_callee(place, callee, at, args),
        Stmt::Set { dst, value } => {
            if connects_once(place, *dst, *value) {
                Ok(())
            } else {
                Err(breaks(Rule::F9))
            }
        }
        Stmt::New { .. } => Ok(()),
    }
}

/// Judges an invocation of a callee of this signature at these times by F7, F8 and F10.
fn judge_invocation(
    place: &Place,
    sig: &TimeSig,
    at: &[Offset],
    args: &[Value],
) -> Result<(), ItemEnd>
    requires numbers { ComponentHasNumbers place.now.names.now place.now.comp.now }
    requires values { All (ValueHasNumbers place.now.names.now) args.now }
    requires times { HasGoodTimes (seen sig.now) }
    ensures kept { (scope : Scope) (times : List TimeAt) (inst : Text) → IsPlaceIn place.now scope
        → AreDistinct place.now.tables.now.events → AreTimes place.now.tables.now.events at.now times
        → OnOk result (KeepsTimes scope (seen sig.now) inst (record { times = times; args = map (value_tree place.now.names.now) args.now })) }
    ensures broken { (scope : Scope) (times : List TimeAt) (inst : Text) → IsPlaceIn place.now scope
        → AreDistinct place.now.tables.now.events → AreTimes place.now.tables.now.events at.now times
        → IfErr result (TellsTimes scope (seen sig.now) inst (record { times = times; args = map (value_tree place.now.names.now) args.now })) }
{
    if !holds_some(sig, at) {
        return Err(breaks(Rule::F7));
    }
    if let Some(offset) = missing_offset(place, sig, at, args) {
        return Err(ItemEnd::Broken(Broken {
            rule: Rule::F8,
            evidence: Evidence::Offset(offset as u64),
        }));
    }
    if !keeps_delays(place.comp, sig, at) {
        return Err(breaks(Rule::F10));
    }
    Ok(())
}

/// The least offset at which the first argument that isn't available for its port is missing.
fn missing_for(place: &Place, ports: &[SigPort], at: &[Offset], args: &[Value]) -> Option<u128>
    requires numbers { ComponentHasNumbers place.now.names.now place.now.comp.now }
    requires values { All (ValueHasNumbers place.now.names.now) args.now }
    ensures cases { (scope : Scope) (times : List TimeAt) (sig : Signature) → IsPlaceIn place.now scope
        → AreDistinct place.now.tables.now.events → AreTimes place.now.tables.now.events at.now times → sig.ins ≡ map seen_port ports.now
        → MatchOption result (ReadsAvailable scope sig (record { times = times; args = map (value_tree place.now.names.now) args.now }))
        (IsMissingOffset scope sig (record { times = times; args = map (value_tree place.now.names.now) args.now })) }
    ensures small { All HasSmallInterval (map seen_port ports.now) → IfSome result (λ offset. offset < 2 ^ 32) }
{
    for (arg, port) in args.iter().zip(ports) {
        let need = interval_at(at, port);
        let found = missing_in(place, need, *arg);
        if found.is_some() {
            return found;
        }
    }
    None
}

/// F8 of an invocation at these times: `None` where each argument is available throughout its need, and else the
/// least offset that is needed and not available, of the first argument that isn't.
fn missing_offset(place: &Place, sig: &TimeSig, at: &[Offset], args: &[Value]) -> Option<u128>
    requires numbers { ComponentHasNumbers place.now.names.now place.now.comp.now }
    requires values { All (ValueHasNumbers place.now.names.now) args.now }
    ensures cases { (scope : Scope) (times : List TimeAt) → IsPlaceIn place.now scope
        → AreDistinct place.now.tables.now.events → AreTimes place.now.tables.now.events at.now times
        → MatchOption result (ReadsAvailable scope (seen sig.now) (record { times = times; args = map (value_tree place.now.names.now) args.now }))
        (IsMissingOffset scope (seen sig.now) (record { times = times; args = map (value_tree place.now.names.now) args.now })) }
    ensures small { HasGoodTimes (seen sig.now) → IfSome result (λ offset. offset < 2 ^ 32) }
{
    missing_for(place, &sig.ins, at, args)
}
