//! The rules F3 to F5 of statements: widths, numbers and literals.
ghost use Rattle.std.specs.Prelude.{◌↔◌, ◌≡◌, ◌<◌, List, IsTrue, Some, All, AllPairs, Any, map, IfSome, option_map};
ghost use Rattle.hw_names.specs.Name.{Text, text_of};
ghost use Rattle.fil_ast.specs.Numbers.{TimeHasNumber, ValueHasNumbers, IsNumberOf, StatementHasNumbers};
ghost use Rattle.fil_ast.specs.Scope.{Scope, output_of};
ghost use Rattle.fil_ast.specs.Signature as tree;
ghost use Rattle.fil_ast.specs.Tree.{value_tree, TimeAt, giving, time_tree, statement_tree};
ghost use Rattle.fil_ast.specs.Typing.{LiteralFits, GivesEach, GivesWidths, value_width, KeepsNumbers, KeepsWidths};
ghost use Rattle.fil_ast.specs.declared.tree.Time.{Time};
ghost use Rattle.fil_sig.specs.Seen.{seen, seen_delay};
ghost use Rattle.fil_rules.specs.inside.Arguments.{AreWide};
ghost use Rattle.fil_place.specs.Place.{IsPlaceIn};
ghost use Rattle.fil_place.specs.Tables.{signature_at};

use fil_ast::{Stmt, Time, Value};
use fil_place::{Callee, Place, output, value_width};
use fil_sig::{Delay, SigEvent, SigPort, TimeSig};
use hw_bits::{Bits, MAX_WIDTH};
use hw_names::{NameId, Names};

/// Whether the value, where it is a literal, has a width of 1 to 128 and fits it.
pub fn literal_fits(value: Value) -> bool
    ensures { (names : List Text) → IsTrue result ↔ LiteralFits (value_tree names value) }
{
    match value {
        Value::Lit { width, value } => {
            if width > MAX_WIDTH as u128 {
                return false;
            }
            Bits::new(value, width as u8).is_some()
        }
        _ => true,
    }
}

/// Whether each literal has a width of 1 to 128 and fits it.
fn are_literals(args: &[Value]) -> bool
    ensures { (names : List Text) → IsTrue result ↔ All (λ arg. LiteralFits (value_tree names arg)) args.now }
{
    for arg in args {
        if !literal_fits(*arg) {
            return false;
        }
    }
    true
}

/// Whether a value is known and has this width in bits.
pub fn has_width(place: &Place, value: Value, width: u128) -> bool
    requires { ValueHasNumbers place.now.names.now value }
    ensures { (scope : Scope) → IsPlaceIn place.now scope
        → IsTrue result ↔ (value_width scope (value_tree place.now.names.now value) ≡ Some width) }
{
    match value_width(place, value) {
        Some(found) => found == width,
        None => false,
    }
}

/// Whether each argument that has a port has its width.
fn have_widths(place: &Place, ports: &[SigPort], args: &[Value]) -> bool
    requires { All (ValueHasNumbers place.now.names.now) args.now }
    ensures { (scope : Scope) → IsPlaceIn place.now scope
        → IsTrue result ↔ AreWide scope place.now.names.now ports.now args.now }
{
    for (arg, port) in args.iter().zip(ports) {
        if !has_width(place, *arg, port.width as u128) {
            return false;
        }
    }
    true
}

/// F3 of what an invocation gives.
pub fn gives_widths(place: &Place, sig: &TimeSig, args: &[Value]) -> bool
    requires { All (ValueHasNumbers place.now.names.now) args.now }
    ensures { (scope : Scope) (at : List Time) → IsPlaceIn place.now scope
        → IsTrue result ↔ GivesWidths scope (seen sig.now) (giving place.now.names.now at args.now) }
{
    are_literals(args) && have_widths(place, &sig.ins, args)
}

/// Whether an event is held until the next, as a register's first is.
fn has_gap(events: &[SigEvent]) -> bool
    ensures { IsTrue result ↔ Any (λ event. seen_delay event.delay ≡ tree.Gap) events.now }
{
    for event in events {
        if event.delay == Delay::Gap {
            return true;
        }
    }
    false
}

/// Whether the times name one event.
fn name_one_event(names: &Names, at: &[Time]) -> bool
    requires { All (TimeHasNumber names.now) at.now }
    ensures { IsTrue result ↔ AllPairs (λ (s t : TimeAt). s.event ≡ t.event) (map (time_tree names.now) at.now) }
{
    let Some(first) = at.first() else {
        return true;
    };
    let event = names.text(first.event);
    for time in at {
        if names.text(time.event) != event {
            return false;
        }
    }
    true
}

/// F4 of what an invocation gives.
pub fn gives_each(names: &Names, sig: &TimeSig, at: &[Time], args: &[Value]) -> bool
    requires { All (TimeHasNumber names.now) at.now }
    ensures { IsTrue result ↔ GivesEach (seen sig.now) (giving names.now at.now args.now) }
{
    if at.len() != sig.events.len() || args.len() != sig.ins.len() {
        return false;
    }
    if has_gap(&sig.events) {
        name_one_event(names, at)
    } else {
        true
    }
}

/// F3 of a callee's arguments, where there is a callee.
fn gives_callee_widths(place: &Place, callee: Option<&Callee>, args: &[Value]) -> bool
    requires { All (ValueHasNumbers place.now.names.now) args.now }
    ensures { (scope : Scope) (at : List Time) → IsPlaceIn place.now scope
        → IsTrue result ↔ IfSome (option_map (λ callee. callee.now) callee.entry) (λ sig. GivesWidths scope sig (giving place.now.names.now at args.now)) }
{
    match callee {
        Some(callee) => gives_widths(place, callee.sig(), args),
        None => true,
    }
}

/// Whether a value has the width of an output, where there is one of this name.
fn has_output_width(place: &Place, dst: NameId, value: Value) -> bool
    requires dst { IsNumberOf place.now.names.now dst }
    requires value { ValueHasNumbers place.now.names.now value }
    ensures { (scope : Scope) → IsPlaceIn place.now scope
        → IsTrue result ↔ IfSome (output_of scope (text_of place.now.names.now dst)) (λ port. value_width scope (value_tree place.now.names.now value) ≡ Some port.width) }
{
    match output(place.comp, place.tables, place.names.text(dst)) {
        Some(port) => has_width(place, value, port.width),
        None => true,
    }
}

/// F3: parameters have the right number and range, literals fit, and each argument that has a port and each
/// connected value has its width. `callee` is what the statement makes or invokes.
pub fn keeps_widths(place: &Place, callee: Option<&Callee>, stmt: &Stmt) -> bool
    requires { StatementHasNumbers place.now.names.now stmt.now }
    ensures { (scope : Scope) → IsPlaceIn place.now scope
        → option_map (λ callee. callee.now) callee.entry ≡ signature_at scope (statement_tree place.now.names.now stmt.now)
        → IsTrue result ↔ KeepsWidths scope (statement_tree place.now.names.now stmt.now) }
{
    match stmt {
        Stmt::New { .. } => callee.is_some(),
        Stmt::Call { args, .. } => gives_callee_widths(place, callee, args),
        Stmt::Both { args, .. } => { callee.is_some() && gives_callee_widths(place, callee, args) }
        Stmt::Set { dst, value } => {
            literal_fits(*value) && has_output_width(place, *dst, *value)
        }
    }
}

/// F4 of what an invocation gives its callee, where there is a callee.
fn gives_callee_each(names: &Names, callee: Option<&Callee>, at: &[Time], args: &[Value]) -> bool
    requires { All (TimeHasNumber names.now) at.now }
    ensures { IsTrue result ↔ IfSome (option_map (λ callee. callee.now) callee.entry) (λ sig. GivesEach sig (giving names.now at.now args.now)) }
{
    match callee {
        Some(callee) => gives_each(names, callee.sig(), at, args),
        None => true,
    }
}

/// F4: as many times and arguments as the callee has events and data inputs, a register's two times on one event.
pub fn keeps_numbers(names: &Names, callee: Option<&Callee>, stmt: &Stmt) -> bool
    requires { StatementHasNumbers names.now stmt.now }
    ensures { (scope : Scope)
        → option_map (λ callee. callee.now) callee.entry ≡ signature_at scope (statement_tree names.now stmt.now)
        → IsTrue result ↔ KeepsNumbers scope (statement_tree names.now stmt.now) }
{
    match stmt {
        Stmt::Call { at, args, .. } => gives_callee_each(names, callee, at, args),
        Stmt::Both { at, args, .. } => gives_callee_each(names, callee, at, args),
        _ => true,
    }
}
