//! What a name means at a place: a data input, an output, an invocation, an instance or a value.
ghost use Rattle.std.specs.Prelude.{◌≡◌, List, Some, Contains, slice_get, option_and_then, option_map, IfSome};
ghost use Rattle.hw_names.specs.Name.{Text};
ghost use Rattle.fil_ast.specs.Numbers.{ValueHasNumbers};
ghost use Rattle.fil_ast.specs.Scope.{Scope, Result, input_of, instance_signature, invocation_named, output_of, result_of};
ghost use Rattle.fil_ast.specs.Signature.{sig_port};
ghost use Rattle.fil_ast.specs.Tree.{port_tree, value_tree};
ghost use Rattle.fil_ast.specs.Typing.{value_width};
ghost use Rattle.fil_ast.specs.declared.tree.FilComp.{FilComp};
ghost use Rattle.fil_sig.specs.Seen.{seen_port};
ghost use Rattle.fil_place.specs.Place.{IsPlaceIn};
ghost use Rattle.fil_place.specs.Tables.{IsPlace, instance_of, made_signature, times_of, times_shown};
ghost use Rattle.fil_place.specs.declared.earlier.Earlier.{Earlier};

use crate::callee::Callee;
use crate::earlier::Earlier;
use crate::place::Place;
use crate::tables::{Made, Tables};
use crate::times::Offset;
use fil_ast::{FilComp, FilPort, Value};
use fil_sig::SigPort;

/// The data input of this name.
pub fn input<'a>(comp: &'a FilComp, tables: &Tables, name: &[u8]) -> Option<&'a FilPort>
    ensures meaning { (names : List Text) (earlier : Earlier) (scope : Scope) → IsPlace names earlier comp.now tables.now scope
        → option_map (λ port. sig_port scope.comp.events (port_tree names port.now)) result ≡ input_of scope name.now }
    ensures among { IfSome result (λ port. Contains comp.now.ins.items port.now) }
{
    let number = tables.ports.find(name)?.0 as usize;
    let place = number.checked_sub(comp.gos.len())?;
    comp.ins.get(place)
}

/// The output of this name.
pub fn output<'a>(comp: &'a FilComp, tables: &Tables, name: &[u8]) -> Option<&'a FilPort>
    ensures meaning { (names : List Text) (earlier : Earlier) (scope : Scope) → IsPlace names earlier comp.now tables.now scope
        → option_map (λ port. sig_port scope.comp.events (port_tree names port.now)) result ≡ output_of scope name.now }
    ensures among { IfSome result (λ port. Contains comp.now.outs.items port.now) }
{
    let number = tables.ports.find(name)?.0 as usize;
    let data = number.checked_sub(comp.gos.len())?;
    let place = data.checked_sub(comp.ins.len())?;
    comp.outs.get(place)
}

/// The number of the invocation of this name.
fn invocation(comp: &FilComp, tables: &Tables, name: &[u8]) -> Option<usize>
    ensures { (names : List Text) (earlier : Earlier) (scope : Scope) → IsPlace names earlier comp.now tables.now scope
        → option_and_then (slice_get scope.invocations) result ≡ invocation_named scope.invocations name.now }
{
    let number = tables.ports.find(name)?.0 as usize;
    let data = number.checked_sub(comp.gos.len())?;
    let outs = data.checked_sub(comp.ins.len())?;
    outs.checked_sub(comp.outs.len())
}

/// The times that the invocation of this name gives.
pub fn given_by<'a>(comp: &FilComp, tables: &'a Tables, name: &[u8]) -> Option<&'a Vec<Offset>>
    ensures { (names : List Text) (earlier : Earlier) (scope : Scope) → IsPlace names earlier comp.now tables.now scope
        → option_map (λ at. times_shown tables.now.events at.now) result ≡ option_map times_of (invocation_named scope.invocations name.now) }
{
    let place = invocation(comp, tables, name)?;
    tables.times.get(place)
}

/// The number of the instance that the invocation of this name invokes.
pub fn invoked_by(comp: &FilComp, tables: &Tables, name: &[u8]) -> Option<usize>
    ensures { (names : List Text) (earlier : Earlier) (scope : Scope) → IsPlace names earlier comp.now tables.now scope
        → option_map (slice_get tables.now.instances) result ≡ option_map instance_of (invocation_named scope.invocations name.now) }
{
    let place = invocation(comp, tables, name)?;
    tables.invoked.get(place).copied()
}

/// The signature of what an instance is made of.
pub fn callee_made<'a>(earlier: &'a Earlier, made: &'a Made) -> Option<&'a Callee>
    ensures { option_map (λ callee. callee.now) result ≡ made_signature earlier.now made.now }
{
    match made {
        Made::Component(number) => earlier.callees.get(*number),
        Made::Primitive(callee) => Some(callee),
    }
}

/// The signature of the instance with this number.
pub fn callee_at<'a>(
    earlier: &'a Earlier,
    tables: &'a Tables,
    instance: usize,
) -> Option<&'a Callee>
    ensures { (names : List Text) (comp : FilComp) (scope : Scope) (name : Text) → IsPlace names earlier.now comp tables.now scope
        → slice_get tables.now.instances instance ≡ Some name
        → option_map (λ callee. callee.now) result ≡ instance_signature scope name }
{
    callee_made(earlier, tables.made.get(instance)?)
}

/// The signature of the instance of this name.
pub fn callee_named<'a>(earlier: &'a Earlier, tables: &'a Tables, name: &[u8]) -> Option<&'a Callee>
    ensures { (names : List Text) (comp : FilComp) (scope : Scope) → IsPlace names earlier.now comp tables.now scope
        → option_map (λ callee. callee.now) result ≡ instance_signature scope name.now }
{
    let instance = tables.instances.find(name)?;
    callee_at(earlier, tables, instance.0 as usize)
}

/// The output of this name of an invocation.
pub fn result_port<'a>(place: &Place<'a>, invocation: &[u8], port: &[u8]) -> Option<&'a SigPort>
    ensures { (scope : Scope) → IsPlaceIn place.now scope
        → option_map (λ port. seen_port port.now) result ≡ option_map (λ (r : Result). r.port) (result_of scope invocation.now port.now) }
{
    let instance = invoked_by(place.comp, place.tables, invocation)?;
    callee_at(place.earlier, place.tables, instance)?.output(port)
}

/// The width of a value in bits; `None` for a value that isn't known.
pub fn value_width(place: &Place, value: Value) -> Option<u128>
    requires { ValueHasNumbers place.now.names.now value }
    ensures { (scope : Scope) → IsPlaceIn place.now scope → result ≡ value_width scope (value_tree place.now.names.now value) }
{
    match value {
        Value::Port(name) => Some(input(place.comp, place.tables, place.names.text(name))?.width),
        Value::Out(invocation, port) => {
            let found = result_port(place, place.names.text(invocation), place.names.text(port))?;
            Some(found.width as u128)
        }
        Value::Lit { width, .. } => Some(width),
    }
}
