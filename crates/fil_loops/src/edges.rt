//! Which ports of a component read which within a row.
ghost use Rattle.std.specs.Prelude.{◌≡◌, ◌<◌, [], Some, All, Contains, length, map, option_and_then, option_map, slice_get, IfOk, IfSome, OnOk};
ghost use Rattle.hw_names.specs.Name.{Text};
ghost use Rattle.fil_ast.specs.Numbers.{ComponentHasNumbers, StatementHasNumbers, ValueHasNumbers};
ghost use Rattle.fil_ast.specs.Primitives.{filament_primitive, table_name};
ghost use Rattle.fil_ast.specs.Scope.{Scope, Invocation, instances_at, invocation_named};
ghost use Rattle.fil_ast.specs.Tree.{Design, component_tree, statement_tree, value_tree};
ghost use Rattle.fil_ast.specs.Wires.{through_before, whole_scope};
ghost use Rattle.fil_sig.specs.Seen.{seen, seen_port};
ghost use Rattle.hw_prims.specs.Meaning.{is_through};
ghost use Rattle.hw_prims.specs.Table.{inputs_of, name_at, outputs_of};
ghost use Rattle.hw_prims.specs.declared.prim.Primitive.{Primitive};
ghost use Rattle.fil_place.specs.Place.{IsPlaceIn};
ghost use Rattle.fil_loops.specs.inside.PortGraph.{Adds, Below, HasInstances, NoPair};
ghost use Rattle.fil_loops.specs.inside.Readings.{port_of_value, ReadsAll, ReadsArgument, ReadsAt, ReadsBy, ReadsEach, ReadsGiven, ReadsMade, ReadsValue};

use crate::graph::PortGraph;
use fil_ast::{Stmt, Value};
use fil_place::{Place, callee_at, invoked_by};
use fil_sig::{SigPort, TimeSig, table_name};
use hw_bits::Memory;
use hw_prims::Prim;

/// Adds what each statement of the body says. Instances of components say nothing.
pub fn add_body(graph: &mut PortGraph, place: &Place) -> Result<(), Memory>
    requires numbers { ComponentHasNumbers place.now.names.now place.now.comp.now }
    ensures { (comps : Design) → IsPlaceIn place.now (whole_scope comps (component_tree place.now.names.now place.now.comp.now))
        → HasInstances (whole_scope comps (component_tree place.now.names.now place.now.comp.now)) graph.old
        → OnOk result (Adds (Below (ReadsAt (through_before []) (whole_scope comps (component_tree place.now.names.now place.now.comp.now)) (component_tree place.now.names.now place.now.comp.now).body) (length place.now.comp.now.body.items)) graph.old graph.new) }
{
    for stmt in &place.comp.body {
        add_statement(graph, place, stmt)?;
    }
    Ok(())
}

/// Adds what a statement says.
fn add_statement(graph: &mut PortGraph, place: &Place, stmt: &Stmt) -> Result<(), Memory>
    requires numbers { StatementHasNumbers place.now.names.now stmt.now }
    ensures { (scope : Scope) → IsPlaceIn place.now scope → HasInstances scope graph.old
        → All (Contains scope.instances) (instances_at (statement_tree place.now.names.now stmt.now))
        → OnOk result (Adds (ReadsBy (through_before []) scope (statement_tree place.now.names.now stmt.now)) graph.old graph.new) }
{
    match stmt {
        Stmt::New { name, comp, params } => {
            let (name, made) = (place.names.text(*name), place.names.text(*comp));
            add_instance(graph, place, NewInstance { name, made, params })
        }
        Stmt::Call { inst, args, .. } => {
            add_arguments(graph, place, place.names.text(*inst), args)
        }
        Stmt::Both {
            name,
            comp: made,
            params,
            args,
            ..
        } => {
            let (name, made) = (place.names.text(*name), place.names.text(*made));
            add_instance(graph, place, NewInstance { name, made, params })?;
            add_arguments(graph, place, name, args)
        }
        Stmt::Set { dst, value } => {
            let port = graph.named(place.names.text(*dst))?;
            add_value(graph, place, port, *value)
        }
    }
}

/// An instance that a statement makes: its name, the name of what it is made of, and the parameters.
#[derive(Clone, Copy)]
struct NewInstance<'a> {
    name: &'a [u8],
    made: &'a [u8],
    params: &'a [u128],
}

/// The arguments that the instance of this number is given.
#[derive(Clone, Copy)]
struct Given<'a> {
    instance: usize,
    args: &'a [Value],
}

/// Adds that the ports of an instance's arguments read what is given to them.
fn add_arguments(
    graph: &mut PortGraph,
    place: &Place,
    inst: &[u8],
    args: &[Value],
) -> Result<(), Memory>
    requires values { All (ValueHasNumbers place.now.names.now) args.now }
    ensures { (scope : Scope) → IsPlaceIn place.now scope → HasInstances scope graph.old
        → OnOk result (Adds (ReadsGiven scope inst.now (map (value_tree place.now.names.now) args.now)) graph.old graph.new) }
{
    let Some(instance) = graph.ports.instance(inst) else {
        return Ok(());
    };
    match callee_at(place.earlier, place.tables, instance) {
        Some(callee) => add_given(graph, place, callee.sig(), Given { instance, args }),
        None => Ok(()),
    }
}

/// The same for an instance of this signature.
fn add_given(
    graph: &mut PortGraph,
    place: &Place,
    sig: &TimeSig,
    given: Given,
) -> Result<(), Memory>
    requires instance { given.instance < length graph.old.ports.instances }
    requires values { All (ValueHasNumbers place.now.names.now) given.args.now }
    ensures { (scope : Scope) (inst : Text) → IsPlaceIn place.now scope → HasInstances scope graph.old
        → slice_get graph.old.ports.instances given.entry.instance ≡ Some inst
        → OnOk result (Adds (Below (ReadsArgument scope inst (seen sig.now) (map (value_tree place.now.names.now) given.entry.args.now)) (length given.entry.args.now)) graph.old graph.new) }
{
    for (number, value) in given.args.iter().enumerate() {
        if let Some(input) = sig.ins.get(number) {
            let port = graph.port(given.instance, input.name.bytes())?;
            add_value(graph, place, port, *value)?;
        }
    }
    Ok(())
}

/// Adds that the port of this number reads the value.
fn add_value(graph: &mut PortGraph, place: &Place, port: usize, value: Value) -> Result<(), Memory>
    requires port { port < length graph.old.ports.names }
    requires value { ValueHasNumbers place.now.names.now value }
    ensures adds { (scope : Scope) (name : Text) → IsPlaceIn place.now scope → HasInstances scope graph.old
        → slice_get graph.old.ports.names port ≡ Some name
        → OnOk result (Adds (ReadsValue scope name (value_tree place.now.names.now value)) graph.old graph.new) }
    ensures instances { graph.new.ports.instances ≡ graph.old.ports.instances }
{
    match value_port(graph, place, value)? {
        Some(other) => graph.add(port, other),
        None => Ok(()),
    }
}

/// The number of the port that a value is read from; `None` for a literal.
fn value_port(graph: &mut PortGraph, place: &Place, value: Value) -> Result<Option<usize>, Memory>
    requires value { ValueHasNumbers place.now.names.now value }
    ensures port { (scope : Scope) → IsPlaceIn place.now scope → HasInstances scope graph.old
        → IfOk result (λ found. option_and_then (slice_get graph.new.ports.names) found ≡ port_of_value scope (value_tree place.now.names.now value)) }
    ensures within { IfOk result (λ found. IfSome found (λ n. n < length graph.new.ports.names)) }
    ensures same { Adds NoPair graph.old graph.new }
{
    match value {
        Value::Port(name) => Ok(Some(graph.named(place.names.text(name))?)),
        Value::Out(invocation, port) => {
            match instance_invoked(graph, place, place.names.text(invocation)) {
                Some(instance) => Ok(Some(graph.port(instance, place.names.text(port))?)),
                None => Ok(None),
            }
        }
        Value::Lit { .. } => Ok(None),
    }
}

/// The number of the instance that the invocation of this name invokes.
fn instance_invoked(graph: &PortGraph, place: &Place, name: &[u8]) -> Option<usize>
    ensures meaning { (scope : Scope) → IsPlaceIn place.now scope → HasInstances scope graph.now
        → option_and_then (slice_get graph.now.ports.instances) result ≡ option_map (λ (v : Invocation). v.inst) (invocation_named scope.invocations name.now) }
    ensures within { IfSome result (λ n. n < length graph.now.ports.instances) }
{
    let instance = invoked_by(place.comp, place.tables, name)?;
    if instance >= graph.ports.instances() {
        return None;
    }
    Some(instance)
}

/// Adds that the outputs of an instance of a primitive read the inputs on which they depend within a row.
fn add_instance(graph: &mut PortGraph, place: &Place, made: NewInstance) -> Result<(), Memory>
    ensures { (scope : Scope) → IsPlaceIn place.now scope → HasInstances scope graph.old
        → Contains scope.instances (record { name = made.entry.name.now; made = made.entry.made.now; params = made.entry.params.now })
        → OnOk result (Adds (ReadsMade (through_before []) scope (record { name = made.entry.name.now; made = made.entry.made.now; params = made.entry.params.now })) graph.old graph.new) }
{
    let Some(table) = table_name(made.made) else {
        return Ok(());
    };
    if !is_through(table, made.params) {
        return Ok(());
    }
    let Some(instance) = graph.ports.instance(made.name) else {
        return Ok(());
    };
    match callee_at(place.earlier, place.tables, instance) {
        Some(callee) => add_all(graph, instance, callee.sig()),
        None => Ok(()),
    }
}

/// Whether each output of a Filament primitive depends on each input within a row; if not, none does on any.
fn is_through(table: &str, params: &[u128]) -> bool
    ensures { (made : Text) (prim : Primitive) (input output : Text) → table_name made ≡ Some table.now → filament_primitive made params.now ≡ Some prim
        → 0 < length (inputs_of prim) → 0 < length (outputs_of prim) → is_through prim input output ≡ result }
{
    match Prim::make(table.as_bytes(), params) {
        Ok(prim) => is_first_through(prim),
        Err(_) => false,
    }
}

/// Whether the first output depends on the first input within a row.
fn is_first_through(prim: Prim) -> bool
    ensures { 0 < length (inputs_of prim) → 0 < length (outputs_of prim)
        → result ≡ is_through prim (name_at (inputs_of prim) 0) (name_at (outputs_of prim) 0) }
{
    if prim.inputs() == 0 {
        return false;
    }
    if prim.outputs() == 0 {
        return false;
    }
    prim.through(0, 0)
}

/// Adds that each output of the instance of this number reads each input.
fn add_all(graph: &mut PortGraph, instance: usize, sig: &TimeSig) -> Result<(), Memory>
    requires { instance < length graph.old.ports.instances }
    ensures { (inst : Text) → slice_get graph.old.ports.instances instance ≡ Some inst
        → OnOk result (Adds (Below (ReadsAll inst (seen sig.now)) (length sig.now.outs.items)) graph.old graph.new) }
{
    for output in &sig.outs {
        add_each(graph, instance, output.name.bytes(), &sig.ins)?;
    }
    Ok(())
}

/// Adds that an output of an instance reads each of the inputs.
fn add_each(
    graph: &mut PortGraph,
    instance: usize,
    output: &[u8],
    ins: &[SigPort],
) -> Result<(), Memory>
    requires { instance < length graph.old.ports.instances }
    ensures { (inst : Text) → slice_get graph.old.ports.instances instance ≡ Some inst
        → OnOk result (Adds (Below (ReadsEach inst output.now (map seen_port ins.now)) (length ins.now)) graph.old graph.new) }
{
    let port = graph.port(instance, output)?;
    for input in ins {
        let other = graph.port(instance, input.name.bytes())?;
        graph.add(port, other)?;
    }
    Ok(())
}
