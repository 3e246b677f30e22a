//! A design as text.
ghost use Rattle.std.specs.Prelude.{◌≡◌, ℕ, List, ◌++◌, map, flat_map, All, codes, decimal, OnOk, IfOk};
ghost use Rattle.hw_names.specs.Name.{text_of};
ghost use Rattle.fil_ast.specs.Numbers.{IsNumberOf, TimeHasNumber, EventHasNumber, InterfaceHasNumbers, PortHasNumbers, ValueHasNumbers, GivingHasNumbers, StatementHasNumbers, ComponentHasNumbers, HasNumbers};
ghost use Rattle.fil_ast.specs.Tree.{New, time_tree, event_tree, interface_tree, port_tree, value_tree, giving, statement_tree, component_tree, design_of};
ghost use Rattle.fil_parse.specs.Grammar.{InterfacePort, DataInput};
ghost use Rattle.fil_parse.specs.Layout.{joined, time_text, value_text, call_text, params_text, statement_text, line_text, event_text, interface_text, port_text, input_text, component_text, fil_text};
ghost use Rattle.fil_parse.specs.Spelling.{SpellsDesign};

use fil_ast::{EventDef, FilComp, FilDesign, FilPort, GoPort, Stmt, Time, Value};
use hw_bits::Memory;
use hw_names::{NameId, Names};
use hw_print::{put, put_name, put_number};
use std::alloc::Global;

fn put_time(out: &mut Vec<u8>, names: &Names, time: Time) -> Result<(), Memory>
    requires { TimeHasNumber names.now time }
    ensures { OnOk result (out.new.items ≡ out.old.items ++ time_text (time_tree names.now time)) }
{
    put_name(out, names, time.event)?;
    if time.plus == 0 {
        return Ok(());
    }
    put(out, b"+")?;
    put_number(out, time.plus)
}

fn put_value(out: &mut Vec<u8>, names: &Names, value: Value) -> Result<(), Memory>
    requires { ValueHasNumbers names.now value }
    ensures { OnOk result (out.new.items ≡ out.old.items ++ value_text (value_tree names.now value)) }
{
    match value {
        Value::Port(name) => put_name(out, names, name),
        Value::Out(invocation, port) => {
            put_name(out, names, invocation)?;
            put(out, b".")?;
            put_name(out, names, port)
        }
        Value::Lit { width, value } => {
            put_number(out, width)?;
            put(out, b"'d")?;
            put_number(out, value)
        }
    }
}

fn put_times(out: &mut Vec<u8>, names: &Names, times: &[Time]) -> Result<(), Memory>
    requires { All (TimeHasNumber names.now) times.now }
    ensures { OnOk result (out.new.items ≡ out.old.items ++ joined (λ t. time_text (time_tree names.now t)) times.now) }
{
    let [first, others @ ..] = times else {
        return Ok(());
    };
    put_time(out, names, *first)?;
    for time in others {
        put(out, b", ")?;
        put_time(out, names, *time)?;
    }
    Ok(())
}

fn put_values(out: &mut Vec<u8>, names: &Names, values: &[Value]) -> Result<(), Memory>
    requires { All (ValueHasNumbers names.now) values.now }
    ensures { OnOk result (out.new.items ≡ out.old.items ++ joined (λ v. value_text (value_tree names.now v)) values.now) }
{
    let [first, others @ ..] = values else {
        return Ok(());
    };
    put_value(out, names, *first)?;
    for value in others {
        put(out, b", ")?;
        put_value(out, names, *value)?;
    }
    Ok(())
}

/// Times and arguments of an invocation.
fn put_call(out: &mut Vec<u8>, names: &Names, at: &[Time], args: &[Value]) -> Result<(), Memory>
    requires { GivingHasNumbers names.now at.now args.now }
    ensures { OnOk result (out.new.items ≡ out.old.items ++ call_text (giving names.now at.now args.now)) }
{
    put(out, b"<")?;
    put_times(out, names, at)?;
    put(out, b">(")?;
    put_values(out, names, args)?;
    put(out, b")")
}

fn put_numbers(out: &mut Vec<u8>, numbers: &[u128]) -> Result<(), Memory>
    ensures { OnOk result (out.new.items ≡ out.old.items ++ joined decimal numbers.now) }
{
    let [first, others @ ..] = numbers else {
        return Ok(());
    };
    put_number(out, *first)?;
    for number in others {
        put(out, b", ")?;
        put_number(out, *number)?;
    }
    Ok(())
}

/// Parameters in brackets; nothing where there are none.
fn put_params(out: &mut Vec<u8>, params: &[u128]) -> Result<(), Memory>
    ensures { OnOk result (out.new.items ≡ out.old.items ++ params_text params.now) }
{
    if params.len() == 0 {
        return Ok(());
    }
    put(out, b"[")?;
    put_numbers(out, params)?;
    put(out, b"]")
}

/// An instance, as `x := new C[8]`.
fn put_new(
    out: &mut Vec<u8>,
    names: &Names,
    name: NameId,
    comp: NameId,
    params: &[u128],
) -> Result<(), Memory>
    requires { IsNumberOf names.now name × IsNumberOf names.now comp }
    ensures { OnOk result (out.new.items ≡ out.old.items ++ statement_text (New (text_of names.now name) (text_of names.now comp) params.now)) }
{
    put_name(out, names, name)?;
    put(out, b" := new ")?;
    put_name(out, names, comp)?;
    put_params(out, params)
}

fn put_statement(out: &mut Vec<u8>, names: &Names, stmt: &Stmt) -> Result<(), Memory>
    requires { StatementHasNumbers names.now stmt.now }
    ensures { OnOk result (out.new.items ≡ out.old.items ++ statement_text (statement_tree names.now stmt.now)) }
{
    match stmt {
        Stmt::New { name, comp, params } => put_new(out, names, *name, *comp, params),
        Stmt::Call {
            name,
            inst,
            at,
            args,
        } => {
            put_name(out, names, *name)?;
            put(out, b" := ")?;
            put_name(out, names, *inst)?;
            put_call(out, names, at, args)
        }
        Stmt::Both {
            name,
            comp,
            params,
            at,
            args,
        } => {
            put_new(out, names, *name, *comp, params)?;
            put_call(out, names, at, args)
        }
        Stmt::Set { dst, value } => {
            put_name(out, names, *dst)?;
            put(out, b" = ")?;
            put_value(out, names, *value)
        }
    }
}

/// The statements, each on a line of its own.
fn put_lines(out: &mut Vec<u8>, names: &Names, body: &[Stmt]) -> Result<(), Memory>
    requires { All (StatementHasNumbers names.now) body.now }
    ensures { OnOk result (out.new.items ≡ out.old.items ++ flat_map (λ s. line_text (statement_tree names.now s)) body.now) }
{
    for stmt in body {
        put(out, b"\n  ")?;
        put_statement(out, names, stmt)?;
        put(out, b";")?;
    }
    Ok(())
}

fn put_event(out: &mut Vec<u8>, names: &Names, event: EventDef) -> Result<(), Memory>
    requires { EventHasNumber names.now event }
    ensures { OnOk result (out.new.items ≡ out.old.items ++ event_text (event_tree names.now event)) }
{
    put_name(out, names, event.name)?;
    put(out, b": ")?;
    put_number(out, event.delay)
}

fn put_events(out: &mut Vec<u8>, names: &Names, events: &[EventDef]) -> Result<(), Memory>
    requires { All (EventHasNumber names.now) events.now }
    ensures { OnOk result (out.new.items ≡ out.old.items ++ joined (λ e. event_text (event_tree names.now e)) events.now) }
{
    let [first, others @ ..] = events else {
        return Ok(());
    };
    put_event(out, names, *first)?;
    for event in others {
        put(out, b", ")?;
        put_event(out, names, *event)?;
    }
    Ok(())
}

fn put_interface(out: &mut Vec<u8>, names: &Names, port: GoPort) -> Result<(), Memory>
    requires { InterfaceHasNumbers names.now port }
    ensures { OnOk result (out.new.items ≡ out.old.items ++ interface_text (interface_tree names.now port)) }
{
    put(out, b"@interface[")?;
    put_name(out, names, port.event)?;
    put(out, b"] ")?;
    put_name(out, names, port.name)?;
    put(out, b": ")?;
    put_number(out, port.width)
}

/// The ports, each after a comma.
fn put_more_interfaces(out: &mut Vec<u8>, names: &Names, ports: &[GoPort]) -> Result<(), Memory>
    requires { All (InterfaceHasNumbers names.now) ports.now }
    ensures { OnOk result (out.new.items ≡ out.old.items ++ flat_map (λ p. codes ", " ++ interface_text (interface_tree names.now p)) ports.now) }
{
    for port in ports {
        put(out, b", ")?;
        put_interface(out, names, *port)?;
    }
    Ok(())
}

fn put_interfaces(out: &mut Vec<u8>, names: &Names, ports: &[GoPort]) -> Result<(), Memory>
    requires { All (InterfaceHasNumbers names.now) ports.now }
    ensures { OnOk result (out.new.items ≡ out.old.items ++ joined (λ p. interface_text (interface_tree names.now p)) ports.now) }
{
    let [first, others @ ..] = ports else {
        return Ok(());
    };
    put_interface(out, names, *first)?;
    put_more_interfaces(out, names, others)
}

fn put_port(out: &mut Vec<u8>, names: &Names, port: FilPort) -> Result<(), Memory>
    requires { PortHasNumbers names.now port }
    ensures { OnOk result (out.new.items ≡ out.old.items ++ port_text (port_tree names.now port)) }
{
    put(out, b"@[")?;
    put_time(out, names, port.from)?;
    put(out, b", ")?;
    put_time(out, names, port.to)?;
    put(out, b"] ")?;
    put_name(out, names, port.name)?;
    put(out, b": ")?;
    put_number(out, port.width)
}

/// The ports, each after a comma.
fn put_more_ports(out: &mut Vec<u8>, names: &Names, ports: &[FilPort]) -> Result<(), Memory>
    requires { All (PortHasNumbers names.now) ports.now }
    ensures { OnOk result (out.new.items ≡ out.old.items ++ flat_map (λ p. codes ", " ++ port_text (port_tree names.now p)) ports.now) }
{
    for port in ports {
        put(out, b", ")?;
        put_port(out, names, *port)?;
    }
    Ok(())
}

fn put_ports(out: &mut Vec<u8>, names: &Names, ports: &[FilPort]) -> Result<(), Memory>
    requires { All (PortHasNumbers names.now) ports.now }
    ensures { OnOk result (out.new.items ≡ out.old.items ++ joined (λ p. port_text (port_tree names.now p)) ports.now) }
{
    let [first, others @ ..] = ports else {
        return Ok(());
    };
    put_port(out, names, *first)?;
    put_more_ports(out, names, others)
}

/// Interface ports, and then data inputs.
fn put_inputs(
    out: &mut Vec<u8>,
    names: &Names,
    gos: &[GoPort],
    ins: &[FilPort],
) -> Result<(), Memory>
    requires { All (InterfaceHasNumbers names.now) gos.now × All (PortHasNumbers names.now) ins.now }
    ensures { OnOk result (out.new.items ≡ out.old.items ++ joined input_text (map (λ g. InterfacePort (interface_tree names.now g)) gos.now ++ map (λ p. DataInput (port_tree names.now p)) ins.now)) }
{
    if gos.len() == 0 {
        return put_ports(out, names, ins);
    }
    put_interfaces(out, names, gos)?;
    put_more_ports(out, names, ins)
}

fn put_component(out: &mut Vec<u8>, names: &Names, comp: &FilComp) -> Result<(), Memory>
    requires { ComponentHasNumbers names.now comp.now }
    ensures { OnOk result (out.new.items ≡ out.old.items ++ component_text (component_tree names.now comp.now)) }
{
    put(out, b"comp ")?;
    put_name(out, names, comp.name)?;
    put(out, b"<")?;
    put_events(out, names, &comp.events)?;
    put(out, b">(")?;
    put_inputs(out, names, &comp.gos, &comp.ins)?;
    put(out, b") -> (")?;
    put_ports(out, names, &comp.outs)?;
    put(out, b") {")?;
    put_lines(out, names, &comp.body)?;
    put(out, b"\n}")
}

fn put_components(out: &mut Vec<u8>, names: &Names, comps: &[FilComp]) -> Result<(), Memory>
    requires { All (ComponentHasNumbers names.now) comps.now }
    ensures { OnOk result (out.new.items ≡ out.old.items ++ flat_map (λ c. component_text (component_tree names.now c) ++ codes "\n") comps.now) }
{
    for comp in comps {
        put_component(out, names, comp)?;
        put(out, b"\n")?;
    }
    Ok(())
}

/// The canonical text of the design. Where some text spells the design, this text spells it too.
pub fn print_fil(alloc: Global, design: &FilDesign) -> Result<Vec<u8>, Memory>
    requires { HasNumbers design.now }
    ensures text { IfOk result (λ text. text.items ≡ fil_text (design_of design.now)) }
    ensures spelled { IfOk result (λ text. (other : List ℕ) → SpellsDesign other (design_of design.now) → SpellsDesign text.items (design_of design.now)) }
{
    let mut out = Vec::new(alloc);
    put_components(&mut out, &design.names, &design.comps)?;
    Ok(out)
}
