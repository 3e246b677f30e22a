//! Control statements, each on lines of its own. Only blocks make the printing recur.
ghost use Rattle.std.specs.Prelude.{◌≡◌, [], ◌++◌, if◌then◌else◌, List, map, flat_map, option_map, codes, All, IfSome, IfOk, OnOk};
ghost use Rattle.hw_names.specs.Name.{Text, text_of};
ghost use Rattle.net_core.specs.Numbers.{IsNumberOf};
ghost use Rattle.cal_ast.specs.Numbers.{PortHasNumbers, InHasNumbers, OutHasNumbers, StatementHasNumbers, ControlHasNumbers};
ghost use Rattle.cal_ast.specs.Tree.{in_tree, out_tree, port_tree, statement_tree, control_tree};
ghost use Rattle.cal_print.specs.Layout.{joined, line_text, deeper, in_text, out_text, port_text, with_text, invoke_text, is_empty_seq, statement_text, control_text};

use crate::port::{put_port, put_source};
use cal_ast::{CalPort, Control, ControlPart, InBind, OutBind};
use hw_bits::Memory;
use hw_names::{NameId, Names};
use hw_print::{put, put_name};
use std::alloc::Global;

fn put_in(out: &mut Vec<u8>, names: &Names, bind: InBind) -> Result<(), Memory>
    requires { InHasNumbers names.now bind }
    ensures { OnOk result (out.new.items ≡ out.old.items ++ in_text (in_tree names.now bind)) }
{
    put_name(out, names, bind.port)?;
    put(out, b" = ")?;
    put_source(out, names, bind.src)
}

fn put_ins(out: &mut Vec<u8>, names: &Names, binds: &[InBind]) -> Result<(), Memory>
    requires { All (InHasNumbers names.now) binds.now }
    ensures { OnOk result (out.new.items ≡ out.old.items ++ joined (λ b. in_text (in_tree names.now b)) binds.now) }
{
    let [first, others @ ..] = binds else {
        return Ok(());
    };
    put_in(out, names, *first)?;
    for bind in others {
        put(out, b", ")?;
        put_in(out, names, *bind)?;
    }
    Ok(())
}

fn put_out(out: &mut Vec<u8>, names: &Names, bind: OutBind) -> Result<(), Memory>
    requires { OutHasNumbers names.now bind }
    ensures { OnOk result (out.new.items ≡ out.old.items ++ out_text (out_tree names.now bind)) }
{
    put_name(out, names, bind.port)?;
    put(out, b" = ")?;
    put_port(out, names, bind.dst)
}

fn put_outs(out: &mut Vec<u8>, names: &Names, binds: &[OutBind]) -> Result<(), Memory>
    requires { All (OutHasNumbers names.now) binds.now }
    ensures { OnOk result (out.new.items ≡ out.old.items ++ joined (λ b. out_text (out_tree names.now b)) binds.now) }
{
    let [first, others @ ..] = binds else {
        return Ok(());
    };
    put_out(out, names, *first)?;
    for bind in others {
        put(out, b", ")?;
        put_out(out, names, *bind)?;
    }
    Ok(())
}

fn put_invoke(
    out: &mut Vec<u8>,
    names: &Names,
    cell: NameId,
    ins: &[InBind],
    outs: &[OutBind],
) -> Result<(), Memory>
    requires { IsNumberOf names.now cell × All (InHasNumbers names.now) ins.now × All (OutHasNumbers names.now) outs.now }
    ensures { OnOk result (out.new.items ≡ out.old.items ++ invoke_text (text_of names.now cell) (map (in_tree names.now) ins.now) (map (out_tree names.now) outs.now)) }
{
    put(out, b"invoke ")?;
    put_name(out, names, cell)?;
    put(out, b"(")?;
    put_ins(out, names, ins)?;
    put(out, b")(")?;
    put_outs(out, names, outs)?;
    put(out, b");")
}

/// The group that acts on a condition; nothing where there is none.
fn put_with(out: &mut Vec<u8>, names: &Names, by: Option<NameId>) -> Result<(), Memory>
    requires { IfSome by (IsNumberOf names.now) }
    ensures { OnOk result (out.new.items ≡ out.old.items ++ with_text (option_map (text_of names.now) by)) }
{
    match by {
        None => Ok(()),
        Some(group) => {
            put(out, b" with ")?;
            put_name(out, names, group)
        }
    }
}

/// The condition of an `if` or a `while`, to the end of its line.
fn put_condition(
    out: &mut Vec<u8>,
    names: &Names,
    port: CalPort,
    by: Option<NameId>,
) -> Result<(), Memory>
    requires { PortHasNumbers names.now port × IfSome by (IsNumberOf names.now) }
    ensures { OnOk result (out.new.items ≡ out.old.items ++ (port_text (port_tree names.now port) ++ with_text (option_map (text_of names.now) by) ++ codes " {\n")) }
{
    put_port(out, names, port)?;
    put_with(out, names, by)?;
    put(out, b" {\n")
}

/// A line within these blanks.
fn put_line(out: &mut Vec<u8>, margin: &[u8], text: &[u8]) -> Result<(), Memory>
    ensures { OnOk result (out.new.items ≡ out.old.items ++ line_text margin.now text.now) }
{
    put(out, margin)?;
    put(out, text)?;
    put(out, b"\n")
}

/// The blanks of lines in a block whose own lines have these.
fn deeper(alloc: Global, margin: &[u8]) -> Result<Vec<u8>, Memory>
    ensures { IfOk result (λ inner. inner.items ≡ deeper margin.now) }
{
    let mut inner = Vec::new(alloc);
    put(&mut inner, margin)?;
    put(&mut inner, b"  ")?;
    Ok(inner)
}

/// Whether there is nothing in the block of an `if` or a `while`.
fn is_empty_seq(statement: &Control) -> bool
    ensures { (names : List Text) → result ≡ is_empty_seq (statement_tree names statement.now) }
{
    match statement {
        Control::Seq(statements) => statements.len() == 0,
        Control::Enable(_) | Control::Par(_) | Control::If { .. } => false,
        Control::While { .. } | Control::Invoke { .. } => false,
    }
}

#[cycle(statements)]
fn put_statement(
    alloc: Global,
    out: &mut Vec<u8>,
    names: &Names,
    margin: &[u8],
    statement: &Control,
) -> Result<(), Memory>
    requires { StatementHasNumbers names.now statement.now }
    ensures { OnOk result (out.new.items ≡ out.old.items ++ statement_text margin.now (statement_tree names.now statement.now)) }
{
    put(out, margin)?;
    match statement {
        Control::Enable(group) => {
            put_name(out, names, *group)?;
            put(out, b";\n")
        }
        Control::Seq(statements) => {
            put(out, b"seq {\n")?;
            put_statements(alloc, out, names, margin, statements)?;
            put_line(out, margin, b"}")
        }
        Control::Par(statements) => {
            put(out, b"par {\n")?;
            put_statements(alloc, out, names, margin, statements)?;
            put_line(out, margin, b"}")
        }
        Control::If { port, by, yes, no } => {
            put(out, b"if ")?;
            put_condition(out, names, *port, *by)?;
            put_branch(alloc, out, names, margin, yes)?;
            put_else(alloc, out, names, margin, no)?;
            put_line(out, margin, b"}")
        }
        Control::While { port, by, body } => {
            put(out, b"while ")?;
            put_condition(out, names, *port, *by)?;
            put_branch(alloc, out, names, margin, body)?;
            put_line(out, margin, b"}")
        }
        Control::Invoke { cell, ins, outs } => {
            put_invoke(out, names, *cell, ins, outs)?;
            put(out, b"\n")
        }
    }
}

/// The statements of a block whose own lines have this margin.
#[cycle(statements)]
fn put_statements(
    alloc: Global,
    out: &mut Vec<u8>,
    names: &Names,
    margin: &[u8],
    statements: &[Control],
) -> Result<(), Memory>
    requires { All (StatementHasNumbers names.now) statements.now }
    ensures { OnOk result (out.new.items ≡ out.old.items ++ flat_map (λ s. statement_text (deeper margin.now) (statement_tree names.now s)) statements.now) }
{
    let inner = deeper(alloc, margin)?;
    for statement in statements {
        put_statement(alloc, out, names, &inner, statement)?;
    }
    Ok(())
}

/// The one statement in a block of an `if` or a `while`.
#[cycle(statements)]
fn put_branch(
    alloc: Global,
    out: &mut Vec<u8>,
    names: &Names,
    margin: &[u8],
    statement: &Control,
) -> Result<(), Memory>
    requires { StatementHasNumbers names.now statement.now }
    ensures { OnOk result (out.new.items ≡ out.old.items ++ (let tree = statement_tree names.now statement.now in
        if is_empty_seq tree then [] else statement_text (deeper margin.now) tree)) }
{
    if is_empty_seq(statement) {
        return Ok(());
    }
    let inner = deeper(alloc, margin)?;
    put_statement(alloc, out, names, &inner, statement)
}

/// The second block of an `if`, if there is something in it.
#[cycle(statements)]
fn put_else(
    alloc: Global,
    out: &mut Vec<u8>,
    names: &Names,
    margin: &[u8],
    second: &Control,
) -> Result<(), Memory>
    requires { StatementHasNumbers names.now second.now }
    ensures { OnOk result (out.new.items ≡ out.old.items ++ (let tree = statement_tree names.now second.now in
        if is_empty_seq tree then [] else line_text margin.now (codes "} else {") ++ statement_text (deeper margin.now) tree)) }
{
    if is_empty_seq(second) {
        return Ok(());
    }
    put_line(out, margin, b"} else {")?;
    let inner = deeper(alloc, margin)?;
    put_statement(alloc, out, names, &inner, second)
}

/// The control section; nothing where it is absent.
pub(crate) fn put_control(
    alloc: Global,
    out: &mut Vec<u8>,
    names: &Names,
    control: &ControlPart,
) -> Result<(), Memory>
    requires { ControlHasNumbers names.now control.now }
    ensures { OnOk result (out.new.items ≡ out.old.items ++ control_text (control_tree names.now control.now)) }
{
    match control {
        ControlPart::Absent => Ok(()),
        ControlPart::Empty => put(out, b"  control {\n  }\n"),
        ControlPart::Body(statement) => {
            put(out, b"  control {\n")?;
            put_statement(alloc, out, names, b"    ", statement)?;
            put(out, b"  }\n")
        }
    }
}
