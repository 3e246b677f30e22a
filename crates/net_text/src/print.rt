//! A netlist as text.
ghost use Rattle.std.specs.Prelude.{◌≡◌, ℕ, ◌+◌, ◌<◌, [], ◌∷◌, ◌++◌, List, length, map, flat_map, All, codes, decimal, OnOk, IfOk};
ghost use Rattle.hw_names.specs.Name.{text_of};
ghost use Rattle.net_core.specs.Guard.{Compares, source_tree, guard_tree, guard_option};
ghost use Rattle.net_core.specs.Netlist.{pin_of, cell_of, set_of, netlist_of, CellOf, SetOf};
ghost use Rattle.net_core.specs.Numbers.{IsNumberOf, SourceHasNumbers, GuardHasNumbers, WhenHasNumbers, PortHasNumbers, CellHasNumbers, SetHasNumbers, HasNumbers};
ghost use Rattle.net_text.specs.inside.View.{guards_of};
ghost use Rattle.net_text.specs.Layout.{source_text, operator_text, guard_text, guards_text, when_text, pin_text, parameters_text, line_text, ended, net_text};

use hw_bits::Memory;
use hw_names::{NameId, Names};
use hw_print::{put, put_name, put_number};
use net_core::{Cmp, Guard, Net, NetAssign, NetCell, NetPort, Src};
use std::alloc::Global;

fn put_source(out: &mut Vec<u8>, names: &Names, source: Src<NameId>) -> Result<(), Memory>
    requires { SourceHasNumbers names.now source }
    ensures { OnOk result (out.new.items ≡ out.old.items ++ source_text (source_tree (text_of names.now) source)) }
{
    match source {
        Src::Port(name) => put_name(out, names, name)?,
        Src::Lit { width, value } => {
            put_number(out, width)?;
            put(out, b"'d")?;
            put_number(out, value)?;
        }
    }
    Ok(())
}

/// A port's line, with its keyword.
fn put_port(out: &mut Vec<u8>, keyword: &[u8], names: &Names, port: NetPort) -> Result<(), Memory>
    requires { PortHasNumbers names.now port }
    ensures { OnOk result (out.new.items ≡ out.old.items ++ ended (keyword.now ++ pin_text (pin_of names.now port))) }
{
    put(out, keyword)?;
    put_name(out, names, port.name)?;
    put(out, b" ")?;
    put_number(out, port.width)?;
    put(out, b"\n")
}

fn put_ports(
    out: &mut Vec<u8>,
    keyword: &[u8],
    names: &Names,
    ports: &[NetPort],
) -> Result<(), Memory>
    requires { All (PortHasNumbers names.now) ports.now }
    ensures { OnOk result (out.new.items ≡ out.old.items ++ flat_map (λ p. ended (keyword.now ++ pin_text (pin_of names.now p))) ports.now) }
{
    for port in ports {
        put_port(out, keyword, names, *port)?;
    }
    Ok(())
}

fn put_parameters(out: &mut Vec<u8>, params: &[u128]) -> Result<(), Memory>
    ensures { OnOk result (out.new.items ≡ out.old.items ++ parameters_text params.now) }
{
    for param in params {
        put(out, b" ")?;
        put_number(out, *param)?;
    }
    Ok(())
}

fn put_cell(out: &mut Vec<u8>, names: &Names, cell: &NetCell) -> Result<(), Memory>
    requires { CellHasNumbers names.now cell.now }
    ensures { OnOk result (out.new.items ≡ out.old.items ++ ended (line_text (CellOf (cell_of names.now cell.now)))) }
{
    if cell.shown {
        put(out, b"ext ")?;
    } else {
        put(out, b"cell ")?;
    }
    put_name(out, names, cell.name)?;
    put(out, b" ")?;
    put_name(out, names, cell.prim)?;
    put_parameters(out, &cell.params)?;
    put(out, b"\n")
}

fn put_cells(out: &mut Vec<u8>, names: &Names, cells: &[NetCell]) -> Result<(), Memory>
    requires { All (CellHasNumbers names.now) cells.now }
    ensures { OnOk result (out.new.items ≡ out.old.items ++ flat_map (λ c. ended (line_text (CellOf (cell_of names.now c)))) cells.now) }
{
    for cell in cells {
        put_cell(out, names, cell)?;
    }
    Ok(())
}

fn operator(op: Cmp) -> &'static [u8]
    ensures { result.now ≡ operator_text op }
{
    match op {
        Cmp::Eq => b"==",
        Cmp::Neq => b"!=",
        Cmp::Lt => b"<",
        Cmp::Gt => b">",
        Cmp::Le => b"<=",
        Cmp::Ge => b">=",
    }
}

fn put_test(
    out: &mut Vec<u8>,
    names: &Names,
    op: Cmp,
    left: Src<NameId>,
    right: Src<NameId>,
) -> Result<(), Memory>
    requires { SourceHasNumbers names.now left × SourceHasNumbers names.now right }
    ensures { OnOk result (out.new.items ≡ out.old.items ++ guard_text (Compares op (source_tree (text_of names.now) left) (source_tree (text_of names.now) right))) }
{
    put(out, b"(")?;
    put_source(out, names, left)?;
    put(out, b" ")?;
    put(out, operator(op))?;
    put(out, b" ")?;
    put_source(out, names, right)?;
    put(out, b")")
}

/// A guard, however many `!` it begins with.
#[cycle(guards)]
fn put_guard(out: &mut Vec<u8>, names: &Names, guard: &Guard<NameId>) -> Result<(), Memory>
    requires { GuardHasNumbers names.now guard.now }
    ensures { OnOk result (out.new.items ≡ out.old.items ++ guard_text (guard_tree (text_of names.now) guard.now)) }
{
    let mut rest = guard;
    loop {
        match rest {
            Guard::Not(operand) => {
                put(out, b"!")?;
                rest = operand;
            }
            Guard::Read(source) => return put_source(out, names, **source),
            Guard::Test(op, left, right) => return put_test(out, names, *op, **left, **right),
            Guard::All(guards) => return put_guards(out, names, b" & ", guards),
            Guard::Any(guards) => return put_guards(out, names, b" | ", guards),
        }
    }
}

/// Guards in brackets, with this between each two.
#[cycle(guards)]
fn put_guards(
    out: &mut Vec<u8>,
    names: &Names,
    between: &[u8],
    guards: &[Guard<NameId>],
) -> Result<(), Memory>
    requires { All (GuardHasNumbers names.now) guards.now }
    ensures { OnOk result (out.new.items ≡ out.old.items ++ (codes "(" ++ guards_text between.now (guards_of names.now guards.now) ++ codes ")")) }
{
    put(out, b"(")?;
    let mut first = true;
    for guard in guards {
        if !first {
            put(out, between)?;
        }
        first = false;
        put_guard(out, names, guard)?;
    }
    put(out, b")")
}

/// When an assignment acts: nothing where it has no guard.
fn put_when(out: &mut Vec<u8>, names: &Names, guard: &Option<Guard<NameId>>) -> Result<(), Memory>
    requires { WhenHasNumbers names.now guard.now }
    ensures { OnOk result (out.new.items ≡ out.old.items ++ when_text (guard_option (text_of names.now) guard.now)) }
{
    match guard {
        None => Ok(()),
        Some(guard) => {
            put_guard(out, names, guard)?;
            put(out, b" ? ")
        }
    }
}

fn put_set(out: &mut Vec<u8>, names: &Names, assign: &NetAssign) -> Result<(), Memory>
    requires { SetHasNumbers names.now assign.now }
    ensures { OnOk result (out.new.items ≡ out.old.items ++ ended (line_text (SetOf (set_of names.now assign.now)))) }
{
    put(out, b"set ")?;
    put_name(out, names, assign.dst)?;
    put(out, b" = ")?;
    put_when(out, names, &assign.guard)?;
    put_source(out, names, assign.src)?;
    put(out, b"\n")
}

fn put_sets(out: &mut Vec<u8>, names: &Names, sets: &[NetAssign]) -> Result<(), Memory>
    requires { All (SetHasNumbers names.now) sets.now }
    ensures { OnOk result (out.new.items ≡ out.old.items ++ flat_map (λ a. ended (line_text (SetOf (set_of names.now a)))) sets.now) }
{
    for assign in sets {
        put_set(out, names, assign)?;
    }
    Ok(())
}

/// The text of the netlist.
pub fn print_net(alloc: Global, net: &Net) -> Result<Vec<u8>, Memory>
    requires { HasNumbers net.now }
    ensures { IfOk result (λ text. text.items ≡ net_text (netlist_of net.now)) }
{
    let mut out = Vec::new(alloc);
    put(&mut out, b"net ")?;
    put_name(&mut out, &net.names, net.name)?;
    put(&mut out, b"\n")?;
    put_ports(&mut out, b"in ", &net.names, &net.ins)?;
    put_ports(&mut out, b"out ", &net.names, &net.outs)?;
    put_ports(&mut out, b"wire ", &net.names, &net.wires)?;
    put_cells(&mut out, &net.names, &net.cells)?;
    put_sets(&mut out, &net.names, &net.sets)?;
    put(&mut out, b"end\n")?;
    Ok(out)
}
