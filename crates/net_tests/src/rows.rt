//! Rows of small netlists, told by hand: guards and Conflicts.
ghost use Rattle.std.specs.Prelude.{◌≡◌, length, map, IfOk};
ghost use Rattle.hw_bits.specs.Values.{widths_of};
ghost use Rattle.net_core.specs.Netlist.{netlist_of};
ghost use Rattle.net_core.specs.Table.{IsTableOf};

use crate::case::{name_of, net_of};
use hw_bits::Bits;
use net_core::{Net, Table, valid};
use net_sim::{Conflict, Sim, order};
use std::alloc::Global;
use std::test::Fail;

/// The values of the inputs, the port that has a Conflict, empty where none has, and values of ports.
pub(crate) type Row = (&'static [u128], &'static str, &'static str);

/// A netlist, and rows of it one after another.
#[derive(Clone, Copy)]
struct Run {
    text: &'static str,
    rows: &'static [Row],
}

/// A counter that counts where `go` is 1 and starts anew where it has reached 2.
const COUNTER: Run = Run {
    text: "net counter
in go 1
out count 8
cell r std_reg 8
cell a std_add 8
set a.left = r.out
set a.right = 8'd1
set r.in = (r.out == 8'd2) ? 8'd0
set r.in = !(r.out == 8'd2) ? a.out
set r.write_en = go
set count = r.out
end
",
    rows: &[
        (&[1], "", "count=0 a.out=1 r.in=1 r.done=0"),
        (&[1], "", "count=1 r.in=2 r.done=1"),
        (&[1], "", "count=2 r.in=0 r.done=1"),
        (&[0], "", "count=0 r.in=1 r.done=1"),
        (&[1], "", "count=0 r.done=0"),
    ],
};

/// `q` has a Conflict where `a` and `b` are 1, though both give it one value; each row after it answers the same.
const CLASHING: Run = Run {
    text: "net clashing
in a 1
in b 1
in x 8
out q 8
out p 8
wire w 8
set q = a ? x
set q = b ? x
set w = x
set p = !(a | b) ? w
set p = (a & b) ? 8'd9
end
",
    rows: &[
        (&[0, 0, 5], "", "q=0 p=5"),
        (&[1, 0, 5], "", "q=5 p=0"),
        (&[0, 1, 7], "", "q=7 p=0"),
        (&[1, 1, 7], "q", "q=0 p=9"),
        (&[0, 0, 7], "q", "q=0 p=9"),
    ],
};

/// `z` has a Conflict in each row, and `y`, whose name comes before it, where `a` is 1.
const TWO_CLASHING: Run = Run {
    text: "net two
in a 1
out z 4
out y 4
set z = 4'd1
set z = 4'd2
set y = a ? 4'd3
set y = 4'd4
end
",
    rows: &[(&[0], "z", "z=0 y=4"), (&[1], "z", "z=0 y=4")],
};

const BOTH_CLASH: Run = Run {
    rows: &[(&[1], "y", "z=0 y=0")],
    ..TWO_CLASHING
};

/// Each form of a guard.
const FORMS: Run = Run {
    text: "net forms
in a 1
in x 8
in y 8
out eq 1
out neq 1
out lt 1
out gt 1
out le 1
out ge 1
out twice 1
out all 1
out any 1
set eq = (x == y) ? 1'd1
set neq = (x != y) ? 1'd1
set lt = (x < y) ? 1'd1
set gt = (x > y) ? 1'd1
set le = (x <= y) ? 1'd1
set ge = (x >= y) ? 1'd1
set twice = !!a ? 1'd1
set all = (a & (x < y) & (x == 8'd2)) ? 1'd1
set any = (a | ((x > y) | (x == 8'd2))) ? 1'd1
end
",
    rows: &[
        (
            &[1, 2, 3],
            "",
            "eq=0 neq=1 lt=1 gt=0 le=1 ge=0 twice=1 all=1 any=1",
        ),
        (
            &[0, 3, 3],
            "",
            "eq=1 neq=0 lt=0 gt=0 le=1 ge=1 twice=0 all=0 any=0",
        ),
        (&[1, 1, 3], "", "all=0 any=1 lt=1 ge=0"),
        (&[0, 4, 3], "", "all=0 any=1 gt=1 le=0 ge=1"),
    ],
};

/// The value of this width.
fn bits_of(value: u128, width: u128) -> Result<Bits, Fail>
    ensures { IfOk result (λ bits. bits.width ≡ width) }
{
    if width > 128 {
        return Err("width".into());
    }
    Ok(Bits::new(value, width as u8).ok_or("value")?)
}

/// The values of a netlist's inputs.
fn inputs_of(alloc: Global, net: &Net, values: &[u128]) -> Result<Vec<Bits>, Fail>
    ensures { IfOk result (λ inputs. widths_of inputs.items ≡ map (λ port. port.width) (netlist_of net.now).ins) }
{
    let mut inputs = Vec::new(alloc);
    for (i, port) in net.ins.iter().enumerate() {
        let value = *values.get(i).ok_or("value")?;
        inputs.push(bits_of(value, port.width)?)?;
    }
    Ok(inputs)
}

/// The name of the port that has a Conflict; empty where none has.
fn conflict_name(table: &Table, conflict: Result<(), Conflict>) -> Result<&str, Fail> {
    match conflict {
        Ok(()) => Ok(""),
        Err(Conflict { port }) => name_of(table, port),
    }
}

/// Compares values of ports with what is told.
fn check_values(alloc: Global, sim: &Sim, table: &Table, told: &str) -> Result<(), Fail>
    requires { length sim.now.values ≡ length table.now.names }
{
    for port in told.split(' ') {
        let (name, value) = port.split_once('=').ok_or("=")?;
        let port = table.names.find(name.as_bytes()).ok_or("name")?.0 as usize;
        if port >= table.names.len() {
            return Err("name".into());
        }
        let found = sim.value(port).value();
        if found != value.parse::<u128>()? {
            return Err(format!(in alloc; "{name} is {found}")?.into());
        }
    }
    Ok(())
}

/// Makes a row and its edge, and compares it with what is told.
fn check_row(alloc: Global, net: &Net, table: &Table, sim: &mut Sim, row: Row) -> Result<(), Fail>
    requires table { IsTableOf (netlist_of net.now) table.now }
    requires net { sim.old.net ≡ net.now }
    requires values { length sim.old.values ≡ length table.now.names }
    ensures net { sim.new.net ≡ sim.old.net }
    ensures values { length sim.new.values ≡ length sim.old.values }
{
    let (values, told, ports) = row;
    let inputs = inputs_of(alloc, net, values)?;
    let conflict = sim.row(&inputs);
    let found = conflict_name(table, conflict)?;
    if found != told {
        return Err(format!(in alloc; "conflict at {found:?}")?.into());
    }
    check_values(alloc, sim, table, ports)?;
    sim.edge();
    Ok(())
}

/// Makes these rows, and compares them with what is told.
pub(crate) fn check_rows(
    alloc: Global,
    net: &Net,
    table: &Table,
    sim: &mut Sim,
    rows: &[Row],
) -> Result<(), Fail>
    requires table { IsTableOf (netlist_of net.now) table.now }
    requires net { sim.old.net ≡ net.now }
    requires values { length sim.old.values ≡ length table.now.names }
    ensures { sim.new.net ≡ net.now }
{
    for row in rows {
        check_row(alloc, net, table, sim, *row)?;
    }
    Ok(())
}

/// Makes rows of a netlist, and compares them with what is told.
fn try_run(alloc: Global, text: &str, rows: &[Row]) -> Result<(), Fail> {
    let net = net_of(alloc, text)?;
    let table = valid(alloc, &net)?;
    let order = order(alloc, &net, &table)?;
    let mut sim = Sim::new(alloc, &net, &table, &order)?;
    check_rows(alloc, &net, &table, &mut sim, rows)
}

#[test]
fn rows_are_those_told(rt: HostRuntime) -> Result<(), Fail> {
    for run in [COUNTER, CLASHING, TWO_CLASHING, BOTH_CLASH, FORMS] {
        try_run(rt.alloc(), run.text, run.rows)?;
    }
    Ok(())
}
