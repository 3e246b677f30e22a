//! Shift registers in full, after names of the kind that they make.
ghost use Rattle.std.specs.Prelude.{IfOk};
ghost use Rattle.cal_ast.specs.Numbers.{PortHasNumbers};

use cal_ast::{Assign, CalCell, CalPort};
use fil_fsm::shift_register;
use hw_names::Names;
use net_core::Src;
use std::alloc::Global;
use std::process::Abort;
use std::test::Fail;

/// Names like those of registers, and a port `go`.
fn names_with_go(alloc: Global) -> Result<(Names, CalPort), Fail>
    ensures { IfOk result (λ made. PortHasNumbers made.0 made.1) }
{
    let mut names = Names::new(alloc);
    names.intern(b"f$3".as_slice())?;
    names.intern(b"f$7".as_slice())?;
    let port = names.intern(b"go".as_slice())?;
    Ok((names, CalPort { cell: None, port }))
}

/// The port of this name of the cell of this name.
fn port(names: &Names, cell: &str, port: &str) -> Result<CalPort, Fail> {
    Ok(CalPort {
        cell: Some(names.find(cell.as_bytes()).ok_or("no such cell")?),
        port: names.find(port.as_bytes()).ok_or("no such port")?,
    })
}

/// The cell is the register of this name, and these assignments give it this bit in every row.
fn try_register(
    rt: &impl Abort,
    names: &Names,
    cell: &CalCell,
    sets: &[Assign],
    name: &str,
    bit: CalPort,
) -> Result<(), Fail> {
    assert_eq!(rt; Some(cell.name), names.find(name.as_bytes()));
    assert_eq!(rt; Some(cell.made), names.find(b"std_reg".as_slice()));
    assert_eq!(rt; cell.params.as_slice(), [1].as_slice());
    assert!(rt; !cell.external);
    let [input, enable] = sets else {
        panic!(rt; "two assignments of {name}");
    };
    assert!(rt; input.guard.is_none() && enable.guard.is_none());
    let one = Src::Lit { width: 1, value: 1 };
    assert_eq!(rt;
        (input.dst, input.src),
        (port(names, name, "in")?, Src::Port(bit))
    );
    assert_eq!(rt;
        (enable.dst, enable.src),
        (port(names, name, "write_en")?, one)
    );
    Ok(())
}

// The first number that is tried is 7: that of the names and the texts that registers have in common.
#[test]
fn registers_are_chained(rt: HostRuntime) -> Result<(), Fail> {
    let alloc = rt.alloc();
    let (mut names, go) = names_with_go(alloc)?;
    let parts = shift_register(alloc, &mut names, go, 4)?;
    let first = port(&names, "f$8", "out")?;
    let second = port(&names, "f$9", "out")?;
    let third = port(&names, "f$10", "out")?;
    assert_eq!(rt;
        parts.bits.as_slice(),
        [go, first, second, third].as_slice()
    );
    assert_eq!(rt; (parts.cells.len(), parts.sets.len()), (3, 6));
    let (cells, sets) = (&parts.cells, &parts.sets);
    try_register(&rt, &names, &cells[0], &sets[..2], "f$8", go)?;
    try_register(&rt, &names, &cells[1], &sets[2..4], "f$9", first)?;
    try_register(&rt, &names, &cells[2], &sets[4..], "f$10", second)
}

#[test]
fn one_bit_is_its_source(rt: HostRuntime) -> Result<(), Fail> {
    let (mut names, go) = names_with_go(rt.alloc())?;
    let parts = shift_register(rt.alloc(), &mut names, go, 1)?;
    assert_eq!(rt; parts.bits.as_slice(), [go].as_slice());
    assert!(rt; parts.cells.is_empty() && parts.sets.is_empty());
    Ok(())
}
