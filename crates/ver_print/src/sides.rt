//! Which ports assignments may drive.
ghost use Rattle.std.specs.Prelude.{◌≡◌, ◌++◌, All, flat_map, map, replicate, IfOk, OnOk};
ghost use Rattle.net_core.specs.Netlist.{cell_of, netlist_of};
ghost use Rattle.net_core.specs.Numbers.{CellHasNumbers, HasNumbers};
ghost use Rattle.net_core.specs.Rules.{PortLine, ports_of};
ghost use Rattle.ver_print.specs.inside.Sides.{cell_sides};

use hw_bits::Memory;
use hw_names::Names;
use hw_prims::{input_names, output_names};
use net_core::{Net, NetCell};
use std::alloc::Global;

/// The same for so many ports.
fn put_sides(sides: &mut Vec<bool>, count: usize, writable: bool) -> Result<(), Memory>
    ensures { OnOk result (sides.new.items ≡ sides.old.items ++ replicate count writable) }
{
    for _ in 0..count {
        sides.push(writable)?;
    }
    Ok(())
}

/// The inputs of a cell are driven, its outputs are not.
fn put_cell_sides(sides: &mut Vec<bool>, names: &Names, cell: &NetCell) -> Result<(), Memory>
    requires { CellHasNumbers names.now cell.now }
    ensures { OnOk result (sides.new.items ≡ sides.old.items ++ cell_sides (cell_of names.now cell.now)) }
{
    let prim = names.text(cell.prim);
    put_sides(sides, input_names(prim).len(), true)?;
    put_sides(sides, output_names(prim).len(), false)
}

fn put_cells_sides(sides: &mut Vec<bool>, names: &Names, cells: &[NetCell]) -> Result<(), Memory>
    requires { All (CellHasNumbers names.now) cells.now }
    ensures { OnOk result (sides.new.items ≡ sides.old.items ++ flat_map (λ c. cell_sides (cell_of names.now c)) cells.now) }
{
    for cell in cells {
        put_cell_sides(sides, names, cell)?;
    }
    Ok(())
}

/// Whether assignments may drive each port, in the order of the ports.
pub(crate) fn writable_ports(alloc: Global, net: &Net) -> Result<Vec<bool>, Memory>
    requires { HasNumbers net.now }
    ensures { IfOk result (λ sides. sides.items ≡ map (λ (p : PortLine). p.writable) (ports_of (netlist_of net.now))) }
{
    let mut sides = Vec::new(alloc);
    put_sides(&mut sides, net.ins.len(), false)?;
    put_sides(&mut sides, net.outs.len(), true)?;
    put_sides(&mut sides, net.wires.len(), true)?;
    put_cells_sides(&mut sides, &net.names, &net.cells)?;
    Ok(sides)
}
