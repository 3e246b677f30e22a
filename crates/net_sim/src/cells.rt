//! The primitives of a netlist's cells, and the numbers of their ports.
ghost use Rattle.std.specs.Prelude.{◌≡◌, ◌<◌, ◌^◌, length, Some, IfOk, IsSome, true};
ghost use Rattle.hw_names.specs.Name.{text_of};
ghost use Rattle.hw_prims.specs.Table.{prim_of, is_primitive, IsMade};
ghost use Rattle.net_core.specs.Netlist.{netlist_of};
ghost use Rattle.net_core.specs.Numbers.{HasNumbers, CellHasNumbers};
ghost use Rattle.net_core.specs.Rules.{ports_of, IsValid};
ghost use Rattle.net_sim.specs.Layout.{AreCellPorts, own_count};

use hw_bits::Memory;
use hw_names::Names;
use hw_prims::Prim;
use net_core::{Net, NetCell};
use std::alloc::Global;

/// A cell's primitive, and the number of its first port; its inputs come first, then its outputs.
#[derive(Clone, Copy, Debug)]
pub struct CellPorts {
    pub prim: Prim,
    pub first: usize,
}

/// The cells' primitives and the numbers of their ports, of which there are `count` in the netlist.
pub fn cell_ports(alloc: Global, net: &Net, count: usize) -> Result<Vec<CellPorts>, Memory>
    requires valid { IsValid (netlist_of net.now) }
    requires numbers { HasNumbers net.now }
    requires count { count ≡ length (ports_of (netlist_of net.now)) }
    ensures { IfOk result (λ cells. AreCellPorts (netlist_of net.now) cells.items) }
{
    let mut cells = Vec::new(alloc);
    let mut first = net.ins.len() + net.outs.len() + net.wires.len();
    for cell in &net.cells {
        let prim = prim_of_cell(&net.names, cell);
        cells.push(CellPorts { prim, first })?;
        first += prim.inputs() + prim.outputs();
    }
    Ok(cells)
}

/// The primitive of a cell that has one.
fn prim_of_cell(names: &Names, cell: &NetCell) -> Prim
    requires numbers { CellHasNumbers names.now cell.now }
    requires known { is_primitive (text_of names.now cell.now.prim) ≡ true }
    requires some { IsSome (prim_of (text_of names.now cell.now.prim) cell.now.params.items) }
    ensures prim { prim_of (text_of names.now cell.now.prim) cell.now.params.items ≡ Some result }
    ensures made { IsMade result }
{
    match Prim::make(names.text(cell.prim), cell.params.as_slice()) {
        Ok(prim) => prim,
        Err(_) => unreachable!(),
    }
}
