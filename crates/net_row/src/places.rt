//! The slots of the inputs of the cells that keep their state by themselves.
ghost use Rattle.std.specs.Prelude.{◌≡◌, ◌+◌, ◌≤◌, length, take, IfOk};
ghost use Rattle.hw_prims.specs.Table.{inputs_of};
ghost use Rattle.net_sim.specs.Evaluated.{cell_inputs};
ghost use Rattle.net_row.specs.Kinds.{kinds_of};
ghost use Rattle.net_row.specs.Places.{ArePlaces, HaveRoom};

use crate::kinds::Kind;
use hw_bits::Memory;
use net_sim::CellPorts;
use net_steps::{INPUTS, Places};
use std::alloc::Global;

/// The slots of the inputs of those cells, by the slots of the ports.
pub fn places_of(
    alloc: Global,
    cells: &[CellPorts],
    kinds: &[Kind],
    ports: &[u32],
) -> Result<Vec<Places>, Memory>
    requires kinds { kinds.now ≡ kinds_of cells.now }
    requires room { HaveRoom (length ports.now) cells.now }
    ensures { IfOk result (λ places. ArePlaces cells.now ports.now places.items) }
{
    let mut places = Vec::new(alloc);
    for (number, cell) in cells.iter().enumerate() {
        if let Kind::Other(_) = kinds[number] {
            places.push(input_places(*cell, ports))?;
        }
    }
    Ok(places)
}

/// The slots of a cell's inputs.
fn input_places(cell: CellPorts, ports: &[u32]) -> Places
    requires { cell.first + length (inputs_of cell.prim) ≤ length ports.now }
    ensures { take (length (inputs_of cell.prim)) result ≡ cell_inputs ports.now cell }
{
    let mut places = [0; INPUTS];
    for number in 0..cell.prim.inputs() {
        places[number] = ports[cell.first + number];
    }
    places
}
