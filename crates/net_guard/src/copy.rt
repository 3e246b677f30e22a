//! Copies of the names and the cells of a netlist.
ghost use Rattle.std.specs.Prelude.{◌≡◌, List, map, All, IfOk};
ghost use Rattle.hw_names.specs.Name.{Text};
ghost use Rattle.net_core.specs.Netlist.{cell_of};
ghost use Rattle.net_core.specs.Numbers.{CellHasNumbers};

use hw_bits::Memory;
use hw_names::{NameId, Names};
use net_core::NetCell;
use std::alloc::Global;

/// The same names, each with its number.
pub(crate) fn copy_names(alloc: Global, names: &Names) -> Result<Names, Memory>
    ensures { IfOk result (λ copy. copy ≡ names.now) }
{
    let mut copy = names.beside();
    for number in 0..names.len() {
        let _id = copy.intern(names.text(NameId(number as u32)))?;
    }
    Ok(copy)
}

/// A copy of the cell.
fn copy_cell(alloc: Global, cell: &NetCell) -> Result<NetCell, Memory>
    ensures same { (names : List Text) → IfOk result (λ copy. cell_of names copy ≡ cell_of names cell.now) }
    ensures numbers { (names : List Text) → CellHasNumbers names cell.now → IfOk result (CellHasNumbers names) }
{
    let params = Vec::from_slice(alloc, &cell.params)?;
    Ok(NetCell {
        name: cell.name,
        prim: cell.prim,
        params,
        shown: cell.shown,
    })
}

/// Copies of the cells, in their order.
pub(crate) fn copy_cells(alloc: Global, cells: &[NetCell]) -> Result<Vec<NetCell>, Memory>
    ensures same { (names : List Text) → IfOk result (λ copies. map (cell_of names) copies.items ≡ map (cell_of names) cells.now) }
    ensures numbers { (names : List Text) → All (CellHasNumbers names) cells.now → IfOk result (λ copies. All (CellHasNumbers names) copies.items) }
{
    let mut copies = Vec::with_capacity(alloc, cells.len())?;
    for cell in cells {
        copies.push(copy_cell(alloc, cell)?)?;
    }
    Ok(copies)
}
