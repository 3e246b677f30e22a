//! The memories that a run loads and prints.
ghost use Rattle.std.specs.Prelude.{◌≡◌, ◌<◌, length, slice_get, Some, IfOk};
ghost use Rattle.hw_prims.specs.Cell.{CellValue};
ghost use Rattle.hw_prims.specs.Memory.{word_count, word_width};
ghost use Rattle.net_core.specs.Netlist.{netlist_of};
ghost use Rattle.net_sim.specs.Shown.{AreShown, HasOneWordMore};

use hw_bits::{Bits, Memory};
use hw_prims::CellState;
use net_core::Net;
use std::alloc::Global;

/// The numbers of the shown cells, in their order.
pub fn shown_cells(alloc: Global, net: &Net) -> Result<Vec<usize>, Memory>
    ensures { IfOk result (λ shown. AreShown (netlist_of net.now) shown.items) }
{
    let mut shown = Vec::new(alloc);
    for (number, cell) in net.cells.iter().enumerate() {
        if cell.shown {
            shown.push(number)?;
        }
    }
    Ok(shown)
}

/// Puts a word into the memory of the cell with this number.
pub fn load_word(states: &mut [CellState], number: usize, at: usize, word: Bits)
    requires number { number < length states.old }
    requires at { (cell : CellValue) → slice_get states.old number ≡ Some cell → at < word_count cell.prim }
    requires width { (cell : CellValue) → slice_get states.old number ≡ Some cell → word.width ≡ word_width cell.prim }
    ensures { HasOneWordMore number at word.value states.old states.new }
{
    states[number].load(at, word);
}
