//! The words of a netlist's memories.
ghost use Rattle.std.specs.Prelude.{◌≡◌};
ghost use Rattle.net_core.specs.Netlist.{netlist_of, cell_of};
ghost use Rattle.net_core.specs.Numbers.{HasNumbers, CellHasNumbers};
ghost use Rattle.net_core.specs.Weight.{saturated};
ghost use Rattle.net_core.specs.Words.{cell_words, word_total};

use crate::net::{Net, NetCell};
use hw_names::Names;
use hw_prims::Prim;

/// The words of a cell, if it is a memory; 0 for every other cell.
fn cell_words(names: &Names, cell: &NetCell) -> u64
    requires { CellHasNumbers names.now cell.now }
    ensures { result ≡ cell_words (cell_of names.now cell.now) }
{
    match Prim::make(names.text(cell.prim), &cell.params) {
        Ok(prim) => prim.word_count(),
        Err(_) => 0,
    }
}

/// The words of all memories of a netlist, shown or not, no more than `2^64-1`.
pub fn net_words(net: &Net) -> u64
    requires { HasNumbers net.now }
    ensures { result ≡ saturated (word_total (netlist_of net.now)) }
{
    let mut words: u64 = 0;
    for cell in &net.cells {
        words = words.saturating_add(cell_words(&net.names, cell));
    }
    words
}
