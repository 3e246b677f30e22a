//! What a stimulus may set in a netlist: its inputs, and the words of its shown memories.
ghost use Rattle.std.specs.Prelude.{◌≡◌, IfOk};
ghost use Rattle.net_core.specs.Netlist.{netlist_of, cell_of};
ghost use Rattle.net_core.specs.Numbers.{HasNumbers, CellHasNumbers};
ghost use Rattle.filc_load.specs.Built.{IsReady};
ghost use Rattle.filc_load.specs.Settable.{memory_shape, settable_inputs, settable_memories};

use crate::net_file::Built;
use crate::ports::name_of;
use hw_bits::Memory;
use hw_names::{Names, Word};
use hw_prims::Primitive;
use net_core::{InputShape, MemShape, Net, NetCell};
use std::alloc::Global;

/// The inputs of a netlist, in order.
pub(crate) fn settable_inputs(alloc: Global, built: &Built) -> Result<Vec<InputShape>, Memory>
    requires { IsReady built.now }
    ensures { IfOk result (λ inputs. inputs.items ≡ settable_inputs (netlist_of built.now.net)) }
{
    let mut inputs = Vec::new(alloc);
    for port in 0..built.net.ins.len() {
        inputs.push(InputShape {
            name: Word::make(alloc, name_of(&built.table, port))?,
            width: built.table.ports[port].width,
        })?;
    }
    Ok(inputs)
}

/// The name of a cell, and the width and the number of its memory's words.
fn memory_shape(alloc: Global, names: &Names, cell: &NetCell) -> Result<MemShape, Memory>
    requires { CellHasNumbers names.now cell.now }
    ensures { IfOk result (λ shape. shape ≡ memory_shape (cell_of names.now cell.now)) }
{
    let name = Word::make(alloc, names.text(cell.name))?;
    match Primitive::make(names.text(cell.prim), &cell.params) {
        Ok(prim) => Ok(MemShape {
            name,
            width: prim.word_width(),
            size: prim.word_count(),
        }),
        Err(_) => Ok(MemShape {
            name,
            width: 0,
            size: 0,
        }),
    }
}

/// The shown memories of a netlist, in the order of the cells.
pub(crate) fn settable_memories(alloc: Global, net: &Net) -> Result<Vec<MemShape>, Memory>
    requires { HasNumbers net.now }
    ensures { IfOk result (λ memories. memories.items ≡ settable_memories (netlist_of net.now)) }
{
    let mut memories = Vec::new(alloc);
    for cell in &net.cells {
        if cell.shown {
            memories.push(memory_shape(alloc, &net.names, cell)?)?;
        }
    }
    Ok(memories)
}
