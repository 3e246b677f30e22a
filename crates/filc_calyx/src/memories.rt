//! The shown memories of a netlist after its last edge, put last in a text.
ghost use Rattle.std.specs.Prelude.{◌≡◌, ◌++◌, ◌<◌, OnOk, length};
ghost use Rattle.hw_names.specs.Name.{Text};
ghost use Rattle.hw_prims.specs.State.{memory_words};
ghost use Rattle.hw_prims.specs.declared.prim.Primitive.{Primitive};
ghost use Rattle.net_core.specs.Netlist.{netlist_of};
ghost use Rattle.net_core.specs.Numbers.{HasNumbers};
ghost use Rattle.net_core.specs.Rules.{IsValid};
ghost use Rattle.net_sim.specs.Shown.{IsShown, shown_cells};
ghost use Rattle.net_sim.specs.Sim.{states_of};
ghost use Rattle.filc_report.specs.Rows.{memories_text, memory_text};

use hw_bits::Memory;
use hw_print::{put, put_number};
use net_core::Net;
use net_row::Sim;

/// Puts the line of a shown memory last: its name, then its words in order. The shown memories are counted in the order of the cells.
fn push_memory(text: &mut Vec<u8>, sim: &Sim, mem: usize, name: &[u8]) -> Result<(), Memory>
    requires shown { mem < length (shown_cells (netlist_of sim.now.net)) }
    ensures { (cell : Text) (prim : Primitive) → IsShown (netlist_of sim.now.net) mem cell prim
        → OnOk result (text.new.items
        ≡ text.old.items ++ memory_text name.now (memory_words (states_of (netlist_of sim.now.net) sim.now.states cell prim))) }
{
    put(text, b"mem ")?;
    put(text, name)?;
    for at in 0..sim.word_count(mem) {
        put(text, b" ")?;
        put_number(text, sim.word(mem, at).value())?;
    }
    put(text, b"\n")
}

/// Puts the lines of the shown memories last, in the order of the cells.
pub(crate) fn push_memories(text: &mut Vec<u8>, sim: &Sim, net: &Net) -> Result<(), Memory>
    requires net { netlist_of sim.now.net ≡ netlist_of net.now }
    requires valid { IsValid (netlist_of net.now) }
    requires numbers { HasNumbers net.now }
    ensures { OnOk result (text.new.items
        ≡ text.old.items ++ memories_text (netlist_of net.now) (states_of (netlist_of net.now) sim.now.states)) }
{
    let mut mem = 0usize;
    for cell in &net.cells {
        if cell.shown {
            push_memory(text, sim, mem, net.names.text(cell.name))?;
            mem += 1;
        }
    }
    Ok(())
}
