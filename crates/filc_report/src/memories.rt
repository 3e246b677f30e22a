//! The shown memories of a netlist, passed on after its rows.
ghost use Rattle.std.specs.Prelude.{◌≡◌, ◌<◌, ◌≤◌, [], ◌++◌, length, OnOk, OnErr};
ghost use Rattle.std.specs.Io.KnownBytes.{Appends};
ghost use Rattle.hw_io.specs.Faults.{Rose};
ghost use Rattle.hw_io.specs.Writing.{AppendsPrefix, Passes};
ghost use Rattle.hw_names.specs.Name.{Text};
ghost use Rattle.hw_prims.specs.State.{memory_words};
ghost use Rattle.hw_prims.specs.declared.prim.Primitive.{Primitive};
ghost use Rattle.net_core.specs.Netlist.{netlist_of};
ghost use Rattle.net_core.specs.Numbers.{HasNumbers};
ghost use Rattle.net_core.specs.Rules.{IsValid};
ghost use Rattle.net_sim.specs.Shown.{shown_cells, IsShown};
ghost use Rattle.net_sim.specs.Sim.{states_of};
ghost use Rattle.filc_report.specs.Rows.{memory_text, memories_text};
ghost use Rattle.filc_report.specs.Runs.{last_of};

use crate::drive::Drive;
use crate::report::push_texts;
use hw_io::{Failed, Gather, Sink};
use itoa::Buffer;
use net_core::Net;
use net_row::Sim;

/// Passes the line of a shown memory on: its name, then its words in order. The shown memories are counted in the order
/// of the cells.
fn push_memory<O: Sink>(
    sim: &Sim,
    mem: usize,
    name: &[u8],
    held: &mut Gather,
    out: &mut O,
) -> Result<(), Failed>
    requires shown { mem < length (shown_cells (netlist_of sim.now.net)) }
    ensures passed { (cell : Text) (prim : Primitive) → IsShown (netlist_of sim.now.net) mem cell prim
        → OnOk result (Passes (O.written out.old) held.old (O.written out.new) held.new
        (memory_text name.now (memory_words (states_of (netlist_of sim.now.net) sim.now.states cell prim)))) }
    ensures prefix { (cell : Text) (prim : Primitive) → IsShown (netlist_of sim.now.net) mem cell prim
        → OnErr result (AppendsPrefix (O.written out.old) (O.written out.new)
        (held.old ++ memory_text name.now (memory_words (states_of (netlist_of sim.now.net) sim.now.states cell prim)))) }
    ensures emptied { OnErr result (held.new ≡ []) }
    ensures failed { OnErr result (Rose (O.faults out.old) (O.faults out.new)) }
    ensures never_falls { O.faults out.old ≤ O.faults out.new }
{
    let mut digits = Buffer::new();
    push_texts(held, out, &["mem ".as_bytes(), name])?;
    for at in 0..sim.word_count(mem) {
        let word = sim.word(mem, at).value();
        push_texts(held, out, &[" ".as_bytes(), digits.format(word).as_bytes()])?;
    }
    held.push(out, "\n".as_bytes())
}

/// Passes the lines of the shown memories on, in the order of the cells.
fn push_memories<O: Sink>(
    sim: &Sim,
    net: &Net,
    held: &mut Gather,
    out: &mut O,
) -> Result<(), Failed>
    requires net { netlist_of sim.now.net ≡ netlist_of net.now }
    requires valid { IsValid (netlist_of net.now) }
    requires numbers { HasNumbers net.now }
    ensures passed { OnOk result (Passes (O.written out.old) held.old (O.written out.new) held.new
        (memories_text (netlist_of net.now) (states_of (netlist_of net.now) sim.now.states))) }
    ensures prefix { OnErr result (AppendsPrefix (O.written out.old) (O.written out.new)
        (held.old ++ memories_text (netlist_of net.now) (states_of (netlist_of net.now) sim.now.states))) }
    ensures emptied { OnErr result (held.new ≡ []) }
    ensures failed { OnErr result (Rose (O.faults out.old) (O.faults out.new)) }
    ensures never_falls { O.faults out.old ≤ O.faults out.new }
{
    let mut mem = 0usize;
    for cell in &net.cells {
        if cell.shown {
            push_memory(sim, mem, net.names.text(cell.name), held, out)?;
            mem += 1;
        }
    }
    Ok(())
}

/// Passes the shown memories on, and writes what is held.
fn write_memories<O: Sink>(
    sim: &Sim,
    net: &Net,
    held: &mut Gather,
    out: &mut O,
) -> Result<(), Failed>
    requires net { netlist_of sim.now.net ≡ netlist_of net.now }
    requires valid { IsValid (netlist_of net.now) }
    requires numbers { HasNumbers net.now }
    ensures appended { OnOk result (Appends (O.written out.old) (O.written out.new)
        (held.old ++ memories_text (netlist_of net.now) (states_of (netlist_of net.now) sim.now.states))) }
    ensures prefix { OnErr result (AppendsPrefix (O.written out.old) (O.written out.new)
        (held.old ++ memories_text (netlist_of net.now) (states_of (netlist_of net.now) sim.now.states))) }
    ensures failed { OnErr result (Rose (O.faults out.old) (O.faults out.new)) }
    ensures never_falls { O.faults out.old ≤ O.faults out.new }
{
    push_memories(sim, net, held, out)?;
    held.flush(out)
}

/// Writes what follows the rows, after what is held: the shown memories, unless transactions drive the run.
pub(crate) fn finish<O: Sink>(
    drive: Drive,
    sim: &Sim,
    net: &Net,
    held: &mut Gather,
    out: &mut O,
) -> Result<(), Failed>
    requires net { netlist_of sim.now.net ≡ netlist_of net.now }
    requires valid { IsValid (netlist_of net.now) }
    requires numbers { HasNumbers net.now }
    ensures appended { OnOk result (Appends (O.written out.old) (O.written out.new)
        (held.old ++ last_of (netlist_of net.now) drive.entry (states_of (netlist_of net.now) sim.now.states))) }
    ensures prefix { OnErr result (AppendsPrefix (O.written out.old) (O.written out.new)
        (held.old ++ last_of (netlist_of net.now) drive.entry (states_of (netlist_of net.now) sim.now.states))) }
    ensures failed { OnErr result (Rose (O.faults out.old) (O.faults out.new)) }
    ensures never_falls { O.faults out.old ≤ O.faults out.new }
{
    match drive {
        Drive::Cycles(_) => write_memories(sim, net, held, out),
        Drive::Txs(_, _) => held.flush(out),
    }
}
