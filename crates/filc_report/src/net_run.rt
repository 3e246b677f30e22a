//! A run of a netlist, written as it comes.
ghost use Rattle.std.specs.Prelude.{◌≡◌, ◌<◌, ◌≤◌, ◌⊎◌, ℕ, List, Option, Some, All, length, map, slice_get, IfErr, IsErrOf, IfOk};
ghost use Rattle.hw_io.specs.Faults.{Rose};
ghost use Rattle.hw_names.specs.Name.{Text};
ghost use Rattle.net_core.specs.Netlist.{netlist_of};
ghost use Rattle.net_core.specs.Rules.{IsValid};
ghost use Rattle.net_core.specs.declared.stimulus.MemLoad.{MemLoad};
ghost use Rattle.net_sim.specs.Sim.{IsLoadedSim};
ghost use Rattle.net_sim.specs.declared.sim.Phase.TheVariants.{Fresh};
ghost use Rattle.stim_read.specs.CycleRun.{load_seen};
ghost use Rattle.filc_load.specs.Built.{IsReady, FitsNet};
ghost use Rattle.filc_load.specs.Given.{FitsMemory, after_load, after_loads};
ghost use Rattle.filc_report.specs.Runs.{LeavesOfRun, RunLeaves, run_from, transactions_run, asked_run, no_loads};
ghost use Rattle.filc_report.specs.Driving.{trace_of, FitsDrive, AreTransactionsFor};
ghost use Rattle.fil_sig.specs.Seen.{seen};
ghost use Rattle.stim_read.specs.TxRun.{tx_run_seen};
ghost use Rattle.net_sim.specs.Standing.{StandsAt};
ghost use Rattle.filc_stop.specs.Stops.{IsOfRun};
ghost use Rattle.filc_load.specs.Slots.{NumbersPortsAsNames};

use crate::drive::Drive;
use crate::inputs::Inputs;
use crate::memories::finish;
use crate::stream::{RowEnd, stream_rows};
use crate::view::View;
use fil_ast::TxList;
use fil_sig::TimeSig;
use filc_load::{Built, name_of};
use filc_stop::{Refusal, Stop};
use hw_bits::Memory;
use hw_io::{Gather, Sink};
use hw_names::Word;
use net_core::{CycleList, MemLoad, Table};
use net_row::Sim;
use std::alloc::Global;

/// What is asked of a run: what drives it, how many rows it has, the text before them, and whether a row shows all ports.
#[derive(Clone, Copy)]
pub(crate) struct Asked<'a> {
    pub(crate) drive: Drive<'a>,
    pub(crate) rows: u64,
    pub(crate) head: &'a [u8],
    pub(crate) all: bool,
}

/// Transactions of a component with this signature, for a run of so many rows.
#[derive(Clone, Copy)]
pub struct Transactions<'a> {
    pub list: &'a TxList,
    pub sig: &'a TimeSig,
    pub rows: u64,
}

/// A simulation of a netlist that can be run, before its first row, with the words that the list gives in the shown memories.
pub fn make_sim<'a>(alloc: Global, built: &'a Built, list: &CycleList) -> Result<Sim<'a>, Memory>
    requires ready { IsReady built.now }
    requires fits { FitsNet (netlist_of built.now.net) list.now }
    ensures { IfOk result (IsLoadedSim built.now.net (after_loads (netlist_of built.now.net) (map load_seen list.now.loads.items) no_loads)) }
{
    let mut sim = Sim::new(alloc, &built.net, &built.table, &built.order)?;
    load_memories(&mut sim, &list.loads);
    Ok(sim)
}

/// Writes a text, then the rows of a netlist that can be run, from what the list gives: with `all` every port, else the
/// outputs. Without a Conflict the shown memories follow.
pub fn run<O: Sink>(
    alloc: Global,
    built: &Built,
    list: &CycleList,
    head: &[u8],
    all: bool,
    out: &mut O,
) -> Result<(), Stop>
    requires ready { IsReady built.now }
    requires fits { FitsNet (netlist_of built.now.net) list.now }
    ensures leaves { LeavesOfRun (run_from (netlist_of built.now.net) list.now head.now all) result (O.written out.old) (O.written out.new) }
    ensures rows { RunLeaves (run_from (netlist_of built.now.net) list.now head.now all) result (O.written out.old) (O.written out.new) }
    ensures stops { IfErr result IsOfRun }
    ensures write_fault { IsErrOf result Stop.WriteFault → Rose (O.faults out.old) (O.faults out.new) }
    ensures never_falls { O.faults out.old ≤ O.faults out.new }
{
    let mut sim = make_sim(alloc, built, list)?;
    let asked = Asked {
        drive: Drive::Cycles(list),
        rows: list.cycles,
        head,
        all,
    };
    write_run(alloc, &mut sim, built, &asked, out)
}

/// Writes a text, then the first rows of a netlist that transactions of its signature drive: with `all` every port, else
/// the outputs, each with a dash in a row that no transaction's interval for it covers.
pub fn run_transactions<O: Sink>(
    alloc: Global,
    built: &Built,
    txs: Transactions,
    head: &[u8],
    all: bool,
    out: &mut O,
) -> Result<(), Stop>
    requires ready { IsReady built.now }
    requires fits { AreTransactionsFor (netlist_of built.now.net) (seen txs.sig.now) txs.list.now }
    ensures leaves { RunLeaves (transactions_run (netlist_of built.now.net) (seen txs.entry.sig.now) (tx_run_seen txs.entry.list.now) txs.entry.rows head.now all)
        result (O.written out.old) (O.written out.new) }
    ensures stops { IfErr result IsOfRun }
    ensures write_fault { IsErrOf result Stop.WriteFault → Rose (O.faults out.old) (O.faults out.new) }
    ensures never_falls { O.faults out.old ≤ O.faults out.new }
{
    let mut sim = Sim::new(alloc, &built.net, &built.table, &built.order)?;
    let asked = Asked {
        drive: Drive::Txs(txs.list, txs.sig),
        rows: txs.rows,
        head,
        all,
    };
    write_run(alloc, &mut sim, built, &asked, out)
}

/// Writes what is asked of a simulation of the netlist that is loaded and has run no row.
fn write_run<O: Sink>(
    alloc: Global,
    sim: &mut Sim,
    built: &Built,
    asked: &Asked,
    out: &mut O,
) -> Result<(), Stop>
    requires ready { IsReady built.now }
    requires net { netlist_of sim.old.net ≡ netlist_of built.now.net }
    requires fresh { sim.old.phase ≡ Fresh }
    requires fits { FitsDrive (netlist_of built.now.net) asked.now.drive }
    ensures leaves { let n = netlist_of built.now.net in (loads : Text → List ℕ) → StandsAt n sim.old 0 (trace_of n asked.now.drive) loads
        → RunLeaves (asked_run n asked.now loads) result (O.written out.old) (O.written out.new) }
    ensures stops { IfErr result IsOfRun }
    ensures write_fault { IsErrOf result Stop.WriteFault → Rose (O.faults out.old) (O.faults out.new) }
    ensures never_falls { O.faults out.old ≤ O.faults out.new }
{
    let mut inputs = Inputs::new(alloc, &built.net, &built.table, asked.drive)?;
    let mut view = View::new(alloc, &built.net, &built.table, asked.drive, asked.all)?;
    let mut held = Gather::new(alloc)?;
    held.push(out, asked.head)?;
    let end = stream_rows(
        sim,
        &built.table,
        asked.drive,
        &mut inputs,
        &mut view,
        asked.rows,
        &mut held,
        out,
    );
    match end {
        RowEnd::Done => {
            finish(asked.drive, sim, &built.net, &mut held, out)?;
            Ok(())
        }
        RowEnd::Conflict { cycle, port } => {
            held.flush(out)?;
            Err(conflict(alloc, &built.table, cycle, port))
        }
        RowEnd::WriteFault => Err(Stop::WriteFault),
    }
}

/// Puts the words of a load into its memory.
fn load_memory(sim: &mut Sim, load: &MemLoad)
    requires valid { IsValid (netlist_of sim.old.net) }
    requires fresh { sim.old.phase ≡ Fresh }
    requires fits { FitsMemory (netlist_of sim.old.net) load.now }
    ensures net { sim.new.net ≡ sim.old.net }
    ensures fresh { sim.new.phase ≡ Fresh }
    ensures loaded { (loads : Text → List ℕ) → IsLoadedSim sim.old.net loads sim.old
        → IsLoadedSim sim.old.net (after_load (netlist_of sim.old.net) (load_seen load.now) loads) sim.new }
{
    for (at, word) in load.words.iter().enumerate() {
        sim.load(load.mem, at, *word);
    }
}

/// Puts the words of these loads into their memories, before the first row.
fn load_memories(sim: &mut Sim, loads: &[MemLoad])
    requires valid { IsValid (netlist_of sim.old.net) }
    requires fresh { sim.old.phase ≡ Fresh }
    requires fits { All (FitsMemory (netlist_of sim.old.net)) loads.now }
    ensures net { sim.new.net ≡ sim.old.net }
    ensures fresh { sim.new.phase ≡ Fresh }
    ensures loaded { (before : Text → List ℕ) → IsLoadedSim sim.old.net before sim.old
        → IsLoadedSim sim.old.net (after_loads (netlist_of sim.old.net) (map load_seen loads.now) before) sim.new }
{
    for load in loads {
        load_memory(sim, load);
    }
}

/// A Conflict in this row at the port with this number.
fn conflict(alloc: Global, table: &Table, cycle: u64, port: usize) -> Stop
    requires named { port < length table.now.names }
    requires numbers { NumbersPortsAsNames table.now }
    ensures { (result ≡ Stop.Memory)
        ⊎ ((name : Text) × (slice_get table.now.names port ≡ Some name) × (result ≡ Stop.Refused (Refusal.Conflict cycle name))) }
{
    match Word::make(alloc, name_of(table, port)) {
        Ok(port) => Stop::Refused(Refusal::Conflict { cycle, port }),
        Err(Memory) => Stop::Memory,
    }
}
