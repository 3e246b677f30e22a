//! What the rows of a run add up to.
ghost use Rattle.std.specs.Prelude.{◌≡◌, ◌+◌, ◌≤◌, ℕ, List, length, None, IfOk, if◌then◌else◌};
ghost use Rattle.std.specs.List.{sum};
ghost use Rattle.hw_bits.specs.Values.{values_of, widths_of};
ghost use Rattle.hw_names.specs.Name.{Text, AreDistinct};
ghost use Rattle.hw_prims.specs.Table.{pin_widths};
ghost use Rattle.fil_sig.specs.Seen.{seen};
ghost use Rattle.net_core.specs.Netlist.{netlist_of};
ghost use Rattle.net_core.specs.Table.{IsTableOf};
ghost use Rattle.net_sim.specs.Sim.{conflict_in};
ghost use Rattle.net_sim.specs.Standing.{StandsAt};
ghost use Rattle.net_sim.specs.declared.sim.Phase.TheVariants.{Fresh};
ghost use Rattle.fil_driven.specs.TxDrive.{driven_by};
ghost use Rattle.stim_read.specs.TxRun.{tx_run_seen};
ghost use Rattle.filc_load.specs.Built.{IsReady};
ghost use Rattle.filc_report.specs.Driving.{trace_of, txs_of, FitsDrive, AreInputsAt, AreTransactionsFor};
ghost use Rattle.filc_report.specs.Runs.{no_loads};
ghost use Rattle.filc_report.specs.Streams.{IsStopped};
ghost use Rattle.filc_report.specs.Sums.{wrapped, due_in, sum_at, sum_seen, AreAdded, IsRowAdded};
ghost use Rattle.filc_report.specs.Views.{IsViewAt};

use crate::drive::Drive;
use crate::inputs::Inputs;
use crate::net_run::Transactions;
use crate::view::View;
use filc_load::Built;
use hw_bits::{Bits, Memory};
use net_core::Table;
use net_row::{Conflict, Sim};
use std::alloc::Global;

/// What the rows of a run add up to, modulo 2^64.
#[derive(Clone, Copy, Debug, PartialEq, Eq)]
pub struct Sums {
    /// Of the outputs' values, in the rows in which a transaction is due at them.
    pub outputs: u64,
    /// Of the values of all ports.
    pub ports: u64,
}

/// The low 64 bits of a value.
fn low(value: Bits) -> u64
    ensures { result ≡ wrapped value.value }
{
    (value.value() % (1 << 64)) as u64
}

/// The low 64 bits of a value that is marked; 0 of another.
fn low_if(marked: bool, value: Bits) -> u64
    ensures { result ≡ wrapped (if marked then value.value else 0) }
{
    if marked { low(value) } else { 0 }
}

/// The values of all ports, so many, added up.
fn sum_ports(sim: &Sim, count: usize) -> u64
    requires { length sim.now.values ≡ count }
    ensures { result ≡ wrapped (sum sim.now.values) }
{
    let mut total = 0u64;
    for port in 0..count {
        total = total.wrapping_add(low(sim.value(port)));
    }
    total
}

/// The values of the ports that the view marks, added up.
fn sum_marked(sim: &Sim, view: &View) -> u64
    requires marks { view.now.ports.start + length view.now.shown.items ≡ view.now.ports.end }
    requires evaluated { view.now.ports.end ≤ length sim.now.values }
    ensures { result ≡ wrapped (sum_at sim.now.values view.now) }
{
    let first = view.ports.start;
    let count = view.ports.end - first;
    let mut total = 0u64;
    for at in 0..count {
        total = total.wrapping_add(low_if(view.shown[at], sim.value(first + at)));
    }
    total
}

impl Sums {
    /// Evaluates a row, adds it, and makes the edge after it.
    fn add_row(
        &mut self,
        sim: &mut Sim,
        table: &Table,
        view: &View,
        inputs: &[Bits],
    ) -> Result<(), Conflict>
        requires goes_on { IsStopped sim.old.phase → ⊥ }
        requires table { IsTableOf (netlist_of sim.old.net) table.now }
        requires within { view.now.ports.end ≤ length table.now.names }
        requires marks { view.now.ports.start + length view.now.shown.items ≡ view.now.ports.end }
        requires inputs { pin_widths (netlist_of sim.old.net).ins ≡ widths_of inputs.now }
        ensures added { IsRowAdded view.now (values_of inputs.now) (conflict_in result) sim.old sim.new self.old self.new }
        ensures goes_on { conflict_in result ≡ None → IsStopped sim.new.phase → ⊥ }
    {
        sim.row(inputs)?;
        let due = sum_marked(sim, view);
        let all = sum_ports(sim, table.names.len());
        self.outputs = self.outputs.wrapping_add(due);
        self.ports = self.ports.wrapping_add(all);
        sim.edge();
        Ok(())
    }
}

/// Adds up the first rows of a run; `None` where one has a Conflict. The simulation is fresh. Takes no memory.
fn add_rows(
    sim: &mut Sim,
    table: &Table,
    drive: Drive,
    inputs: &mut Inputs,
    view: &mut View,
    rows: u64,
) -> Option<Sums>
    requires table { IsTableOf (netlist_of sim.old.net) table.now }
    requires distinct { AreDistinct table.now.names }
    requires fresh { sim.old.phase ≡ Fresh }
    requires drive { FitsDrive (netlist_of sim.old.net) drive }
    requires inputs { AreInputsAt (netlist_of sim.old.net) drive inputs.old 0 }
    requires view { IsViewAt view.old (txs_of drive) 0 }
    requires within { view.old.ports.end ≤ length table.now.names }
    ensures { let n = netlist_of sim.old.net in (loads : Text → List ℕ) → StandsAt n sim.old 0 (trace_of n drive.entry) loads
        → AreAdded n (sum_seen table.now.names (txs_of drive.entry) view.old) rows (trace_of n drive.entry) loads result }
{
    let mut sums = Sums {
        outputs: 0,
        ports: 0,
    };
    for cycle in 0..rows {
        inputs.set_row(drive, cycle);
        view.set_row(drive.txs(), cycle);
        match sums.add_row(sim, table, view, &inputs.values) {
            Ok(()) => {}
            Err(Conflict { .. }) => return None,
        }
    }
    Some(sums)
}

/// What the first rows of a netlist that transactions of its signature drive add up to; `None` where one has a Conflict.
pub fn sum_transactions(
    alloc: Global,
    built: &Built,
    txs: Transactions,
) -> Result<Option<Sums>, Memory>
    requires ready { IsReady built.now }
    requires fits { AreTransactionsFor (netlist_of built.now.net) (seen txs.sig.now) txs.list.now }
    ensures { let run = tx_run_seen txs.entry.list.now in let sig = seen txs.entry.sig.now in
        IfOk result (AreAdded (netlist_of built.now.net) (due_in sig.outs run.transactions) txs.entry.rows (driven_by sig run) no_loads) }
{
    let drive = Drive::Txs(txs.list, txs.sig);
    let mut sim = Sim::new(alloc, &built.net, &built.table, &built.order)?;
    let mut inputs = Inputs::new(alloc, &built.net, &built.table, drive)?;
    let mut view = View::new(alloc, &built.net, &built.table, drive, false)?;
    Ok(add_rows(
        &mut sim,
        &built.table,
        drive,
        &mut inputs,
        &mut view,
        txs.rows,
    ))
}
