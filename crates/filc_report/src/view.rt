//! What the rows of a run show.
ghost use Rattle.std.specs.Prelude.{◌≡◌, ℕ, ◌+◌, ◌≤◌, ◌++◌, length, map, drop, slice_range, IfOk};
ghost use Rattle.std.specs.Option.{is_some};
ghost use Rattle.hw_names.specs.Name.{AreDistinct};
ghost use Rattle.net_core.specs.Netlist.{netlist_of};
ghost use Rattle.net_core.specs.Table.{IsTableOf};
ghost use Rattle.fil_sig.specs.Seen.{seen_port};
ghost use Rattle.filc_report.specs.Driving.{txs_of, FitsDrive};
ghost use Rattle.filc_report.specs.Intervals.{port_interval, holding, ArePassedBy, RiseByEvent};
ghost use Rattle.filc_report.specs.Streams.{shown_ports};
ghost use Rattle.filc_report.specs.Views.{line_of, line_seen, marks_in, output_intervals, ports_seen, IsViewAt};

use crate::drive::Drive;
use crate::intervals::Interval;
use fil_ast::Tx;
use fil_sig::SigPort;
use hw_bits::Memory;
use net_core::{Net, Table};
use std::alloc::Global;
use std::ops::Range;

/// The ports that a row shows, by their numbers: each by its value, or by a dash where it is not shown.
#[derive(Drop)]
pub struct View {
    pub(crate) ports: Range<usize>,
    /// The intervals of the first of them; the others are shown in every row or in none.
    pub(crate) intervals: Vec<Interval>,
    /// For each interval, the first transaction that is not over.
    pub(crate) nexts: Vec<usize>,
    /// Whether each port is shown.
    pub(crate) shown: Vec<bool>,
}

/// The numbers of the ports that a row shows: all, or the outputs.
fn shown(net: &Net, table: &Table, all: bool) -> Range<usize>
    requires { IsTableOf (netlist_of net.now) table.now }
    ensures in_order { result.start ≤ result.end }
    ensures within { result.end ≤ length table.now.names }
    ensures distinct { AreDistinct table.now.names }
    ensures ports { slice_range table.now.names result.start result.end ≡ shown_ports (netlist_of net.now) all }
{
    let count = table.names.len();
    if all {
        0..count
    } else {
        let first = net.ins.len();
        first..first + net.outs.len()
    }
}

/// The intervals of these ports.
fn intervals_of(alloc: Global, ports: &[SigPort]) -> Result<Vec<Interval>, Memory>
    ensures { IfOk result (λ intervals. intervals.items ≡ map (λ p. port_interval (seen_port p)) ports.now) }
{
    let mut intervals = Vec::new(alloc);
    for port in ports {
        intervals.push(Interval::of(port))?;
    }
    Ok(intervals)
}

/// The intervals in which outputs are shown, where transactions drive a run of which not all ports are shown; else none.
fn shown_in(alloc: Global, drive: Drive, all: bool) -> Result<Vec<Interval>, Memory>
    ensures { IfOk result (λ intervals. intervals.items ≡ output_intervals drive.entry all) }
{
    match drive {
        Drive::Txs(_, sig) => {
            if all {
                Ok(Vec::new(alloc))
            } else {
                intervals_of(alloc, &sig.outs)
            }
        }
        Drive::Cycles(_) => Ok(Vec::new(alloc)),
    }
}

impl View {
    /// What rows show of a netlist's run: all ports, or the outputs, each by a dash in a row in which no transaction has its interval.
    pub fn new(
        alloc: Global,
        net: &Net,
        table: &Table,
        drive: Drive,
        all: bool,
    ) -> Result<View, Memory>
        requires table { IsTableOf (netlist_of net.now) table.now }
        requires fits { FitsDrive (netlist_of net.now) drive }
        ensures distinct { AreDistinct table.now.names }
        ensures at { IfOk result (λ view. IsViewAt view (txs_of drive.entry) 0) }
        ensures within { IfOk result (λ view. view.ports.end ≤ length table.now.names) }
        ensures ports { IfOk result (λ view. ports_seen table.now.names view ≡ shown_ports (netlist_of net.now) all) }
        ensures intervals { IfOk result (λ view. view.intervals.items ≡ output_intervals drive.entry all) }
        ensures line { IfOk result (λ view. line_seen table.now.names (txs_of drive.entry) view ≡ line_of (netlist_of net.now) drive.entry all) }
    {
        let ports = shown(net, table, all);
        let intervals = shown_in(alloc, drive, all)?;
        let nexts = vec![in alloc; 0; intervals.len()]?;
        let shown = vec![in alloc; true; ports.end - ports.start]?;
        Ok(View {
            ports,
            intervals,
            nexts,
            shown,
        })
    }

    /// Marks the ports that a row shows. Rows come in their order.
    pub(crate) fn set_row(&mut self, txs: &[Tx], row: u64)
        requires rise { RiseByEvent txs.now }
        requires at { IsViewAt self.old txs.now row }
        ensures at { IsViewAt self.new txs.now (row + 1) }
        ensures ports { self.new.ports ≡ self.old.ports }
        ensures marks { self.new.shown.items ≡ marks_in self.old txs.now row }
        ensures later { (later : ℕ) → marks_in self.new txs.now later ≡ marks_in self.old txs.now later }
    {
        if self.intervals.is_empty() {
            return;
        }
        mark(&self.intervals, txs, row, &mut self.nexts, &mut self.shown);
    }
}

/// Marks whether a row lies in each of these intervals, in a transaction.
fn mark(intervals: &[Interval], txs: &[Tx], row: u64, nexts: &mut [usize], shown: &mut [bool])
    requires rise { RiseByEvent txs.now }
    requires each { length nexts.old ≡ length intervals.now }
    requires few { length intervals.now ≤ length shown.old }
    requires passed { ArePassedBy intervals.now txs.now nexts.old row }
    ensures passed { ArePassedBy intervals.now txs.now nexts.new row }
    ensures each { length nexts.new ≡ length nexts.old }
    ensures marks { shown.new ≡ map (λ i. is_some (holding i row txs.now)) intervals.now ++ drop (length intervals.now) shown.old }
{
    for (at, interval) in intervals.iter().enumerate() {
        let first = interval.first_left(txs, nexts[at], row);
        shown[at] = interval.holding(txs, first, row).is_some();
        nexts[at] = first;
    }
}
