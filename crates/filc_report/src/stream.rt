//! Rows of a run, written as they come.
ghost use Rattle.std.specs.Prelude.{◌≡◌, ◌+◌, ◌<◌, ◌≤◌, ℕ, List, length};
ghost use Rattle.hw_bits.specs.Values.{values_of, widths_of};
ghost use Rattle.hw_io.specs.Faults.{Rose};
ghost use Rattle.hw_names.specs.Name.{Text, AreDistinct};
ghost use Rattle.hw_prims.specs.Table.{pin_widths};
ghost use Rattle.net_core.specs.Netlist.{netlist_of};
ghost use Rattle.net_core.specs.Table.{IsTableOf};
ghost use Rattle.net_sim.specs.Standing.{StandsAt};
ghost use Rattle.net_sim.specs.declared.sim.Phase.TheVariants.{Fresh};
ghost use Rattle.filc_report.specs.Driving.{trace_of, txs_of, FitsDrive, AreInputsAt};
ghost use Rattle.filc_report.specs.Streams.{IsStopped, IsStreamed, IsRowStreamed};
ghost use Rattle.filc_report.specs.Views.{line_seen, marked_row, IsViewAt};

use crate::drive::Drive;
use crate::inputs::Inputs;
use crate::line::Line;
use crate::report::push_row;
use crate::view::View;
use hw_bits::Bits;
use hw_io::{Failed, Gather, Sink};
use net_core::Table;
use net_row::Sim;

/// How a stream of rows ends.
#[derive(Clone, Copy, Debug, PartialEq, Eq)]
pub enum RowEnd {
    /// All rows were passed on.
    Done,
    /// This row has a Conflict, of which this port is reported.
    Conflict { cycle: u64, port: usize },
    /// The sink failed.
    WriteFault,
}

/// Evaluates a row, passes its line on, and makes the edge after it.
fn stream_row<O: Sink>(
    sim: &mut Sim,
    table: &Table,
    view: &View,
    cycle: u64,
    inputs: &[Bits],
    line: &mut Line,
    held: &mut Gather,
    out: &mut O,
) -> RowEnd
    requires goes_on { IsStopped sim.old.phase → ⊥ }
    requires table { IsTableOf (netlist_of sim.old.net) table.now }
    requires distinct { AreDistinct table.now.names }
    requires within { view.now.ports.end ≤ length table.now.names }
    requires marks { view.now.ports.start + length view.now.shown.items ≡ view.now.ports.end }
    requires inputs { pin_widths (netlist_of sim.old.net).ins ≡ widths_of inputs.now }
    ensures streamed { IsRowStreamed (netlist_of sim.old.net) (marked_row table.now.names view.now) cycle (values_of inputs.now)
        result sim.old sim.new (O.written out.old) held.old (O.written out.new) held.new }
    ensures goes_on { result ≡ RowEnd.Done → IsStopped sim.new.phase → ⊥ }
    ensures failed { result ≡ RowEnd.WriteFault → Rose (O.faults out.old) (O.faults out.new) }
    ensures never_falls { O.faults out.old ≤ O.faults out.new }
{
    if let Err(conflict) = sim.row(inputs) {
        return RowEnd::Conflict {
            cycle,
            port: conflict.port,
        };
    }
    match push_row(sim, table, view, cycle, line, held, out) {
        Ok(()) => {
            sim.edge();
            RowEnd::Done
        }
        Err(Failed) => RowEnd::WriteFault,
    }
}

/// Passes the first rows of a run on through what is held, each as it comes and as the view shows it. The simulation is
/// fresh. Takes no memory.
pub fn stream_rows<O: Sink>(
    sim: &mut Sim,
    table: &Table,
    drive: Drive,
    inputs: &mut Inputs,
    view: &mut View,
    rows: u64,
    held: &mut Gather,
    out: &mut O,
) -> RowEnd
    requires table { IsTableOf (netlist_of sim.old.net) table.now }
    requires distinct { AreDistinct table.now.names }
    requires fresh { sim.old.phase ≡ Fresh }
    requires drive { FitsDrive (netlist_of sim.old.net) drive }
    requires inputs { AreInputsAt (netlist_of sim.old.net) drive inputs.old 0 }
    requires view { IsViewAt view.old (txs_of drive) 0 }
    requires within { view.old.ports.end ≤ length table.now.names }
    // From whatever loads, the rows of the run go to the sink, up to a Conflict.
    ensures streamed { let n = netlist_of sim.old.net in (loads : Text → List ℕ) → StandsAt n sim.old 0 (trace_of n drive.entry) loads
        → IsStreamed n (line_seen table.now.names (txs_of drive.entry) view.old) rows (trace_of n drive.entry) loads
        result (O.written out.old) held.old (O.written out.new) held.new }
    ensures stands { let n = netlist_of sim.old.net in result ≡ RowEnd.Done → (loads : Text → List ℕ) → StandsAt n sim.old 0 (trace_of n drive.entry) loads
        → StandsAt n sim.new rows (trace_of n drive.entry) loads }
    ensures net { netlist_of sim.new.net ≡ netlist_of sim.old.net }
    ensures port { (cycle port : ℕ) → result ≡ RowEnd.Conflict cycle port → port < length table.now.names }
    ensures failed { result ≡ RowEnd.WriteFault → Rose (O.faults out.old) (O.faults out.new) }
    ensures never_falls { O.faults out.old ≤ O.faults out.new }
{
    let mut line = Line::new();
    for cycle in 0..rows {
        inputs.set_row(drive, cycle);
        view.set_row(drive.txs(), cycle);
        match stream_row(
            sim,
            table,
            view,
            cycle,
            &inputs.values,
            &mut line,
            held,
            out,
        ) {
            RowEnd::Done => {}
            end => return end,
        }
    }
    RowEnd::Done
}
