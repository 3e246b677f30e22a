//! The rows of a design's netlist, as transactions drive it.
ghost use Rattle.std.specs.Prelude.{◌≡◌, ◌≤◌, IfErr, IsErrOf, OnOk, OnErr, map, slice_get, Some};
ghost use Rattle.std.specs.Io.KnownBytes.{Appends};
ghost use Rattle.fil_ast.specs.Tree.{Component, design_of};
ghost use Rattle.fil_driven.specs.Laws.{AreTransactionsOf};
ghost use Rattle.hw_io.specs.Faults.{Rose};
ghost use Rattle.hw_io.specs.Writing.{AppendsPrefix};
ghost use Rattle.stim_read.specs.TxRun.{transaction_seen, tx_run_seen};
ghost use Rattle.filc_load.specs.Built.{IsFilReady};
ghost use Rattle.filc_stop.specs.Leaving.{Leaves};
ghost use Rattle.filc_stop.specs.Stops.{IsWritingStop};
ghost use Rattle.filc_run.specs.Meant.{meant_text};
ghost use Rattle.filc_run.specs.Traced.{IsMadeOf, Traces};

use crate::lowered::Lowered;
use crate::text::with_empty_line;
use fil_ast::TxList;
use filc_load::FilBuilt;
use filc_report::run_transactions;
use filc_stop::Stop;
use hw_io::Sink;
use std::alloc::Global;

/// Writes the rows of the top component's outputs under these transactions, as the source means them.
pub fn write_outputs<O: Sink>(
    alloc: Global,
    design: &FilBuilt,
    list: &TxList,
    out: &mut O,
) -> Result<(), Stop>
    requires ready { IsFilReady design.now }
    requires transactions { (c : Component) → slice_get (design_of design.now.design) design.now.top ≡ Some c → AreTransactionsOf c list.now }
    ensures written { (c : Component) → slice_get (design_of design.now.design) design.now.top ≡ Some c
        → OnOk result (Appends (O.written out.old) (O.written out.new) (meant_text (design_of design.now.design) c (map transaction_seen list.now.txs.items))) }
    ensures part { (c : Component) → slice_get (design_of design.now.design) design.now.top ≡ Some c
        → OnErr result (AppendsPrefix (O.written out.old) (O.written out.new) (meant_text (design_of design.now.design) c (map transaction_seen list.now.txs.items))) }
    ensures stops { IfErr result IsWritingStop }
    ensures write_fault { IsErrOf result Stop.WriteFault → Rose (O.faults out.old) (O.faults out.new) }
    ensures never_falls { O.faults out.old ≤ O.faults out.new }
{
    let lowered = Lowered::make(alloc, design, &list.txs)?;
    run_transactions(
        alloc,
        &lowered.built,
        lowered.transactions(list),
        &[],
        false,
        out,
    )
}

/// Writes the text of the design's netlist, an empty line, and the rows of all its ports under these transactions.
pub fn write_trace<O: Sink>(
    alloc: Global,
    design: &FilBuilt,
    list: &TxList,
    out: &mut O,
) -> Result<(), Stop>
    requires ready { IsFilReady design.now }
    requires transactions { (c : Component) → slice_get (design_of design.now.design) design.now.top ≡ Some c → AreTransactionsOf c list.now }
    ensures leaves { (c : Component) → slice_get (design_of design.now.design) design.now.top ≡ Some c
        → Leaves (IsMadeOf (design_of design.now.design)) (Traces (design_of design.now.design) c (tx_run_seen list.now)) result (O.written out.old) (O.written out.new) }
    ensures stops { IfErr result IsWritingStop }
    ensures write_fault { IsErrOf result Stop.WriteFault → Rose (O.faults out.old) (O.faults out.new) }
    ensures never_falls { O.faults out.old ≤ O.faults out.new }
{
    let lowered = Lowered::make(alloc, design, &list.txs)?;
    let head = with_empty_line(alloc, &lowered.built.net)?;
    run_transactions(
        alloc,
        &lowered.built,
        lowered.transactions(list),
        &head,
        true,
        out,
    )
}
