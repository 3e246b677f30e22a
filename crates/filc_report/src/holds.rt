//! The report of `timeline`: what transactions hold.
ghost use Rattle.std.specs.Prelude.{◌≡◌, ◌≤◌, [], ◌++◌, All, Some, IfErr, IsErrOf, OnOk, OnErr, map, slice_get};
ghost use Rattle.std.specs.Io.KnownBytes.{Appends};
ghost use Rattle.fil_ast.specs.Tree.{Component, design_of};
ghost use Rattle.fil_share.specs.Uses.{HoldHasNumbers, shown_hold};
ghost use Rattle.hw_io.specs.Faults.{Rose};
ghost use Rattle.hw_io.specs.Writing.{AppendsPrefix, Passes};
ghost use Rattle.stim_read.specs.TxRun.{transaction_seen};
ghost use Rattle.filc_load.specs.Built.{IsFilReady, FitsComponent};
ghost use Rattle.filc_stop.specs.Stops.{IsWritingStop};
ghost use Rattle.filc_report.specs.Transactions.{hold_line, hold_lines};

use crate::report::push_texts;
use fil_ast::{FilOk, Tx};
use fil_share::{Hold, holds};
use filc_load::FilBuilt;
use filc_stop::Stop;
use hw_io::{Failed, Gather, Sink};
use hw_names::Names;
use itoa::Buffer;
use std::alloc::Global;

/// Passes the line of a hold on: the instance, the rows from and to which it is held, the invocation, and the transaction's number.
fn push_hold<O: Sink>(
    names: &Names,
    hold: &Hold,
    held: &mut Gather,
    out: &mut O,
) -> Result<(), Failed>
    requires { HoldHasNumbers names.now hold.now }
    ensures passed { OnOk result (Passes (O.written out.old) held.old (O.written out.new) held.new (hold_line (shown_hold names.now hold.now))) }
    ensures prefix { OnErr result (AppendsPrefix (O.written out.old) (O.written out.new) (held.old ++ hold_line (shown_hold names.now hold.now))) }
    ensures emptied { OnErr result (held.new ≡ []) }
    ensures failed { OnErr result (Rose (O.faults out.old) (O.faults out.new)) }
    ensures never_falls { O.faults out.old ≤ O.faults out.new }
{
    let mut from = Buffer::new();
    let mut to = Buffer::new();
    let mut tx = Buffer::new();
    let texts = [
        names.text(hold.inst),
        " ".as_bytes(),
        from.format(hold.from).as_bytes(),
        " ".as_bytes(),
        to.format(hold.to).as_bytes(),
        " ".as_bytes(),
        names.text(hold.call),
        " ".as_bytes(),
        tx.format(hold.tx).as_bytes(),
        "\n".as_bytes(),
    ];
    push_texts(held, out, &texts)
}

/// Writes what these transactions of the top component hold.
pub fn write_holds<O: Sink>(
    alloc: Global,
    built: &FilBuilt,
    txs: &[Tx],
    out: &mut O,
) -> Result<(), Stop>
    requires ready { IsFilReady built.now }
    requires fits { (c : Component) → slice_get (design_of built.now.design) built.now.top ≡ Some c → All (FitsComponent c) txs.now }
    ensures written { (c : Component) → slice_get (design_of built.now.design) built.now.top ≡ Some c
        → OnOk result (Appends (O.written out.old) (O.written out.new) (hold_lines (design_of built.now.design) built.now.top c (map transaction_seen txs.now))) }
    ensures part { (c : Component) → slice_get (design_of built.now.design) built.now.top ≡ Some c
        → OnErr result (AppendsPrefix (O.written out.old) (O.written out.new) (hold_lines (design_of built.now.design) built.now.top c (map transaction_seen txs.now))) }
    ensures stops { IfErr result IsWritingStop }
    ensures write_fault { IsErrOf result Stop.WriteFault → Rose (O.faults out.old) (O.faults out.new) }
    ensures never_falls { O.faults out.old ≤ O.faults out.new }
{
    let found = holds(alloc, &FilOk::new(&built.design), built.top, txs)?;
    let mut held = Gather::new(alloc)?;
    for hold in &found {
        push_hold(&built.design.names, hold, &mut held, out)?;
    }
    held.flush(out)?;
    Ok(())
}
