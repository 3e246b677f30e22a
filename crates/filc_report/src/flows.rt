//! The report of `flow`: what each transaction computes.
ghost use Rattle.std.specs.Prelude.{◌≡◌, ◌≤◌, ◌<◌, [], ◌++◌, All, Some, IfOk, IfErr, IsErrOf, OnOk, OnErr, length, map, slice_get};
ghost use Rattle.std.specs.Io.KnownBytes.{Appends};
ghost use Rattle.fil_ast.specs.Numbers.{ComponentHasNumbers};
ghost use Rattle.fil_ast.specs.Transactions.{inputs_given, outputs_shown};
ghost use Rattle.fil_ast.specs.Tree.{Component, component_tree, design_of};
ghost use Rattle.fil_ast.specs.Typing.{HasWidths};
ghost use Rattle.fil_flow.specs.Shown.{port_widths};
ghost use Rattle.hw_bits.specs.Values.{values_of, widths_of};
ghost use Rattle.hw_io.specs.Faults.{Rose};
ghost use Rattle.hw_io.specs.Writing.{AppendsPrefix, Passes};
ghost use Rattle.stim_read.specs.TxRun.{transaction_seen};
ghost use Rattle.filc_load.specs.Built.{IsFilReady, FitsComponent};
ghost use Rattle.filc_load.specs.StimulusFile.{event_name};
ghost use Rattle.filc_stop.specs.Stops.{IsWritingStop};
ghost use Rattle.filc_report.specs.Transactions.{flow_lines, named_line};

use crate::report::push_port;
use fil_ast::{FilComp, FilOk, Tx};
use fil_flow::Dataflow;
use filc_load::FilBuilt;
use filc_stop::Stop;
use hw_bits::{Bits, Memory};
use hw_io::{Failed, Gather, Sink};
use hw_names::Names;
use itoa::Buffer;
use std::alloc::Global;

/// The name of an event of the component.
fn event_name<'a>(names: &'a Names, comp: &FilComp, number: u8) -> &'a [u8]
    requires numbered { ComponentHasNumbers names.now comp.now }
    requires within { number < length comp.now.events.items }
    ensures { result.now ≡ event_name (component_tree names.now comp.now) number }
{
    names.text(comp.events[number as usize].name)
}

/// The values of the component's inputs in a transaction: its own at those of its event, in their order, and 0 at the others.
fn inputs_of(alloc: Global, names: &Names, comp: &FilComp, tx: &Tx) -> Result<Vec<Bits>, Memory>
    requires numbered { ComponentHasNumbers names.now comp.now }
    requires wide { HasWidths (component_tree names.now comp.now) }
    requires fits { FitsComponent (component_tree names.now comp.now) tx.now }
    ensures values { let c = component_tree names.now comp.now in
        IfOk result (λ inputs. values_of inputs.items ≡ inputs_given (event_name c tx.now.event) c.ins (values_of tx.now.values.items)) }
    ensures widths { IfOk result (λ inputs. widths_of inputs.items ≡ port_widths (component_tree names.now comp.now).ins) }
{
    let event = event_name(names, comp, tx.event);
    let mut inputs = Vec::new(alloc);
    let mut given = 0;
    for port in &comp.ins {
        if names.text(port.from.event) == event {
            inputs.push(tx.values[given])?;
            given += 1;
        } else {
            inputs.push(Bits::wrap(0, port.width as u8))?;
        }
    }
    Ok(inputs)
}

/// Passes the line of a transaction on: its number, and those of the component's outputs that are of its event.
fn push_flow<O: Sink>(
    names: &Names,
    comp: &FilComp,
    number: usize,
    tx: &Tx,
    values: &[Bits],
    held: &mut Gather,
    out: &mut O,
) -> Result<(), Failed>
    requires numbered { ComponentHasNumbers names.now comp.now }
    requires event { tx.now.event < length comp.now.events.items }
    requires each { length values.now ≡ length comp.now.outs.items }
    ensures passed { let c = component_tree names.now comp.now in OnOk result (Passes (O.written out.old) held.old (O.written out.new) held.new
        (named_line number (outputs_shown (event_name c tx.now.event) c.outs (values_of values.now)))) }
    ensures prefix { let c = component_tree names.now comp.now in OnErr result (AppendsPrefix (O.written out.old) (O.written out.new)
        (held.old ++ named_line number (outputs_shown (event_name c tx.now.event) c.outs (values_of values.now)))) }
    ensures emptied { OnErr result (held.new ≡ []) }
    ensures failed { OnErr result (Rose (O.faults out.old) (O.faults out.new)) }
    ensures never_falls { O.faults out.old ≤ O.faults out.new }
{
    let shown = event_name(names, comp, tx.event);
    let mut digits = Buffer::new();
    held.push(out, digits.format(number).as_bytes())?;
    for (at, port) in comp.outs.iter().enumerate() {
        if names.text(port.from.event) == shown {
            push_port(held, out, names.text(port.name), values[at].value())?;
        }
    }
    held.push(out, "\n".as_bytes())
}

/// Writes what each of these transactions of the top component computes.
pub fn write_flows<O: Sink>(
    alloc: Global,
    built: &FilBuilt,
    txs: &[Tx],
    out: &mut O,
) -> Result<(), Stop>
    requires ready { IsFilReady built.now }
    requires fits { (c : Component) → slice_get (design_of built.now.design) built.now.top ≡ Some c → All (FitsComponent c) txs.now }
    ensures written { (c : Component) → slice_get (design_of built.now.design) built.now.top ≡ Some c
        → OnOk result (Appends (O.written out.old) (O.written out.new) (flow_lines (design_of built.now.design) c 0 (map transaction_seen txs.now))) }
    ensures part { (c : Component) → slice_get (design_of built.now.design) built.now.top ≡ Some c
        → OnErr result (AppendsPrefix (O.written out.old) (O.written out.new) (flow_lines (design_of built.now.design) c 0 (map transaction_seen txs.now))) }
    ensures stops { IfErr result IsWritingStop }
    ensures write_fault { IsErrOf result Stop.WriteFault → Rose (O.faults out.old) (O.faults out.new) }
    ensures never_falls { O.faults out.old ≤ O.faults out.new }
{
    let design = &built.design;
    let comp = &design.comps[built.top];
    let dataflow = Dataflow::new(alloc, &FilOk::new(design), built.top)?;
    let mut held = Gather::new(alloc)?;
    for (number, tx) in txs.iter().enumerate() {
        let inputs = inputs_of(alloc, &design.names, comp, tx)?;
        let values = dataflow.values(alloc, &inputs)?;
        push_flow(&design.names, comp, number, tx, &values, &mut held, out)?;
    }
    held.flush(out)?;
    Ok(())
}
