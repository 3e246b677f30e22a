//! The inputs of a netlist as transactions drive them.
ghost use Rattle.std.specs.Prelude.{◌≡◌, ℕ, ◌+◌, ◌<◌, ◌≤◌, [], bytes_eq, false, length, map, slice_get, slice_index_or, Some, IsSome, IfOk};
ghost use Rattle.std.specs.Option.{option_map_or};
ghost use Rattle.hw_bits.specs.Values.{values_of, widths_of};
ghost use Rattle.hw_bits.specs.declared.bits.TheConstants.{MAX_WIDTH};
ghost use Rattle.hw_prims.specs.Table.{Pin};
ghost use Rattle.net_core.specs.Netlist.{netlist_of};
ghost use Rattle.net_core.specs.Rules.{IsValid};
ghost use Rattle.net_core.specs.Table.{IsTableOf};
ghost use Rattle.fil_ast.specs.declared.tx.TxList.{TxList};
ghost use Rattle.fil_sig.specs.Seen.{seen, seen_event, seen_port};
ghost use Rattle.stim_read.specs.TxRun.{tx_run_seen};
ghost use Rattle.filc_load.specs.Slots.{NumbersPortsAsNames};
ghost use Rattle.filc_report.specs.Driving.{value_in, GiveValues, AreTransactionsFor, DrivesPin, IsInterface, IsDataInput};
ghost use Rattle.fil_driven.specs.TxDrive.{HasPortsOf};
ghost use Rattle.filc_report.specs.Intervals.{ArePassed, IsFirstLeft, RiseByEvent};
ghost use Rattle.fil_driven.specs.TxDrive.{driven_by, event_with};
ghost use Rattle.filc_report.specs.declared.tx_inputs.TxInput.{TxInput};

use crate::intervals::Interval;
use fil_ast::TxList;
use fil_sig::{SigEvent, SigPort, TimeSig};
use filc_load::name_of;
use hw_bits::{Bits, Memory};
use net_core::{Net, Table};
use std::alloc::Global;

/// What an input gets from the transactions of its event.
#[derive(Clone, Copy, Debug)]
pub(crate) enum Gives {
    /// An interface port: 1 in the rows of starts, and 0 in others.
    Start,
    /// A data input: the transaction's value with this number, and the low bits of the idle number in other rows.
    Value(usize),
}

/// How transactions drive an input.
#[derive(Clone, Copy, Debug)]
pub(crate) struct TxInput {
    pub(crate) interval: Interval,
    pub(crate) gives: Gives,
}

impl TxInput {
    /// The value in a row, of so many bits. Transactions before `first` are over for it.
    fn value(self, list: &TxList, first: usize, row: u64, width: u8) -> Bits
        requires wide { 1 ≤ width }
        requires narrow { width ≤ MAX_WIDTH }
        requires first { IsFirstLeft self.interval list.now.txs.items first row }
        requires rise { RiseByEvent list.now.txs.items }
        requires given { GiveValues self width list.now.txs.items }
        ensures value { result.value ≡ value_in self list.now row width }
        ensures width { result.width ≡ width }
    {
        match self.interval.holding(&list.txs, first, row) {
            Some(tx) => match self.gives {
                Gives::Start => Bits::wrap(1, width),
                Gives::Value(place) => tx.values[place],
            },
            None => match self.gives {
                Gives::Start => Bits::wrap(0, width),
                Gives::Value(_) => Bits::wrap(list.idle, width),
            },
        }
    }
}

/// Gives the inputs their values in a row.
pub(crate) fn set_inputs(
    ports: &[TxInput],
    list: &TxList,
    row: u64,
    nexts: &mut [usize],
    inputs: &mut [Bits],
)
    requires as_many { length ports.now ≡ length inputs.old }
    requires each { length nexts.old ≡ length ports.now }
    requires rise { RiseByEvent list.now.txs.items }
    requires passed { (k : ℕ) (i : TxInput) → slice_get ports.now k ≡ Some i → ArePassed i.interval list.now.txs.items (slice_index_or nexts.old k 0) row }
    requires given { (k : ℕ) (i : TxInput) → slice_get ports.now k ≡ Some i → GiveValues i (slice_index_or (widths_of inputs.old) k 0) list.now.txs.items }
    ensures passed { (k : ℕ) (i : TxInput) → slice_get ports.now k ≡ Some i → ArePassed i.interval list.now.txs.items (slice_index_or nexts.new k 0) row }
    ensures widths { widths_of inputs.new ≡ widths_of inputs.old }
    ensures values { (k : ℕ) (i : TxInput) → slice_get ports.now k ≡ Some i
        → slice_index_or (values_of inputs.new) k 0 ≡ value_in i list.now row (slice_index_or (widths_of inputs.old) k 0) }
{
    for (at, port) in ports.iter().enumerate() {
        let first = port.interval.first_left(&list.txs, nexts[at], row);
        inputs[at] = port.value(list, first, row, inputs[at].width());
        nexts[at] = first;
    }
}

/// Whether this is the event's interface port.
fn has_interface(event: &SigEvent, port: &[u8]) -> bool
    ensures { result ≡ option_map_or (bytes_eq port.now) (seen_event event.now).go false }
{
    match &event.go {
        Some(go) => port == go.bytes(),
        None => false,
    }
}

/// The number of the event with this interface port; past the last where none has it.
fn event_with(events: &[SigEvent], port: &[u8]) -> usize
    ensures { IsSome (event_with 0 (map seen_event events.now) port.now) → event_with 0 (map seen_event events.now) port.now ≡ Some result }
{
    for (number, event) in events.iter().enumerate() {
        if has_interface(event, port) {
            return number;
        }
    }
    events.len()
}

/// The first `count` inputs of a netlist, which are interface ports of these events.
fn interface_inputs(
    alloc: Global,
    table: &Table,
    count: usize,
    events: &[SigEvent],
) -> Result<Vec<TxInput>, Memory>
    requires few { length events.now ≤ 256 }
    requires named { count ≤ length table.now.names }
    requires numbers { NumbersPortsAsNames table.now }
    requires interfaces { (k : ℕ) → k < count → IsSome (event_with 0 (map seen_event events.now) (slice_index_or table.now.names k [])) }
    ensures as_many { IfOk result (λ inputs. length inputs.items ≡ count) }
    ensures each { IfOk result (λ inputs. (k : ℕ) (i : TxInput) → slice_get inputs.items k ≡ Some i
        → IsInterface (map seen_event events.now) (slice_index_or table.now.names k []) i) }
{
    let mut inputs = Vec::new(alloc);
    for input in 0..count {
        let event = event_with(events, name_of(table, input));
        let interval = Interval {
            event: event as u8,
            from: 0,
            to: 1,
        };
        inputs.push(TxInput {
            interval,
            gives: Gives::Start,
        })?;
    }
    Ok(inputs)
}

/// The data inputs of a signature, each with its place among those of its event.
fn data_inputs(alloc: Global, ports: &[SigPort]) -> Result<Vec<TxInput>, Memory>
    ensures as_many { IfOk result (λ inputs. length inputs.items ≡ length ports.now) }
    ensures each { IfOk result (λ inputs. (k : ℕ) (i : TxInput) → slice_get inputs.items k ≡ Some i → IsDataInput (map seen_port ports.now) k i) }
{
    let mut places = [0usize; 256];
    let mut inputs = Vec::new(alloc);
    for port in ports {
        let event = usize::from(port.from.event);
        let place = places[event];
        inputs.push(TxInput {
            interval: Interval::of(port),
            gives: Gives::Value(place),
        })?;
        places[event] = place + 1;
    }
    Ok(inputs)
}

/// How transactions drive the inputs of a netlist that has the ports of a signature.
pub(crate) fn tx_inputs(
    alloc: Global,
    net: &Net,
    table: &Table,
    sig: &TimeSig,
) -> Result<Vec<TxInput>, Memory>
    requires valid { IsValid (netlist_of net.now) }
    requires table { IsTableOf (netlist_of net.now) table.now }
    requires few { length (seen sig.now).events ≤ 256 }
    requires ports { HasPortsOf (seen sig.now) (netlist_of net.now) }
    ensures as_many { IfOk result (λ inputs. length inputs.items ≡ length (netlist_of net.now).ins) }
    ensures drives { IfOk result (λ inputs. (list : TxList) → AreTransactionsFor (netlist_of net.now) (seen sig.now) list
        → (k : ℕ) (i : TxInput) (p : Pin) → slice_get inputs.items k ≡ Some i → slice_get (netlist_of net.now).ins k ≡ Some p
        → DrivesPin list (driven_by (seen sig.now) (tx_run_seen list)) i p) }
{
    let mut inputs = interface_inputs(alloc, table, net.ins.len() - sig.ins.len(), &sig.events)?;
    let data = data_inputs(alloc, &sig.ins)?;
    inputs.extend_from_slice(&data)?;
    Ok(inputs)
}
