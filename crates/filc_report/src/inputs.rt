//! The inputs of a run, row by row.
ghost use Rattle.std.specs.Prelude.{◌≡◌, ℕ, ◌+◌, ◌<◌, ◌≤◌, length, map, replicate, slice_get, slice_range, All, Some, IfOk};
ghost use Rattle.std.specs.List.{AllWithin};
ghost use Rattle.hw_bits.specs.Values.{values_of, widths_of};
ghost use Rattle.hw_bits.specs.declared.bits.TheConstants.{MAX_WIDTH};
ghost use Rattle.hw_names.specs.Name.{Text};
ghost use Rattle.net_core.specs.NetRun.{HasPin};
ghost use Rattle.net_core.specs.Netlist.{Netlist, netlist_of};
ghost use Rattle.net_core.specs.Rules.{IsValid};
ghost use Rattle.net_core.specs.Table.{IsTableOf};
ghost use Rattle.net_core.specs.declared.stimulus.InputSet.{InputSet};
ghost use Rattle.net_sim.specs.Sim.{input_row};
ghost use Rattle.filc_load.specs.Given.{with_sets, FitInputs};
ghost use Rattle.filc_report.specs.Driving.{trace_of, FitsDrive, AreInputsAt};

use crate::drive::Drive;
use crate::tx_inputs::{TxInput, set_inputs, tx_inputs};
use hw_bits::{Bits, Memory};
use net_core::{InputSet, Net, PortInfo, Table};
use std::alloc::Global;

/// The inputs of a run, as what drives it has made them.
#[derive(Drop)]
pub struct Inputs {
    /// Their values in the last row; 0 before the first.
    pub(crate) values: Vec<Bits>,
    /// How many sets of a list of cycles were made.
    pub(crate) taken: usize,
    /// How transactions drive each input.
    pub(crate) ports: Vec<TxInput>,
    /// For each input, the first transaction that is not over.
    pub(crate) nexts: Vec<usize>,
}

impl Inputs {
    /// The inputs of a netlist before the first row of a run.
    pub fn new(alloc: Global, net: &Net, table: &Table, drive: Drive) -> Result<Inputs, Memory>
        requires valid { IsValid (netlist_of net.now) }
        requires table { IsTableOf (netlist_of net.now) table.now }
        requires fits { FitsDrive (netlist_of net.now) drive }
        ensures { IfOk result (λ inputs. AreInputsAt (netlist_of net.now) drive.entry inputs 0) }
    {
        let values = zeros(alloc, &table.ports[..net.ins.len()])?;
        let ports = match drive {
            Drive::Cycles(_) => Vec::new(alloc),
            Drive::Txs(_, sig) => tx_inputs(alloc, net, table, sig)?,
        };
        let nexts = vec![in alloc; 0; ports.len()]?;
        Ok(Inputs {
            values,
            taken: 0,
            ports,
            nexts,
        })
    }

    /// The values of the inputs, in their order, in the row that came last; 0 before the first.
    pub fn values(&self) -> &[Bits]
        ensures { result.now ≡ self.now.values.items }
    {
        &self.values
    }

    /// Gives the inputs their values in a row. Rows come in their order.
    pub fn set_row(&mut self, drive: Drive, row: u64)
        requires { (n : Netlist) × FitsDrive n drive × AreInputsAt n drive self.old row }
        ensures at { (n : Netlist) → FitsDrive n drive.entry → AreInputsAt n drive.entry self.old row → AreInputsAt n drive.entry self.new (row + 1) }
        ensures given { (n : Netlist) → FitsDrive n drive.entry → AreInputsAt n drive.entry self.old row
            → (port : Text) → HasPin n.ins port → input_row n (values_of self.new.values.items) port ≡ trace_of n drive.entry row port }
    {
        match drive {
            Drive::Cycles(list) => {
                self.taken = set_due(&list.sets, self.taken, row, &mut self.values);
            }
            Drive::Txs(list, _) => {
                set_inputs(&self.ports, list, row, &mut self.nexts, &mut self.values);
            }
        }
    }
}

/// A 0 for each of these ports, of its width.
fn zeros(alloc: Global, ports: &[PortInfo]) -> Result<Vec<Bits>, Memory>
    requires { All (λ port. (1 ≤ port.width) × (port.width ≤ MAX_WIDTH)) ports.now }
    ensures widths { IfOk result (λ inputs. widths_of inputs.items ≡ map (λ port. port.width) ports.now) }
    ensures values { IfOk result (λ inputs. values_of inputs.items ≡ replicate (length ports.now) 0) }
{
    let mut inputs = Vec::new(alloc);
    for port in ports {
        inputs.push(Bits::wrap(0, port.width))?;
    }
    Ok(inputs)
}

/// Sets inputs for a row, from the first set that wasn't taken on, and answers the next that isn't due yet.
pub(crate) fn set_due(sets: &[InputSet], taken: usize, row: u64, inputs: &mut [Bits]) -> usize
    requires taken { taken ≤ length sets.now }
    requires fit { FitInputs (widths_of inputs.old) sets.now }
    ensures in_order { taken ≤ result }
    ensures within { result ≤ length sets.now }
    ensures due { AllWithin (λ (s : InputSet). s.from ≤ row) sets.now taken result }
    ensures later { (s : InputSet) → result < length sets.now → slice_get sets.now result ≡ Some s → row < s.from }
    ensures values { values_of inputs.new ≡ with_sets (slice_range sets.now taken result) (values_of inputs.old) }
    ensures widths { widths_of inputs.new ≡ widths_of inputs.old }
{
    let mut next = taken;
    while next < sets.len() {
        let InputSet { from, input, value } = sets[next];
        if from > row {
            break;
        }
        inputs[input] = value;
        next += 1;
    }
    next
}
