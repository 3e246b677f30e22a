//! Runs of a netlist side by side.
ghost use Rattle.std.specs.Prelude.{◌≡◌, ◌<◌, ◌≤◌, ℕ, None, Some, length, map, slice_get, slice_index_or, All, IfOk};
ghost use Rattle.hw_bits.specs.Values.{values_of, widths_of};
ghost use Rattle.hw_bits.specs.declared.bits.TheConstants.{MAX_WIDTH};
ghost use Rattle.hw_prims.specs.Table.{pin_widths};
ghost use Rattle.net_core.specs.Netlist.{netlist_of};
ghost use Rattle.net_core.specs.Numbers.{HasNumbers};
ghost use Rattle.net_core.specs.Rules.{IsValid};
ghost use Rattle.net_core.specs.Table.{IsTableOf};
ghost use Rattle.net_sim.specs.Layout.{port_names, port_widths};
ghost use Rattle.net_sim.specs.PortOrder.{IsPortOrderOf};
ghost use Rattle.net_sim.specs.Shown.{shown_cells, HasWord, HasWordWidth};
ghost use Rattle.net_sim.specs.Sim.{IsWordOfSim, IsWordCountOfSim};
ghost use Rattle.net_sim.specs.declared.sim.Phase.TheVariants.{Fresh};
ghost use Rattle.net_lanes.specs.Held.{lane_seen, IsRunOf};
ghost use Rattle.net_lanes.specs.Lanes.{lane_inputs, AreInputs, AreNewLanes, AreRowsOfLanes, AreEdgesOfLanes, OneChanges, OfLane};
ghost use Rattle.net_lanes.specs.Lanes.{IsNewLane, IsLoadOfLane, IsRestOfLane, IsRowOfLane, IsEdgeOfLane};
ghost use Rattle.net_lanes.specs.Narrow.{IsNarrow};
ghost use Rattle.net_lanes.specs.declared.lane.LaneRun.{LaneRun as Run};

use crate::lane::{LANES, LaneRun};
use hw_bits::{Bits, Memory};
use net_core::{Net, NetPort, Table};
use net_row::PortOrder;
use std::alloc::Global;
use std::marker::Model;

/// Eight runs of a netlist side by side, each with its own inputs and words. A lane in which a Conflict came, or that rests,
/// stays as it is. After `new` it takes no memory.
#[derive(Drop)]
pub struct LaneSim<'a> {
    net: &'a Net,
    runs: Vec<LaneRun<'a>>,
    /// The inputs of one lane.
    inputs: Vec<Bits>,
}

impl<'a> Model for LaneSim<'a> {
    ghost use Rattle.net_core.specs.contracts.net.Net as net_type;
    ghost use Rattle.net_lanes.specs.Held.{lanes_seen, AreHeld};
    ghost use Rattle.net_lanes.specs.Lanes.{LanesValue};
    ghost use Rattle.std.specs.Coded.{codes};

    ghost Value = { LanesValue };

    ghost coded = { Prim.hlevel (codes, net_type.the_row.coded) };

    ghost view = { lanes_seen };

    ghost invariant = { AreHeld };
}

impl<'a> LaneSim<'a> {
    /// Eight runs of the netlist, whose table and order these are and of which no port is wider than 64 bits: each cell in its
    /// opening state.
    pub fn new(
        alloc: Global,
        net: &'a Net,
        table: &'a Table,
        order: &'a PortOrder,
    ) -> Result<LaneSim<'a>, Memory>
        requires valid { IsValid (netlist_of net.now) }
        requires numbers { HasNumbers net.now }
        requires table { IsTableOf (netlist_of net.now) table.now }
        requires order { IsPortOrderOf (netlist_of net.now) order.now }
        requires narrow { IsNarrow (netlist_of net.now) }
        ensures { IfOk result (AreNewLanes net.now) }
    {
        let runs = new_runs(alloc, net, table, order)?;
        let inputs = no_inputs(alloc, &net.ins)?;
        Ok(LaneSim { net, runs, inputs })
    }

    /// Puts a word into a shown memory of a lane, before its first row. Shown memories are counted from 0 in the order of the
    /// cells, and words from 0. Takes no memory.
    pub fn load(&mut self, lane: usize, mem: usize, at: usize, word: Bits)
        requires lane { lane < LANES }
        requires fresh { OfLane self.old lane (λ of. of.sim.phase ≡ Fresh) }
        requires place { HasWord (netlist_of self.old.net) mem at }
        requires width { HasWordWidth (netlist_of self.old.net) mem word.width }
        ensures { OneChanges lane (IsLoadOfLane mem at word.value) self.old self.new }
    {
        self.runs[lane].sim.load(mem, at, word);
    }

    /// From now on the lane rests: its run is over, and it stays as it is. Takes no memory.
    pub fn rest(&mut self, lane: usize)
        requires { lane < LANES }
        ensures { OneChanges lane IsRestOfLane self.old self.new }
    {
        self.runs[lane].rests = true;
    }

    /// The word of a shown memory of a lane now, after its last edge. Takes no memory.
    pub fn word(&self, lane: usize, mem: usize, at: usize) -> Bits
        requires lane { lane < LANES }
        requires place { HasWord (netlist_of self.now.net) mem at }
        ensures value { OfLane self.now lane (λ of. IsWordOfSim of.sim mem at result.value) }
        ensures width { HasWordWidth (netlist_of self.now.net) mem result.width }
    {
        self.runs[lane].sim.word(mem, at)
    }

    /// The number of words of a shown memory, which is the same in each lane. Takes no memory.
    pub fn word_count(&self, lane: usize, mem: usize) -> usize
        requires lane { lane < LANES }
        requires memory { mem < length (shown_cells (netlist_of self.now.net)) }
        ensures { OfLane self.now lane (λ of. IsWordCountOfSim of.sim mem result) }
    {
        self.runs[lane].sim.word_count(mem)
    }

    /// Makes a row of each lane from the values of the netlist's inputs, in their order, and in each the values of the lanes. For
    /// each lane it tells the port with the Conflict that has ended its run, in this row or an earlier one; of a row's Conflicts it
    /// is the least port, by the bytes of its name. Takes no memory.
    pub fn row(&mut self, inputs: &[[u64; LANES]]) -> [Option<usize>; LANES]
        requires { AreInputs (pin_widths (netlist_of self.old.net).ins) inputs.now }
        ensures { AreRowsOfLanes inputs.now result self.old self.new }
    {
        make_rows(&mut self.runs, &mut self.inputs, inputs)
    }

    /// The edge that ends the row that was made: each cell of each lane moves on. Takes no memory.
    pub fn edge(&mut self)
        ensures { AreEdgesOfLanes self.old self.new }
    {
        make_edges(&mut self.runs);
    }

    /// The value of a port in the last row of a lane; 0 before its first. Takes no memory.
    pub fn value(&self, port: usize, lane: usize) -> Bits
        requires port { port < length (port_names (netlist_of self.now.net)) }
        requires lane { lane < LANES }
        ensures value { OfLane self.now lane (λ of. slice_get of.sim.values port ≡ Some result.value) }
        ensures width { slice_get (port_widths (netlist_of self.now.net)) port ≡ Some result.width }
    {
        self.runs[lane].sim.value(port)
    }
}

/// A run of the netlist for each lane, before its first row.
fn new_runs<'a>(
    alloc: Global,
    net: &'a Net,
    table: &'a Table,
    order: &'a PortOrder,
) -> Result<Vec<LaneRun<'a>>, Memory>
    requires valid { IsValid (netlist_of net.now) }
    requires numbers { HasNumbers net.now }
    requires table { IsTableOf (netlist_of net.now) table.now }
    requires order { IsPortOrderOf (netlist_of net.now) order.now }
    ensures count { IfOk result (λ runs. length runs.items ≡ LANES) }
    ensures each { IfOk result (λ runs. All (λ (run : Run). IsNewLane net.now (lane_seen run)) runs.items) }
{
    let mut runs = Vec::new(alloc);
    for _lane in 0..LANES {
        runs.push(LaneRun::new(alloc, net, table, order)?)?;
    }
    Ok(runs)
}

/// A 0 for each of these inputs, of its width.
fn no_inputs(alloc: Global, ins: &[NetPort]) -> Result<Vec<Bits>, Memory>
    requires { All (λ port. (1 ≤ port.width) × (port.width ≤ MAX_WIDTH)) ins.now }
    ensures { IfOk result (λ inputs. widths_of inputs.items ≡ map (λ port. port.width) ins.now) }
{
    let mut inputs = Vec::new(alloc);
    for port in ins {
        inputs.push(Bits::wrap(0, port.width as u8))?;
    }
    Ok(inputs)
}

/// Gives inputs the values of a lane.
fn set_inputs(held: &mut [Bits], inputs: &[[u64; LANES]], lane: usize)
    requires inputs { AreInputs (widths_of held.old) inputs.now }
    requires lane { lane < LANES }
    ensures values { values_of held.new ≡ lane_inputs lane inputs.now }
    ensures widths { widths_of held.new ≡ widths_of held.old }
{
    for (number, values) in inputs.iter().enumerate() {
        held[number] = Bits::wrap(values[lane] as u128, held[number].width());
    }
}

/// A row of each run, from the inputs of its lane. The first values are written over.
fn make_rows(
    runs: &mut [LaneRun],
    held: &mut [Bits],
    inputs: &[[u64; LANES]],
) -> [Option<usize>; LANES]
    requires count { length runs.old ≡ LANES }
    requires widths { All (λ (run : Run). widths_of held.old ≡ pin_widths (netlist_of run.sim.net).ins) runs.old }
    requires inputs { AreInputs (widths_of held.old) inputs.now }
    ensures each { (k : ℕ) (o n : Run) → slice_get runs.old k ≡ Some o → slice_get runs.new k ≡ Some n
        → IsRowOfLane (lane_inputs k inputs.now) (slice_index_or result k None) (lane_seen o) (lane_seen n) }
    ensures widths { widths_of held.new ≡ widths_of held.old }
{
    let mut conflicts = [None; LANES];
    for lane in 0..LANES {
        set_inputs(held, inputs, lane);
        conflicts[lane] = runs[lane].row(held);
    }
    conflicts
}

/// The edge of each run.
fn make_edges(runs: &mut [LaneRun])
    ensures { (k : ℕ) (o n : Run) → slice_get runs.old k ≡ Some o → slice_get runs.new k ≡ Some n
        → IsEdgeOfLane (lane_seen o) (lane_seen n) }
{
    for lane in 0..runs.len() {
        runs[lane].edge();
    }
}
