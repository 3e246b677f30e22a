//! One lane: a run of a netlist by itself.
ghost use Rattle.std.specs.Prelude.{◌≡◌, map, IfOk};
ghost use Rattle.hw_bits.specs.Values.{values_of, widths_of};
ghost use Rattle.net_core.specs.Netlist.{netlist_of};
ghost use Rattle.net_core.specs.Numbers.{HasNumbers};
ghost use Rattle.net_core.specs.Rules.{IsValid};
ghost use Rattle.net_core.specs.Table.{IsTableOf};
ghost use Rattle.net_sim.specs.PortOrder.{IsPortOrderOf};
ghost use Rattle.net_lanes.specs.Held.{lane_seen};
ghost use Rattle.net_lanes.specs.Lanes.{conflict_of, IsNewLane, IsRowOfLane, IsEdgeOfLane};

use hw_bits::{Bits, Memory};
use net_core::{Net, Table};
use net_row::{Phase, PortOrder, Sim};
use std::alloc::Global;

/// How many lanes there are.
pub const LANES: usize = 8;

/// A lane: its simulation, and whether it rests.
#[derive(Drop)]
pub struct LaneRun<'a> {
    pub sim: Sim<'a>,
    pub rests: bool,
}

impl<'a> LaneRun<'a> {
    /// A lane before its first row, without a word loaded.
    pub fn new(
        alloc: Global,
        net: &'a Net,
        table: &'a Table,
        order: &'a PortOrder,
    ) -> Result<LaneRun<'a>, Memory>
        requires valid { IsValid (netlist_of net.now) }
        requires numbers { HasNumbers net.now }
        requires table { IsTableOf (netlist_of net.now) table.now }
        requires order { IsPortOrderOf (netlist_of net.now) order.now }
        ensures { IfOk result (λ run. IsNewLane net.now (lane_seen run)) }
    {
        let sim = Sim::new(alloc, net, table, order)?;
        Ok(LaneRun { sim, rests: false })
    }

    /// A row from the values of the netlist's inputs. The port with the Conflict that has ended the run is told, also by each
    /// later row. Takes no memory.
    pub fn row(&mut self, inputs: &[Bits]) -> Option<usize>
        requires { widths_of inputs.now ≡ map (λ p. p.width) (netlist_of self.old.sim.net).ins }
        ensures { IsRowOfLane (values_of inputs.now) result (lane_seen self.old) (lane_seen self.new) }
    {
        if self.rests {
            return self.conflict();
        }
        match self.sim.row(inputs) {
            Ok(()) => None,
            Err(conflict) => Some(conflict.port),
        }
    }

    /// The port with the Conflict that has ended the run. Takes no memory.
    fn conflict(&self) -> Option<usize>
        ensures { result ≡ conflict_of self.now.sim.phase }
    {
        match self.sim.phase() {
            Phase::Stopped(port) => Some(port),
            _ => None,
        }
    }

    /// The edge that ends the row that was made. Takes no memory.
    pub fn edge(&mut self)
        ensures { IsEdgeOfLane (lane_seen self.old) (lane_seen self.new) }
    {
        if !self.rests {
            self.sim.edge();
        }
    }
}
