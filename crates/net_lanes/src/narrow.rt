//! The rule B1: no port of runs side by side is wider than a value in a lane.
ghost use Rattle.std.specs.Prelude.{◌≡◌, length, All, IfOk, MatchOption};
ghost use Rattle.hw_prims.specs.Table.{IsMade};
ghost use Rattle.net_core.specs.Netlist.{netlist_of, lines_of};
ghost use Rattle.net_core.specs.Numbers.{HasNumbers};
ghost use Rattle.net_core.specs.Rules.{IsValid};
ghost use Rattle.net_core.specs.Table.{IsTableOf};
ghost use Rattle.net_core.specs.declared.net.NetPort.{NetPort as PortOfNet};
ghost use Rattle.net_sim.specs.Layout.{AreCellPorts};
ghost use Rattle.net_sim.specs.declared.cells.CellPorts.{CellPorts as PortsOfCell};
ghost use Rattle.net_lanes.specs.Narrow.{is_wide, has_wide_pin, has_wide_port, HasNone, IsFirst, IsNarrow, BreaksB1};

use hw_bits::Memory;
use hw_prims::Prim;
use net_core::{Net, NetPort, Table};
use net_sim::{CellPorts, cell_ports};
use std::alloc::Global;

/// The bits of a value in a lane.
pub const LANE_BITS: u8 = 64;

/// The item of the first line that makes a port of more than 64 bits; lines are counted from 1 after the first.
pub fn first_wide(alloc: Global, net: &Net, table: &Table) -> Result<Option<u64>, Memory>
    requires valid { IsValid (netlist_of net.now) }
    requires numbers { HasNumbers net.now }
    requires table { IsTableOf (netlist_of net.now) table.now }
    ensures { IfOk result (λ item. MatchOption item (IsNarrow (netlist_of net.now)) (BreaksB1 (netlist_of net.now))) }
{
    let cells = cell_ports(alloc, net, table.names.len())?;
    let Some(place) = wide_line(net, &cells) else {
        return Ok(None);
    };
    match u64::try_from(place + 1) {
        Ok(item) => Ok(Some(item)),
        Err(_) => Err(Memory),
    }
}

/// The place of the first line that makes a port that is too wide, counted from 0.
fn wide_line(net: &Net, cells: &[CellPorts]) -> Option<u128>
    requires { AreCellPorts (netlist_of net.now) cells.now }
    ensures { MatchOption result (IsNarrow (netlist_of net.now)) (IsFirst has_wide_port (lines_of (netlist_of net.now))) }
{
    let outs = net.ins.len() as u128;
    let wires = outs + net.outs.len() as u128;
    let first_cell = wires + net.wires.len() as u128;
    if let Some(place) = wide_port(&net.ins) {
        return Some(place as u128);
    }
    if let Some(place) = wide_port(&net.outs) {
        return Some(outs + place as u128);
    }
    if let Some(place) = wide_port(&net.wires) {
        return Some(wires + place as u128);
    }
    match wide_cell(cells) {
        Some(place) => Some(first_cell + place as u128),
        None => None,
    }
}

/// The place of the first of these ports that is too wide.
fn wide_port(ports: &[NetPort]) -> Option<usize>
    ensures { MatchOption result (HasNone (λ (port : PortOfNet). is_wide port.width) ports.now)
        (IsFirst (λ (port : PortOfNet). is_wide port.width) ports.now) }
{
    for (place, port) in ports.iter().enumerate() {
        if port.width > u128::from(LANE_BITS) {
            return Some(place);
        }
    }
    None
}

/// The place of the first of these cells that has a port that is too wide.
fn wide_cell(cells: &[CellPorts]) -> Option<usize>
    requires { All (λ (cell : PortsOfCell). IsMade cell.prim) cells.now }
    ensures { MatchOption result (HasNone (λ (cell : PortsOfCell). has_wide_pin cell.prim) cells.now)
        (IsFirst (λ (cell : PortsOfCell). has_wide_pin cell.prim) cells.now) }
{
    for (place, cell) in cells.iter().enumerate() {
        if has_wide_pin(cell.prim) {
            return Some(place);
        }
    }
    None
}

/// Whether a primitive has a port that is too wide.
fn has_wide_pin(prim: Prim) -> bool
    requires { IsMade prim }
    ensures { result ≡ has_wide_pin prim }
{
    for number in 0..prim.inputs() + prim.outputs() {
        if let Some(port) = prim.port(number)
            && port.width > LANE_BITS
        {
            return true;
        }
    }
    false
}
