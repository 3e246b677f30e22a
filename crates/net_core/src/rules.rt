//! The rules of a netlist.
ghost use Rattle.std.specs.Prelude.{◌≡◌, [], List, flat_map, IfOk, IfErr, OnOk};
ghost use Rattle.net_core.specs.Judging.{own_part, first_broken, Tells, IsCauseIn};
ghost use Rattle.net_core.specs.Netlist.{netlist_of, lines_of};
ghost use Rattle.net_core.specs.Numbers.{HasNumbers};
ghost use Rattle.net_core.specs.Rules.{IsValid, PortLine, ports_at, ports_of};
ghost use Rattle.net_core.specs.Table.{IsTableOf};

use crate::cells::take_cells;
use crate::net::Net;
use crate::pins::take_pins;
use crate::ports::{Ports, Side};
use crate::sets::check_sets;
use crate::table::Table;
use hw_bits::Memory;
use hw_names::Names;
use std::alloc::Global;

/// Why a netlist has no table.
#[derive(Clone, Copy, Debug, PartialEq, Eq)]
pub enum NetEnd {
    /// The rule N1 to N5 with this number is broken at this item, the first line that breaks one:
    /// lines are counted from 1 after the first, and of the rules at a line the least is told.
    Refused { rule: u8, item: u64 },
    /// There was no memory.
    Memory,
}

impl From<Memory> for NetEnd {
    ghost use Rattle.net_core.specs.declared.rules.NetEnd.{NetEnd};

    ghost from_gives = { λ memory end. end ≡ NetEnd.Memory };

    fn from(_memory: Memory) -> NetEnd {
        NetEnd::Memory
    }
}

/// The table of the ports of a netlist that keeps the rules N1 to N5; else the first rule that is broken.
/// It takes time that grows with the ports, the assignments and the nodes of their guards.
pub fn valid(alloc: Global, net: &Net) -> Result<Table, NetEnd>
    requires { HasNumbers net.now }
    ensures kept { OnOk result (IsValid (netlist_of net.now)) }
    ensures table { IfOk result (IsTableOf (netlist_of net.now)) }
    ensures refused { IfErr result (IsCauseIn (netlist_of net.now)) }
{
    let ports = judge(alloc, net)?;
    Ok(ports.into_table(alloc)?)
}

/// The ports of a netlist that keeps the rules N1 to N5; else the first rule that is broken.
fn judge(alloc: Global, net: &Net) -> Result<Ports, NetEnd>
    requires { HasNumbers net.now }
    ensures judged { Tells result (first_broken (ports_of (netlist_of net.now)) [] [] 1 (lines_of (netlist_of net.now))) }
    ensures ports { IfOk result (λ ports. ports ≡ ports_of (netlist_of net.now)) }
{
    let mut ports = Ports::new(alloc, &net.names);
    let mut cells = net.names.beside();
    let mut full = Vec::new(alloc);
    take_lines(&mut ports, &mut cells, &mut full, net)?;
    Ok(ports)
}

/// Judges all lines, and puts the ports and the names of the cells last where they keep the rules.
fn take_lines(
    ports: &mut Ports,
    cells: &mut Names,
    full: &mut Vec<u8>,
    net: &Net,
) -> Result<(), NetEnd>
    requires numbered { HasNumbers net.now }
    requires no_ports { ports.old ≡ [] }
    requires no_cells { cells.old ≡ [] }
    ensures judged { Tells result (first_broken (ports_of (netlist_of net.now)) [] [] 1 (lines_of (netlist_of net.now))) }
    ensures ports { OnOk result (ports.new ≡ ports_of (netlist_of net.now)) }
{
    take_own(ports, net)?;
    let first_cell = 1 + ports.len() as u64;
    take_cells(ports, cells, full, &net.names, &net.cells, first_cell)?;
    let first_set = first_cell + cells.len() as u64;
    check_sets(ports, &net.names, &net.sets, first_set)
}

/// Judges the lines `in`, `out` and `wire`, each of which makes one port, and puts the ports last where
/// they keep the rules.
fn take_own(ports: &mut Ports, net: &Net) -> Result<(), NetEnd>
    requires numbered { HasNumbers net.now }
    requires no_ports { ports.old ≡ [] }
    ensures judged { (all : List PortLine) → Tells result (first_broken all [] [] 1 (own_part net.now)) }
    ensures ports { OnOk result (ports.new ≡ flat_map ports_at (own_part net.now)) }
{
    take_pins(ports, &net.names, &net.ins, Side::In, 1)?;
    let first_out = 1 + ports.len() as u64;
    take_pins(ports, &net.names, &net.outs, Side::Out, first_out)?;
    let first_wire = 1 + ports.len() as u64;
    take_pins(ports, &net.names, &net.wires, Side::Wire, first_wire)
}
