//! The order in which a netlist's ports are evaluated.
ghost use Rattle.std.specs.Prelude.{◌≡◌, ◌<◌, length, slice_get, Some, IfOk};
ghost use Rattle.net_core.specs.Netlist.{netlist_of};
ghost use Rattle.net_core.specs.Numbers.{HasNumbers};
ghost use Rattle.net_core.specs.Rules.{IsValid};
ghost use Rattle.net_core.specs.Table.{IsTableOf};
ghost use Rattle.net_sim.specs.inside.Destinations.{AreDestinations};
ghost use Rattle.net_sim.specs.Layout.{port_names};
ghost use Rattle.hw_graph.specs.Loop.{IfLoop};
ghost use Rattle.net_sim.specs.Order.{IsLeastLoopOf};
ghost use Rattle.net_sim.specs.PortOrder.{IsPortOrderOf};

use crate::cells::cell_ports;
use crate::wires::{find_port, net_reads};
use hw_bits::Memory;
use hw_graph::{Entry, Groups, OrderEnd, gather, order_or_least_loop};
use net_core::{Net, Table};
use std::alloc::Global;
use std::marker::Model;

/// The ports of a netlist, each after all that it reads within a row, and the assignments to each.
#[derive(Drop)]
pub struct PortOrder {
    ports: Vec<usize>,
    sets: Groups,
}

impl Model for PortOrder {
    ghost use Rattle.net_sim.specs.OrderValue.{OrderValue};

    ghost Value = { OrderValue };

    ghost view = { λ o. record { ports = o.ports.items; sets = o.sets } };
}

/// The order of the ports of a netlist with this table. Where it has a loop there is none, and the end
/// tells the least loop: the one that starts with the least port, by the bytes of its name, that lies on any.
pub fn order(alloc: Global, net: &Net, table: &Table) -> Result<PortOrder, OrderEnd>
    requires valid { IsValid (netlist_of net.now) }
    requires numbers { HasNumbers net.now }
    requires table { IsTableOf (netlist_of net.now) table.now }
    ensures order { IfOk result (IsPortOrderOf (netlist_of net.now)) }
    ensures cycle { IfLoop result (IsLeastLoopOf (netlist_of net.now)) }
{
    let count = table.names.len();
    let cells = cell_ports(alloc, net, count)?;
    let entries = net_reads(alloc, net, table, cells.as_slice())?;
    let reads = gather(alloc, entries.as_slice(), count)?;
    let ports = order_or_least_loop(alloc, &reads, &table.names)?;
    let destinations = destinations(alloc, net, table)?;
    let sets = gather(alloc, destinations.as_slice(), count)?;
    Ok(PortOrder { ports, sets })
}

/// The number of each assignment by the port that it drives.
fn destinations(alloc: Global, net: &Net, table: &Table) -> Result<Vec<Entry>, Memory>
    requires valid { IsValid (netlist_of net.now) }
    requires numbers { HasNumbers net.now }
    requires table { IsTableOf (netlist_of net.now) table.now }
    ensures { IfOk result
        (λ entries. AreDestinations (port_names (netlist_of net.now)) 0 entries.items (netlist_of net.now).sets) }
{
    let mut entries = Vec::new(alloc);
    for (number, set) in net.sets.iter().enumerate() {
        let key = find_port(&table.names, &net.names, set.dst);
        entries.push(Entry { key, value: number })?;
    }
    Ok(entries)
}

impl PortOrder {
    /// The numbers of the ports, each once, after all ports that it reads within a row.
    pub fn ports(&self) -> &[usize]
        ensures { result.now ≡ self.now.ports }
    {
        self.ports.as_slice()
    }

    /// The numbers of the assignments to the port, counted from 0, in the order of the netlist.
    pub fn sets(&self, port: usize) -> &[usize]
        requires { port < length self.now.sets }
        ensures { slice_get self.now.sets port ≡ Some result.now }
    {
        self.sets.get(port)
    }
}
