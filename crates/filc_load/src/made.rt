//! A netlist that was made, and not read, ready to run.
ghost use Rattle.std.specs.Prelude.{◌≡◌, IfOk};
ghost use Rattle.net_core.specs.Graph.{HasNoLoop};
ghost use Rattle.net_core.specs.Netlist.{netlist_of};
ghost use Rattle.net_core.specs.Numbers.{HasNumbers};
ghost use Rattle.net_core.specs.Rules.{IsValid};
ghost use Rattle.net_core.specs.Table.{IsTableOf};
ghost use Rattle.net_sim.specs.PortOrder.{IsPortOrderOf};
ghost use Rattle.filc_load.specs.Built.{IsReady};

use crate::net_file::Built;
use hw_bits::Memory;
use net_core::{Net, NetEnd, Table, valid};
use net_sim::{OrderEnd, PortOrder, order};
use std::alloc::Global;

/// A netlist that keeps the rules, with its table and its order.
pub fn make_ready(alloc: Global, net: Net) -> Result<Built, Memory>
    requires valid { IsValid (netlist_of net) }
    requires no_loop { HasNoLoop (netlist_of net) }
    requires numbers { HasNumbers net }
    ensures ready { IfOk result IsReady }
    ensures net { IfOk result (λ built. built.net ≡ net) }
{
    let table = table_of(alloc, &net)?;
    let order = order_of(alloc, &net, &table)?;
    Ok(Built { net, table, order })
}

/// The table of a netlist that keeps N1 to N5.
pub fn table_of(alloc: Global, net: &Net) -> Result<Table, Memory>
    requires valid { IsValid (netlist_of net.now) }
    requires numbers { HasNumbers net.now }
    ensures { IfOk result (IsTableOf (netlist_of net.now)) }
{
    match valid(alloc, net) {
        Ok(table) => Ok(table),
        Err(NetEnd::Memory) => Err(Memory),
        Err(NetEnd::Refused { .. }) => unreachable!(),
    }
}

/// The order of the ports of a netlist without loops.
fn order_of(alloc: Global, net: &Net, table: &Table) -> Result<PortOrder, Memory>
    requires valid { IsValid (netlist_of net.now) }
    requires no_loop { HasNoLoop (netlist_of net.now) }
    requires numbers { HasNumbers net.now }
    requires table { IsTableOf (netlist_of net.now) table.now }
    ensures { IfOk result (IsPortOrderOf (netlist_of net.now)) }
{
    match order(alloc, net, table) {
        Ok(order) => Ok(order),
        Err(OrderEnd::Memory) => Err(Memory),
        Err(OrderEnd::Loop { .. }) => unreachable!(),
    }
}
