//! The ports of a table by their numbers.
ghost use Rattle.std.specs.Prelude.{◌≡◌, ◌<◌, length, slice_get, Some};
ghost use Rattle.filc_load.specs.Slots.{NumbersPortsAsNames};

use net_core::Table;

/// The name of a port.
pub fn name_of(table: &Table, port: usize) -> &[u8]
    requires named { port < length table.now.names }
    requires numbers { NumbersPortsAsNames table.now }
    ensures { slice_get table.now.names port ≡ Some result.now }
{
    table.names.text(table.ports[port].name)
}
