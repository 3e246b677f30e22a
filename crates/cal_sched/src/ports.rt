//! The numbers of the ports that lines of a component name, among the ports of a netlist.
ghost use Rattle.std.specs.Prelude.{◌≡◌, [], slice_get, Some, Contains, IfOk};
ghost use Rattle.hw_names.specs.Name.{port_at};
ghost use Rattle.cal_ast.specs.Numbers.{PortHasNumbers};
ghost use Rattle.cal_sched.specs.Watching.{top_port};

use cal_ast::CalPort;
use hw_bits::Memory;
use hw_names::Names;
use std::alloc::Global;

/// The number of the port of this name.
pub(crate) fn number_of(ports: &Names, name: &[u8]) -> Result<usize, Memory>
    requires { Contains ports.now name.now }
    ensures { IfOk result (λ number. slice_get ports.now number ≡ Some name.now) }
{
    match ports.find(name) {
        Some(id) => Ok(id.0 as usize),
        None => unreachable!(),
    }
}

/// The full name of a port of the top's cell.
pub(crate) fn cell_port(alloc: Global, cell: &[u8], port: &[u8]) -> Result<Vec<u8>, Memory>
    ensures { IfOk result (λ name. name.items ≡ port_at [] (Some cell.now) port.now) }
{
    let mut name = Vec::from_slice(alloc, cell)?;
    name.extend_from_slice(b".")?;
    name.extend_from_slice(port)?;
    Ok(name)
}

/// The number of the port that a line of the top names.
pub(crate) fn number_at(
    alloc: Global,
    names: &Names,
    ports: &Names,
    port: CalPort,
) -> Result<usize, Memory>
    requires numbers { PortHasNumbers names.now port }
    requires there { Contains ports.now (top_port names.now port) }
    ensures { IfOk result (λ number. slice_get ports.now number ≡ Some (top_port names.now port)) }
{
    let own = names.text(port.port);
    match port.cell {
        None => number_of(ports, own),
        Some(cell) => number_of(ports, &cell_port(alloc, names.text(cell), own)?),
    }
}
