//! A netlist as a Verilog module.
ghost use Rattle.std.specs.Prelude.{◌≡◌, IfOk};
ghost use Rattle.net_core.specs.Netlist.{netlist_of};
ghost use Rattle.net_core.specs.Numbers.{HasNumbers};
ghost use Rattle.net_core.specs.Table.{IsTableOf};
ghost use Rattle.ver_print.specs.Verilog.{verilog_text};

use crate::cells::put_cells;
use crate::drives::put_drives;
use crate::ports::{put_ports, put_wires};
use crate::put::put_escaped;
use hw_bits::Memory;
use hw_print::put;
use net_core::{Net, Table};
use std::alloc::Global;

/// The Verilog text of the netlist with this table: one module with its name and its ports, and a clock `\$clk ` before them.
pub fn print_verilog(alloc: Global, net: &Net, table: &Table) -> Result<Vec<u8>, Memory>
    requires numbers { HasNumbers net.now }
    requires table { IsTableOf (netlist_of net.now) table.now }
    ensures { IfOk result (λ text. text.items ≡ verilog_text (netlist_of net.now)) }
{
    let mut out = Vec::new(alloc);
    put(&mut out, b"module ")?;
    put_escaped(&mut out, net.names.text(net.name))?;
    put(&mut out, b"(\n")?;
    put_ports(&mut out, net)?;
    put(&mut out, b");\n")?;
    put_wires(&mut out, net, table)?;
    put_cells(&mut out, &net.names, &net.cells)?;
    put_drives(alloc, &mut out, net, table)?;
    put(&mut out, b"endmodule\n")?;
    Ok(out)
}
