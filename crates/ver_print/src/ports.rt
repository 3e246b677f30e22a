//! The ports of the module, and the wires inside it.
ghost use Rattle.std.specs.Prelude.{◌≡◌, ◌++◌, All, flat_map, OnOk};
ghost use Rattle.net_core.specs.Netlist.{netlist_of, pin_of};
ghost use Rattle.net_core.specs.Numbers.{HasNumbers, PortHasNumbers};
ghost use Rattle.net_core.specs.Rules.{PortLine};
ghost use Rattle.net_core.specs.Table.{IsTableOf};
ghost use Rattle.ver_print.specs.Ports.{port_text, ports_text, wire_line, wires_text};

use crate::put::{put_escaped, put_range};
use hw_bits::Memory;
use hw_names::Names;
use hw_print::put;
use net_core::{Net, NetPort, Table};

/// A port of the module, after another one.
fn put_port(out: &mut Vec<u8>, direction: &[u8], names: &Names, port: NetPort) -> Result<(), Memory>
    requires { PortHasNumbers names.now port }
    ensures { OnOk result (out.new.items ≡ out.old.items ++ port_text direction.now (pin_of names.now port)) }
{
    put(out, b",\n  ")?;
    put(out, direction)?;
    put(out, b" wire ")?;
    put_range(out, port.width)?;
    put(out, b" ")?;
    put_escaped(out, names.text(port.name))
}

fn put_port_list(
    out: &mut Vec<u8>,
    direction: &[u8],
    names: &Names,
    ports: &[NetPort],
) -> Result<(), Memory>
    requires { All (PortHasNumbers names.now) ports.now }
    ensures { OnOk result (out.new.items ≡ out.old.items ++ flat_map (λ p. port_text direction.now (pin_of names.now p)) ports.now) }
{
    for port in ports {
        put_port(out, direction, names, *port)?;
    }
    Ok(())
}

/// The ports of the module: the clock, the inputs, the outputs.
pub(crate) fn put_ports(out: &mut Vec<u8>, net: &Net) -> Result<(), Memory>
    requires { HasNumbers net.now }
    ensures { OnOk result (out.new.items ≡ out.old.items ++ ports_text (netlist_of net.now)) }
{
    put(out, b"  input wire \\$clk ")?;
    put_port_list(out, b"input", &net.names, &net.ins)?;
    put_port_list(out, b"output", &net.names, &net.outs)?;
    put(out, b"\n")
}

fn put_wire(out: &mut Vec<u8>, name: &[u8], width: u8) -> Result<(), Memory>
    ensures { (p : PortLine) → p.name ≡ name.now → p.width ≡ width → OnOk result (out.new.items ≡ out.old.items ++ wire_line p) }
{
    put(out, b"  wire ")?;
    put_range(out, width as u128)?;
    put(out, b" ")?;
    put_escaped(out, name)?;
    put(out, b";\n")
}

/// The wires: all ports of the table but those of the module.
pub(crate) fn put_wires(out: &mut Vec<u8>, net: &Net, table: &Table) -> Result<(), Memory>
    requires { IsTableOf (netlist_of net.now) table.now }
    ensures { OnOk result (out.new.items ≡ out.old.items ++ wires_text (netlist_of net.now)) }
{
    let first = net.ins.len() + net.outs.len();
    for (number, info) in table.ports.iter().enumerate() {
        if number >= first {
            put_wire(out, table.names.text(info.name), info.width)?;
        }
    }
    Ok(())
}
