//! The cells of a netlist: the lines `cell` and `ext`.
ghost use Rattle.std.specs.Prelude.{◌≡◌, ◌+◌, ◌^◌, ◌<◌, [], ◌∷◌, ◌++◌, List, true, Ok, length, map, flat_map, All, IsSome, IfOk, OnOk};
ghost use Rattle.hw_names.specs.Name.{AreDistinct, dotted};
ghost use Rattle.hw_prims.specs.Table.{IsMade, pins_of, pin_names};
ghost use Rattle.net_core.specs.Judging.{cell_lines, first_broken, Tells, made_fault};
ghost use Rattle.net_core.specs.Netlist.{CellOf, cell_of};
ghost use Rattle.net_core.specs.Numbers.{CellHasNumbers};
ghost use Rattle.net_core.specs.PortList.{cell_ports, full_names, IsNamedAs};
ghost use Rattle.net_core.specs.Rules.{PortLine, ports_at, ports_from, cell_names_at, port_names, are_new};

use crate::net::NetCell;
use crate::ports::{Port, Ports, add_name};
use crate::rules::NetEnd;
use hw_bits::Memory;
use hw_names::Names;
use hw_prims::{Prim, PrimEnd, input_names, is_memory, output_names};

/// Writes the full name of a cell's port.
fn join(full: &mut Vec<u8>, cell: &[u8], pin: &str) -> Result<(), Memory>
    ensures { OnOk result (full.new.items ≡ dotted cell.now pin.now) }
{
    full.clear();
    full.extend_from_slice(cell)?;
    full.push(b'.')?;
    full.extend_from_slice(pin.as_bytes())?;
    Ok(())
}

/// Puts the ports of a cell last, unless the name of one is there already; says whether all were new.
fn add_cell_ports(
    ports: &mut Ports,
    full: &mut Vec<u8>,
    cell: &[u8],
    prim: Prim,
) -> Result<bool, Memory>
    requires made { IsMade prim }
    requires distinct { AreDistinct (pin_names (pins_of prim)) }
    requires few { length (pins_of prim) < 2 ^ 64 }
    ensures new { IfOk result (λ new. new ≡ are_new (port_names ports.old) (port_names (cell_ports prim cell.now))) }
    ensures added { result ≡ Ok true → ports.new ≡ ports.old ++ cell_ports prim cell.now }
{
    let inputs = prim.inputs();
    let mut i = 0;
    while let Some(pin) = prim.port(i) {
        join(full, cell, pin.name)?;
        let is_input = i < inputs;
        let port = Port {
            width: pin.width,
            readable: !is_input,
            writable: is_input,
        };
        if !ports.add(full.as_slice(), port)? {
            return Ok(false);
        }
        i += 1;
    }
    Ok(true)
}

/// Whether no port has the name of one of these pins of a cell.
fn are_new_pins(
    ports: &Ports,
    full: &mut Vec<u8>,
    cell: &[u8],
    pins: &[&str],
) -> Result<bool, Memory>
    ensures { IfOk result (λ new. new ≡ are_new (port_names ports.now) (full_names cell.now (map (λ pin. pin.now) pins.now))) }
{
    for pin in pins {
        join(full, cell, pin)?;
        if ports.find(full.as_slice()).is_some() {
            return Ok(false);
        }
    }
    Ok(true)
}

/// Puts the ports of a cell last, unless the name of one is there already; says whether all were new.
/// Where no primitive was made, the names are those that the primitive's ports would have, and none is put.
fn take_ports(
    ports: &mut Ports,
    full: &mut Vec<u8>,
    cell: &[u8],
    prim_name: &[u8],
    made: Option<Prim>,
) -> Result<bool, Memory>
    requires { IsNamedAs prim_name.now made }
    ensures new { IfOk result (λ new. new ≡ are_new (port_names ports.old) (port_names (ports_from made cell.now prim_name.now))) }
    ensures added { result ≡ Ok true → IsSome made → ports.new ≡ ports.old ++ ports_from made cell.now prim_name.now }
{
    match made {
        Some(prim) => add_cell_ports(ports, full, cell, prim),
        None => {
            let new_inputs = are_new_pins(ports, full, cell, input_names(prim_name))?;
            let new_outputs = are_new_pins(ports, full, cell, output_names(prim_name))?;
            Ok(new_inputs && new_outputs)
        }
    }
}

/// The rule that a cell with new names breaks by its primitive and its parameters.
fn parameter_fault(made: Result<Prim, PrimEnd>, shown: bool, memory: bool) -> Option<u8>
    ensures { result ≡ made_fault made shown memory }
{
    match made {
        Err(PrimEnd::UnknownPrim) => Some(2),
        Err(PrimEnd::BadParams) => Some(5),
        Ok(_) => { if shown && !memory { Some(5) } else { None } }
    }
}

/// Judges a cell's line by N1, N2 and N5, and puts its ports and its name last where they hold.
fn take_cell(
    ports: &mut Ports,
    cells: &mut Names,
    full: &mut Vec<u8>,
    names: &Names,
    cell: &NetCell,
    item: u64,
) -> Result<(), NetEnd>
    requires { CellHasNumbers names.now cell.now }
    ensures judged { (all : List PortLine)
        → Tells result (first_broken all ports.old cells.old item (CellOf (cell_of names.now cell.now) ∷ [])) }
    ensures added { OnOk result (ports.new ≡ ports.old ++ ports_at (CellOf (cell_of names.now cell.now))) }
    ensures named { OnOk result (cells.new ≡ cells.old ++ cell_names_at (CellOf (cell_of names.now cell.now))) }
{
    let cell_name = names.text(cell.name);
    let prim_name = names.text(cell.prim);
    let made = Prim::make(prim_name, cell.params.as_slice());
    if !add_name(cells, cell_name)? {
        return Err(NetEnd::Refused { rule: 1, item });
    }
    if !take_ports(ports, full, cell_name, prim_name, made.ok())? {
        return Err(NetEnd::Refused { rule: 1, item });
    }
    match parameter_fault(made, cell.shown, is_memory(prim_name)) {
        Some(rule) => Err(NetEnd::Refused { rule, item }),
        None => Ok(()),
    }
}

/// Judges the lines of cells by N1, N2 and N5, and puts their ports and names last where they hold. The
/// first of these lines has the item `first`.
pub fn take_cells(
    ports: &mut Ports,
    cells: &mut Names,
    full: &mut Vec<u8>,
    names: &Names,
    list: &[NetCell],
    first: u64,
) -> Result<(), NetEnd>
    requires numbered { All (CellHasNumbers names.now) list.now }
    requires counted { first + length list.now < 2 ^ 64 }
    ensures judged { (all : List PortLine)
        → Tells result (first_broken all ports.old cells.old first (cell_lines names.now list.now)) }
    ensures added { OnOk result (ports.new ≡ ports.old ++ flat_map ports_at (cell_lines names.now list.now)) }
    ensures named { OnOk result (cells.new ≡ cells.old ++ flat_map cell_names_at (cell_lines names.now list.now)) }
{
    let mut item = first;
    for cell in list {
        take_cell(ports, cells, full, names, cell, item)?;
        item += 1;
    }
    Ok(())
}
