//! What drives each port.
ghost use Rattle.std.specs.Prelude.{◌≡◌, ℕ, ◌++◌, ◌<◌, All, codes, filter, flat_map, length, map, IfOk, OnOk};
ghost use Rattle.hw_names.specs.Name.{Text, text_of};
ghost use Rattle.net_core.specs.Guard.{guard_option, source_tree};
ghost use Rattle.net_core.specs.Netlist.{netlist_of, set_of};
ghost use Rattle.net_core.specs.Numbers.{HasNumbers, SetHasNumbers};
ghost use Rattle.net_core.specs.Rules.{PortLine, ports_of};
ghost use Rattle.net_core.specs.Table.{IsTableOf};
ghost use Rattle.ver_print.specs.inside.Drivers.{AreDrivers, entries_of, picked};
ghost use Rattle.ver_print.specs.inside.Putting.{PutsGuarded};
ghost use Rattle.ver_print.specs.Values.{drive_line, drives_text, guard_text, sets_to, source_text, value_text};
ghost use Rattle.ver_print.specs.Words.{zeros};

use crate::guards::put_guard;
use crate::put::{put_escaped, put_source, source_gap_of};
use crate::sides::writable_ports;
use hw_bits::Memory;
use hw_graph::{Entry, Groups, gather};
use hw_names::Names;
use hw_print::{put, put_number};
use net_core::{Net, NetAssign, Table};
use std::alloc::Global;

/// The number of each assignment, by the name that it drives.
fn entries(alloc: Global, sets: &[NetAssign]) -> Result<Vec<Entry>, Memory>
    ensures { IfOk result (λ entries. entries.items ≡ entries_of 0 sets.now) }
{
    let mut entries = Vec::with_capacity(alloc, sets.len())?;
    for (number, set) in sets.iter().enumerate() {
        entries.push(Entry {
            key: set.dst.0 as usize,
            value: number,
        })?;
    }
    Ok(entries)
}

/// The numbers of the assignments of each name.
fn drivers(alloc: Global, net: &Net) -> Result<Groups, Memory>
    requires { HasNumbers net.now }
    ensures { IfOk result (AreDrivers net.now) }
{
    let entries = entries(alloc, &net.sets)?;
    gather(alloc, &entries, net.names.len())
}

/// The numbers of the assignments of a port; none where no assignment names it.
fn drivers_of<'a>(net: &Net, drivers: &'a Groups, port: &[u8]) -> &'a [usize]
    requires numbers { HasNumbers net.now }
    requires drivers { AreDrivers net.now drivers.now }
    ensures within { All (λ number. number < length net.now.sets.items) result.now }
    ensures all { map (set_of net.now.names) (picked net.now.sets.items result.now) ≡ sets_to port.now (netlist_of net.now).sets }
{
    match net.names.find(port) {
        Some(id) => drivers.get(id.0 as usize),
        None => &[],
    }
}

/// An assignment's part of a value; says whether others follow it, where its guard is false.
fn put_guarded(out: &mut Vec<u8>, names: &Names, set: &NetAssign) -> Result<bool, Memory>
    requires { SetHasNumbers names.now set.now }
    ensures { IfOk result (λ guarded. PutsGuarded out.old.items out.new.items guarded (set_of names.now set.now)) }
{
    match &set.guard {
        None => {
            put_source(out, names, set.src)?;
            Ok(false)
        }
        Some(guard) => {
            put(out, b"(")?;
            put_guard(out, names, guard)?;
            put(out, b") ? ")?;
            put_source(out, names, set.src)?;
            put(out, source_gap_of(set.src))?;
            put(out, b": ")?;
            Ok(true)
        }
    }
}

/// The value of a port with these assignments: that of the first whose guard is true, else 0.
fn put_value(out: &mut Vec<u8>, net: &Net, numbers: &[usize], width: u8) -> Result<(), Memory>
    requires numbers { HasNumbers net.now }
    requires within { All (λ number. number < length net.now.sets.items) numbers.now }
    ensures { OnOk result (out.new.items ≡ out.old.items ++ value_text width (map (set_of net.now.names) (picked net.now.sets.items numbers.now))) }
{
    for number in numbers {
        let guarded = put_guarded(out, &net.names, &net.sets[*number])?;
        if !guarded {
            return Ok(());
        }
    }
    put_number(out, width as u128)?;
    put(out, b"'d0")
}

fn put_drive(
    out: &mut Vec<u8>,
    net: &Net,
    drivers: &Groups,
    port: &[u8],
    width: u8,
) -> Result<(), Memory>
    requires numbers { HasNumbers net.now }
    requires drivers { AreDrivers net.now drivers.now }
    ensures { (p : PortLine) → p.name ≡ port.now → p.width ≡ width
        → OnOk result (out.new.items ≡ out.old.items ++ drive_line (netlist_of net.now).sets p) }
{
    put(out, b"  assign ")?;
    put_escaped(out, port)?;
    put(out, b"= ")?;
    put_value(out, net, drivers_of(net, drivers, port), width)?;
    put(out, b";\n")
}

/// A line for each port that assignments may drive.
fn put_driven(
    out: &mut Vec<u8>,
    net: &Net,
    table: &Table,
    drivers: &Groups,
    writable: &[bool],
) -> Result<(), Memory>
    requires numbers { HasNumbers net.now }
    requires drivers { AreDrivers net.now drivers.now }
    requires table { IsTableOf (netlist_of net.now) table.now }
    requires writable { writable.now ≡ map (λ (p : PortLine). p.writable) (ports_of (netlist_of net.now)) }
    ensures { OnOk result (out.new.items ≡ out.old.items ++ drives_text (netlist_of net.now)) }
{
    for (number, info) in table.ports.iter().enumerate() {
        if writable[number] {
            put_drive(out, net, drivers, table.names.text(info.name), info.width)?;
        }
    }
    Ok(())
}

/// A line for each port that assignments may drive, in the order of the table.
pub(crate) fn put_drives(
    alloc: Global,
    out: &mut Vec<u8>,
    net: &Net,
    table: &Table,
) -> Result<(), Memory>
    requires numbers { HasNumbers net.now }
    requires table { IsTableOf (netlist_of net.now) table.now }
    ensures { OnOk result (out.new.items ≡ out.old.items ++ drives_text (netlist_of net.now)) }
{
    let drivers = drivers(alloc, net)?;
    let writable = writable_ports(alloc, net)?;
    put_driven(out, net, table, &drivers, &writable)
}
