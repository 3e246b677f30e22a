//! Full names, and their numbers among the names of the netlist.
ghost use Rattle.std.specs.Prelude.{◌≡◌, [], ◌∷◌, ◌++◌, slice_get, Some, IfOk, OnOk, option_map};
ghost use Rattle.hw_names.specs.Name.{KeepsTexts, dot, port_at, text_of};
ghost use Rattle.cal_ast.specs.Numbers.{PortHasNumbers};
ghost use Rattle.net_flat.specs.inside.Placed.{port_text};

use cal_ast::CalPort;
use hw_bits::Memory;
use hw_names::{NameId, Names};
use hw_print::put;
use std::alloc::Global;

/// What full names below a cell begin with: what those of its instance begin with, the cell's name and a dot.
pub(crate) fn prefix_below(alloc: Global, prefix: &[u8], cell: &[u8]) -> Result<Vec<u8>, Memory>
    ensures { IfOk result (λ longer. longer.items ≡ prefix.now ++ cell.now ++ dot ∷ []) }
{
    let mut longer = Vec::from_slice(alloc, prefix)?;
    put(&mut longer, cell)?;
    put(&mut longer, b".")?;
    Ok(longer)
}

/// The number of a text; the end of all numbers is an end of memory.
pub(crate) fn number_of(names: &mut Names, text: &[u8]) -> Result<NameId, Memory>
    ensures text { IfOk result (λ id. slice_get names.new id.0 ≡ Some text.now) }
    ensures kept { KeepsTexts names.old names.new }
{
    if names.len() >= u32::MAX as usize {
        return Err(Memory);
    }
    names.intern(text)
}

/// The number of the full name.
pub(crate) fn name_at(
    alloc: Global,
    names: &mut Names,
    prefix: &[u8],
    name: &[u8],
) -> Result<NameId, Memory>
    ensures text { IfOk result (λ id. slice_get names.new id.0 ≡ Some (prefix.now ++ name.now)) }
    ensures kept { KeepsTexts names.old names.new }
{
    let mut text = Vec::from_slice(alloc, prefix)?;
    put(&mut text, name)?;
    number_of(names, &text)
}

/// Puts the name of a port last, as the component at a path names it.
fn put_port(text: &mut Vec<u8>, source: &Names, port: CalPort) -> Result<(), Memory>
    requires { PortHasNumbers source.now port }
    ensures { OnOk result (text.new.items ≡ text.old.items ++ port_at [] (option_map (text_of source.now) port.cell) (text_of source.now port.port)) }
{
    match port.cell {
        None => put(text, source.text(port.port)),
        Some(cell) => {
            put(text, source.text(cell))?;
            put(text, b".")?;
            put(text, source.text(port.port))
        }
    }
}

/// The number of the full name of a port.
pub(crate) fn port_at(
    alloc: Global,
    names: &mut Names,
    source: &Names,
    prefix: &[u8],
    port: CalPort,
) -> Result<NameId, Memory>
    requires { PortHasNumbers source.now port }
    ensures text { IfOk result (λ id. slice_get names.new id.0 ≡ Some (port_text source.now prefix.now port)) }
    ensures kept { KeepsTexts names.old names.new }
{
    let mut text = Vec::from_slice(alloc, prefix)?;
    put_port(&mut text, source, port)?;
    number_of(names, &text)
}
