//! Ports and sources.
ghost use Rattle.std.specs.Prelude.{◌≡◌, ◌++◌, option_map, IfSome, OnOk};
ghost use Rattle.hw_names.specs.Name.{text_of};
ghost use Rattle.net_core.specs.Guard.{source_tree};
ghost use Rattle.net_core.specs.Numbers.{IsNumberOf};
ghost use Rattle.cal_ast.specs.Numbers.{PortHasNumbers, SourceHasNumbers};
ghost use Rattle.cal_ast.specs.Tree.{port_tree};
ghost use Rattle.cal_print.specs.Layout.{cell_part, port_text, source_text};

use cal_ast::CalPort;
use hw_bits::Memory;
use hw_names::{NameId, Names};
use hw_print::{put, put_name, put_number};
use net_core::Src;

/// The cell of a port and a dot; nothing where the port is the component's own.
fn put_cell_part(out: &mut Vec<u8>, names: &Names, cell: Option<NameId>) -> Result<(), Memory>
    requires { IfSome cell (IsNumberOf names.now) }
    ensures { OnOk result (out.new.items ≡ out.old.items ++ cell_part (option_map (text_of names.now) cell)) }
{
    match cell {
        None => Ok(()),
        Some(cell) => {
            put_name(out, names, cell)?;
            put(out, b".")
        }
    }
}

pub(crate) fn put_port(out: &mut Vec<u8>, names: &Names, port: CalPort) -> Result<(), Memory>
    requires { PortHasNumbers names.now port }
    ensures { OnOk result (out.new.items ≡ out.old.items ++ port_text (port_tree names.now port)) }
{
    put_cell_part(out, names, port.cell)?;
    put_name(out, names, port.port)
}

pub(crate) fn put_source(
    out: &mut Vec<u8>,
    names: &Names,
    source: Src<CalPort>,
) -> Result<(), Memory>
    requires { SourceHasNumbers names.now source }
    ensures { OnOk result (out.new.items ≡ out.old.items ++ source_text (source_tree (port_tree names.now) source)) }
{
    match source {
        Src::Port(port) => put_port(out, names, port),
        Src::Lit { width, value } => {
            put_number(out, width)?;
            put(out, b"'d")?;
            put_number(out, value)
        }
    }
}
