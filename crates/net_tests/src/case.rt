//! Netlists of texts, and the names of their ports.
ghost use Rattle.std.specs.Prelude.{IfOk};
ghost use Rattle.net_core.specs.Numbers.{HasNumbers};

use hw_names::NameId;
use net_core::{Net, Table};
use net_text::read_net;
use std::alloc::{AllocError, Global};
use std::test::Fail;

/// The netlist that a text spells.
pub(crate) fn net_of(alloc: Global, text: &str) -> Result<Net, Fail>
    ensures { IfOk result HasNumbers }
{
    if text.len() > 1_000_000 {
        return Err("a text of a megabyte".into());
    }
    Ok(read_net(alloc, text.as_bytes())?)
}

/// The text of a netlist `main` with these lines.
pub(crate) fn text_of(alloc: Global, lines: &str) -> Result<String, AllocError> {
    format!(in alloc; "net main\n{lines}\nend\n")
}

/// The name of a port.
pub(crate) fn name_of(table: &Table, port: usize) -> Result<&str, Fail> {
    if port >= table.names.len() {
        return Err("no such port".into());
    }
    Ok(str::from_utf8(table.names.text(NameId(port as u32)))?)
}
