//! Texts, numbers and names at the end of a text.
ghost use Rattle.std.specs.Prelude.{◌≡◌, ◌++◌, List, OnOk};
ghost use Rattle.hw_names.specs.Name.{Text, text_of};
ghost use Rattle.net_core.specs.Guard.{source_tree};
ghost use Rattle.net_core.specs.Numbers.{IsNumberOf, SourceHasNumbers};
ghost use Rattle.ver_print.specs.Values.{source_gap, source_text};
ghost use Rattle.ver_print.specs.Words.{escaped, gap, literal, range};

use hw_bits::Memory;
use hw_names::{NameId, Names};
use hw_print::{put, put_number};
use net_core::Src;

/// A name, escaped.
pub(crate) fn put_escaped(out: &mut Vec<u8>, name: &[u8]) -> Result<(), Memory>
    ensures { OnOk result (out.new.items ≡ out.old.items ++ escaped name.now) }
{
    put(out, b"\\")?;
    put(out, name)?;
    put(out, b" ")
}

/// What stands between an operand and the mark after it: a name has a space of its own.
pub(crate) fn gap_after(is_name: bool) -> &'static [u8]
    ensures { result.now ≡ gap is_name }
{
    if is_name { b"" } else { b" " }
}

/// The bits of a width.
pub(crate) fn put_range(out: &mut Vec<u8>, width: u128) -> Result<(), Memory>
    ensures { OnOk result (out.new.items ≡ out.old.items ++ range width) }
{
    put(out, b"[")?;
    put_number(out, width.saturating_sub(1))?;
    put(out, b":0]")
}

pub(crate) fn put_literal(out: &mut Vec<u8>, width: u128, value: u128) -> Result<(), Memory>
    ensures { OnOk result (out.new.items ≡ out.old.items ++ literal width value) }
{
    put_number(out, width)?;
    put(out, b"'d")?;
    put_number(out, value)
}

/// What stands between a source and the mark after it.
pub(crate) fn source_gap_of(source: Src<NameId>) -> &'static [u8]
    ensures { (names : List Text) → result.now ≡ source_gap (source_tree (text_of names) source) }
{
    match source {
        Src::Port(_) => b"",
        Src::Lit { .. } => b" ",
    }
}

pub(crate) fn put_source(
    out: &mut Vec<u8>,
    names: &Names,
    source: Src<NameId>,
) -> Result<(), Memory>
    requires { SourceHasNumbers names.now source }
    ensures { OnOk result (out.new.items ≡ out.old.items ++ source_text (source_tree (text_of names.now) source)) }
{
    match source {
        Src::Port(name) => put_escaped(out, names.text(name)),
        Src::Lit { width, value } => put_literal(out, width, value),
    }
}
