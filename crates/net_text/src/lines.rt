//! Lines of a netlist's text, each read by itself.
ghost use Rattle.std.specs.Prelude.{◌≡◌, ℕ, ◌+◌, ◌<◌, ◌≤◌, length, Some, IfOk, List, [], codes, option_map, option_and_then};
ghost use Rattle.hw_names.specs.Name.{Text, text_of};
ghost use Rattle.hw_prims.specs.Table.{Pin};
ghost use Rattle.net_core.specs.Guard.{source_tree, guard_tree, guard_option};
ghost use Rattle.net_core.specs.Netlist.{pin_of, cell_of, set_of};
ghost use Rattle.net_text.specs.Names.{is_segment, is_path};
ghost use Rattle.net_text.specs.inside.ReadResults.{GivesNamed, Gives, Grows, HasRoom};
ghost use Rattle.net_text.specs.inside.ReadLines.{pin_from, pin_of_text, param_at, params_of_text, cell_of_text, guarded_of_text, value_from, value_of_text, set_of_text, line_of_text};
ghost use Rattle.net_text.specs.inside.ReadWords.{source_at, literal_at};
ghost use Rattle.net_text.specs.inside.View.{line_of};

use crate::guards::guard;
use crate::line_end::LineEnd;
use crate::words::{after, expect, is_path, number, path, segment, whole_number, word};
use hw_names::{NameId, Names};
use net_core::{Guard, NetAssign, NetCell, NetPort, Src};
use std::alloc::Global;

/// A line between the first and the last.
#[derive(Drop)]
pub enum NetLine {
    In(NetPort),
    Out(NetPort),
    Wire(NetPort),
    Cell(NetCell),
    Set(NetAssign),
}

/// The number of a name.
pub fn numbered(names: &mut Names, name: &[u8]) -> Result<NameId, LineEnd>
    requires some { 0 < length name.now }
    requires room { HasRoom names.old name.now }
    ensures read { GivesNamed names.new text_of result (Some name.now) }
    ensures grows { IfOk result (λ _. Grows names.old names.new name.now []) }
{
    Ok(names.intern(name)?)
}

/// The port of this name, from the space before its width on.
#[tactic(auto, unfolding(crate::specs::inside::ReadLines::pin_from))]
fn port_from(names: &mut Names, name: &[u8], text: &[u8]) -> Result<NetPort, LineEnd>
    requires some { 0 < length name.now }
    requires room { HasRoom names.old name.now }
    ensures read { GivesNamed names.new pin_of result (pin_from name.now text.now) }
    ensures grows { IfOk result (λ _. Grows names.old names.new name.now []) }
{
    let width = whole_number(expect(text, b" ")?)?;
    let name = numbered(names, name)?;
    Ok(NetPort { name, width })
}

/// An input or an output, after its keyword.
#[tactic(auto, unfolding(crate::specs::inside::ReadLines::pin_of_text))]
fn own_port(names: &mut Names, text: &[u8]) -> Result<NetPort, LineEnd>
    requires { HasRoom names.old text.now }
    ensures read { GivesNamed names.new pin_of result (pin_of_text is_segment text.now) }
    ensures grows { IfOk result (λ _. Grows names.old names.new text.now []) }
{
    let (name, rest) = segment(text)?;
    port_from(names, name, rest)
}

/// A wire, after its keyword.
#[tactic(auto, unfolding(crate::specs::inside::ReadLines::pin_of_text))]
fn wire(names: &mut Names, text: &[u8]) -> Result<NetPort, LineEnd>
    requires { HasRoom names.old text.now }
    ensures read { GivesNamed names.new pin_of result (pin_of_text is_path text.now) }
    ensures grows { IfOk result (λ _. Grows names.old names.new text.now []) }
{
    let (name, rest) = path(text)?;
    port_from(names, name, rest)
}

/// A parameter, from the space before it on, and what follows.
#[tactic(auto, unfolding(crate::specs::inside::ReadLines::param_at))]
fn param(text: &[u8]) -> Result<(u128, &[u8]), LineEnd>
    ensures read { Gives (λ x. (x.0, x.1.now)) result (param_at text.now) }
    ensures length { IfOk result (λ x. length x.1.now < length text.now) }
{
    number(expect(text, b" ")?)
}

/// Parameters up to the end.
fn params(alloc: Global, text: &[u8]) -> Result<Vec<u128>, LineEnd>
    ensures { Gives (λ x. x.items) result (params_of_text (length text.now) text.now) }
{
    let mut params = Vec::new(alloc);
    let mut rest = text;
    while !rest.is_empty() {
        let (number, after) = param(rest)?;
        params.push(number)?;
        rest = after;
    }
    Ok(params)
}

/// A cell, after its keyword.
#[tactic(auto, unfolding(crate::specs::inside::ReadLines::cell_of_text))]
fn cell(alloc: Global, names: &mut Names, shown: bool, text: &[u8]) -> Result<NetCell, LineEnd>
    requires { HasRoom names.old text.now }
    ensures read { GivesNamed names.new cell_of result (cell_of_text shown text.now) }
    ensures grows { IfOk result (λ _. Grows names.old names.new text.now []) }
{
    let (name, rest) = path(text)?;
    let (prim, rest) = segment(expect(rest, b" ")?)?;
    let params = params(alloc, rest)?;
    let name = numbered(names, name)?;
    let prim = numbered(names, prim)?;
    Ok(NetCell {
        name,
        prim,
        params,
        shown,
    })
}

/// A literal at the front, and what follows.
#[tactic(auto, unfolding(crate::specs::inside::ReadWords::literal_at))]
fn literal(text: &[u8]) -> Result<(Src<NameId>, &[u8]), LineEnd>
    ensures read { GivesNamed [] (λ names x. (source_tree (text_of names) x.0, x.1.now)) result (literal_at text.now) }
    ensures length { IfOk result (λ x. length x.1.now ≤ length text.now) }
{
    let (width, rest) = number(text)?;
    let (value, rest) = number(expect(rest, b"'d")?)?;
    Ok((Src::Lit { width, value }, rest))
}

/// A source at the front, and what follows.
#[tactic(auto, unfolding(crate::specs::inside::ReadWords::source_at))]
pub fn source<'a>(names: &mut Names, text: &'a [u8]) -> Result<(Src<NameId>, &'a [u8]), LineEnd>
    requires { HasRoom names.old text.now }
    ensures read { GivesNamed names.new (λ names x. (source_tree (text_of names) x.0, x.1.now)) result (source_at text.now) }
    ensures grows { IfOk result (λ x. Grows names.old names.new text.now x.1.now) }
{
    let (name, rest) = word(text);
    if is_path(name) {
        Ok((Src::Port(numbered(names, name)?), rest))
    } else {
        literal(text)
    }
}

/// The source that is taken where a guard is true, from what follows the guard on.
#[tactic(auto, unfolding(crate::specs::inside::ReadLines::guarded_of_text))]
fn guarded(names: &mut Names, text: &[u8]) -> Result<Src<NameId>, LineEnd>
    requires { HasRoom names.old text.now }
    ensures read { GivesNamed names.new (λ names x. source_tree (text_of names) x) result (guarded_of_text text.now) }
    ensures grows { IfOk result (λ _. Grows names.old names.new text.now []) }
{
    let (src, rest) = source(names, expect(text, b" ? ")?)?;
    if !rest.is_empty() {
        return Err(LineEnd::Grammar);
    }
    Ok(src)
}

/// A source that is taken at all times, where a guard is all that there is.
fn unguarded(guard: &Guard<NameId>) -> Result<(Option<Guard<NameId>>, Src<NameId>), LineEnd>
    ensures { (names : List Text) → Gives (λ x. (guard_option (text_of names) x.0, source_tree (text_of names) x.1)) result (value_from [] (guard_tree (text_of names) guard.now)) }
{
    match guard {
        Guard::Read(src) => Ok((None, **src)),
        _ => Err(LineEnd::Grammar),
    }
}

/// What an assignment takes and when, up to the end.
#[tactic(auto, unfolding(crate::specs::inside::ReadLines::value_of_text))]
fn value(
    alloc: Global,
    names: &mut Names,
    text: &[u8],
) -> Result<(Option<Guard<NameId>>, Src<NameId>), LineEnd>
    requires { HasRoom names.old text.now }
    ensures read { GivesNamed names.new (λ names x. (guard_option (text_of names) x.0, source_tree (text_of names) x.1)) result (value_of_text text.now) }
    ensures grows { IfOk result (λ _. Grows names.old names.new text.now []) }
{
    let (guard, rest) = guard(alloc, names, text)?;
    if rest.is_empty() {
        return unguarded(&guard);
    }
    let src = guarded(names, rest)?;
    Ok((Some(guard), src))
}

/// An assignment, after its keyword.
#[tactic(auto, unfolding(crate::specs::inside::ReadLines::set_of_text))]
fn set(alloc: Global, names: &mut Names, text: &[u8]) -> Result<NetAssign, LineEnd>
    requires { HasRoom names.old text.now }
    ensures read { GivesNamed names.new set_of result (set_of_text text.now) }
    ensures grows { IfOk result (λ _. Grows names.old names.new text.now []) }
{
    let (dst, rest) = path(text)?;
    let rest = expect(rest, b" = ")?;
    let dst = numbered(names, dst)?;
    let (guard, src) = value(alloc, names, rest)?;
    Ok(NetAssign { dst, guard, src })
}

/// A line without its line feed.
#[tactic(auto, unfolding(crate::specs::inside::ReadLines::line_of_text))]
pub fn line(alloc: Global, names: &mut Names, text: &[u8]) -> Result<NetLine, LineEnd>
    requires { HasRoom names.old text.now }
    ensures read { GivesNamed names.new line_of result (line_of_text text.now) }
    ensures grows { IfOk result (λ _. Grows names.old names.new text.now []) }
{
    if let Some(rest) = after(text, b"in ") {
        Ok(NetLine::In(own_port(names, rest)?))
    } else if let Some(rest) = after(text, b"out ") {
        Ok(NetLine::Out(own_port(names, rest)?))
    } else if let Some(rest) = after(text, b"wire ") {
        Ok(NetLine::Wire(wire(names, rest)?))
    } else if let Some(rest) = after(text, b"cell ") {
        Ok(NetLine::Cell(cell(alloc, names, false, rest)?))
    } else if let Some(rest) = after(text, b"ext ") {
        Ok(NetLine::Cell(cell(alloc, names, true, rest)?))
    } else if let Some(rest) = after(text, b"set ") {
        Ok(NetLine::Set(set(alloc, names, rest)?))
    } else {
        Err(LineEnd::Grammar)
    }
}
