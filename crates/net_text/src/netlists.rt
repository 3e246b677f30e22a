//! A netlist, line by line.
ghost use Rattle.std.specs.Prelude.{◌≡◌, ℕ, ◌+◌, ◌<◌, ◌≤◌, length, Option, Some, None, IfOk, OnOk, IfSome, IfNone, [], ◌∷◌, ◌++◌, List, true};
ghost use Rattle.std.specs.List.{list_all, prefix_len};
ghost use Rattle.hw_names.specs.Name.{Text};
ghost use Rattle.net_core.specs.Netlist.{netlist_of};
ghost use Rattle.net_text.specs.inside.ReadResults.{Gives, Grows, HasRoom};
ghost use Rattle.net_text.specs.inside.ReadTexts.{in_line, follows, with_line, next_net, first_net, netlist_with, IsSettled};
ghost use Rattle.net_text.specs.inside.View.{line_of};

use crate::line_end::LineEnd;
use crate::lines::{NetLine, line, numbered};
use crate::words::{expect, segment};
use hw_bits::Memory;
use hw_names::Names;
use net_core::Net;
use std::alloc::Global;

/// How many bytes stand before the first line feed.
#[tactic(auto, using(crate::proofs::WordLemmas::prefix_fits))]
fn line_len(text: &[u8]) -> usize
    ensures is { result ≡ prefix_len in_line text.now }
    ensures fits { result ≤ length text.now }
{
    text.iter().take_while(|byte| **byte != b'\n').count()
}

/// The first line, without the line feed that ends it, and what follows; `None` where no line feed is left.
pub fn split_line(text: &[u8]) -> Option<(&[u8], &[u8])>
    ensures parts { IfSome result (λ x. text.now ≡ x.0.now ++ 10 ∷ x.1.now) }
    ensures line { IfSome result (λ x. list_all in_line x.0.now ≡ true) }
    ensures none { IfNone result (list_all in_line text.now ≡ true) }
{
    let at = line_len(text);
    if at == text.len() {
        return None;
    }
    Some((&text[..at], &text[at + 1..]))
}

/// The netlist of a first line, without its line feed, of this source.
#[tactic(auto, unfolding(crate::specs::inside::ReadTexts::first_net))]
pub fn first(alloc: Global, source: &[u8], text: &[u8]) -> Result<Net, LineEnd>
    requires { HasRoom [] text.now }
    ensures read { Gives (λ net. netlist_of net) result (first_net text.now) }
    ensures settled { IfOk result IsSettled }
    ensures grows { IfOk result (λ net. Grows [] net.names text.now []) }
{
    let (name, rest) = segment(expect(text, b"net ")?)?;
    if !rest.is_empty() {
        return Err(LineEnd::Grammar);
    }
    let mut names = Names::keyed_by(alloc, source);
    let name = numbered(&mut names, name)?;
    Ok(Net {
        names,
        name,
        ins: Vec::new(alloc),
        outs: Vec::new(alloc),
        wires: Vec::new(alloc),
        cells: Vec::new(alloc),
        sets: Vec::new(alloc),
    })
}

/// Nothing of a later section stands yet.
#[tactic(auto, unfolding(crate::specs::inside::ReadTexts::follows))]
fn follows(net: &Net, line: &NetLine) -> bool
    ensures { result ≡ follows (netlist_of net.now) (line_of net.now.names line.now) }
{
    match line {
        NetLine::In(_) => {
            net.outs.is_empty()
                && net.wires.is_empty()
                && net.cells.is_empty()
                && net.sets.is_empty()
        }
        NetLine::Out(_) => net.wires.is_empty() && net.cells.is_empty() && net.sets.is_empty(),
        NetLine::Wire(_) => net.cells.is_empty() && net.sets.is_empty(),
        NetLine::Cell(_) => net.sets.is_empty(),
        NetLine::Set(_) => true,
    }
}

/// Adds the line at the end of its section.
#[tactic(auto, unfolding(crate::specs::inside::ReadTexts::with_line))]
fn push(net: &mut Net, line: NetLine) -> Result<(), Memory>
    ensures lines { OnOk result ((names : List Text) → netlist_with names net.new ≡ with_line (netlist_with names net.old) (line_of names line)) }
    ensures names { net.new.names ≡ net.old.names }
{
    match line {
        NetLine::In(port) => net.ins.push(port)?,
        NetLine::Out(port) => net.outs.push(port)?,
        NetLine::Wire(port) => net.wires.push(port)?,
        NetLine::Cell(cell) => net.cells.push(cell)?,
        NetLine::Set(assign) => net.sets.push(assign)?,
    }
    Ok(())
}

/// Adds a line, without its line feed.
#[tactic(auto, unfolding(crate::specs::inside::ReadTexts::next_net))]
pub fn add_line(alloc: Global, net: &mut Net, text: &[u8]) -> Result<(), LineEnd>
    requires settled { IsSettled net.old }
    requires room { HasRoom net.old.names text.now }
    ensures next { Gives (λ _. netlist_of net.new) result (next_net (netlist_of net.old) text.now) }
    ensures settled { OnOk result (IsSettled net.new) }
    ensures grows { OnOk result (Grows net.old.names net.new.names text.now []) }
{
    let line = line(alloc, &mut net.names, text)?;
    if !follows(net, &line) {
        return Err(LineEnd::Grammar);
    }
    push(net, line)?;
    Ok(())
}
