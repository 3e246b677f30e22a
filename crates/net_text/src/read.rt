//! A whole text.
ghost use Rattle.std.specs.Prelude.{◌≡◌, ℕ, ◌+◌, ◌-◌, ◌^◌, ◌<◌, ◌≤◌, length, IfOk, IfErr, [], ◌∷◌, ◌++◌, List};
ghost use Rattle.hw_names.specs.Name.{Text};
ghost use Rattle.net_core.specs.Netlist.{Netlist, netlist_of};
ghost use Rattle.net_core.specs.Numbers.{HasNumbers};
ghost use Rattle.net_text.specs.Reading.{Spells, Refuses};
ghost use Rattle.net_text.specs.inside.ReadTexts.{IsRead};

use crate::line_end::LineEnd;
use crate::net_text_end::NetTextEnd;
use crate::netlists::{add_line, first, split_line};
use net_core::Net;
use std::alloc::Global;

/// The netlist, where the text ends here.
fn finished(bytes: &[u8], net: Net, rest: &[u8]) -> Result<Net, NetTextEnd>
    requires { IsRead bytes.now net (101 ∷ 110 ∷ 100 ∷ 10 ∷ rest.now) }
    ensures spelled { IfOk result (λ net. Spells bytes.now (netlist_of net) × HasNumbers net) }
    ensures refused { IfErr result (Refuses bytes.now) }
{
    if !rest.is_empty() {
        return Err(NetTextEnd::Grammar {
            at: bytes.len() - rest.len(),
        });
    }
    Ok(net)
}

/// Reads the lines after the first.
fn read_lines(alloc: Global, bytes: &[u8], mut net: Net, rest: &[u8]) -> Result<Net, NetTextEnd>
    requires { IsRead bytes.now net rest.now }
    ensures spelled { IfOk result (λ net. Spells bytes.now (netlist_of net) × HasNumbers net) }
    ensures refused { IfErr result (Refuses bytes.now) }
{
    let mut rest = rest;
    while let Some((line, after)) = split_line(rest) {
        if line == b"end".as_slice() {
            return finished(bytes, net, after);
        }
        match add_line(alloc, &mut net, line) {
            Ok(()) => rest = after,
            Err(LineEnd::Memory) => return Err(NetTextEnd::Memory),
            Err(LineEnd::Grammar) => break,
        }
    }
    Err(NetTextEnd::Grammar {
        at: bytes.len() - rest.len(),
    })
}

/// The netlist that a text spells. A text that spells none is refused at the first byte of the first line such that no
/// netlist's text begins with the lines up to it, or at its length where its lines are the first of a netlist's text.
pub fn read_net(alloc: Global, bytes: &[u8]) -> Result<Net, NetTextEnd>
    requires { length bytes.now < 2 ^ 32 - 1 }
    ensures spelled { IfOk result (λ net. Spells bytes.now (netlist_of net) × HasNumbers net) }
    ensures refused { IfErr result (Refuses bytes.now) }
{
    let Some((line, rest)) = split_line(bytes) else {
        return Err(NetTextEnd::Grammar { at: 0 });
    };
    match first(alloc, bytes, line) {
        Ok(net) => read_lines(alloc, bytes, net, rest),
        Err(LineEnd::Memory) => Err(NetTextEnd::Memory),
        Err(LineEnd::Grammar) => Err(NetTextEnd::Grammar { at: 0 }),
    }
}

/// A text spells at most one netlist.
pub fn one_netlist()
    ensures { (text : Text) (m n : Netlist) → Spells text m → Spells text n → m ≡ n }
{}
