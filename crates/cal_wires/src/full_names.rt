//! Keys of the ports of a component, which have their full names, and of the holes of its groups.
ghost use Rattle.std.specs.Prelude.{◌≡◌, ◌==◌, ◌+◌, ◌≤◌, ℕ, List, ◌∷◌, ◌++◌, drop, length, slice_index, IfOk, OnOk, MatchOption};
ghost use Rattle.cal_wires.specs.Nodes.{AHole, APort, IsName, Node, key_of, marked, name_of};
ghost use Rattle.cal_ast.specs.Tree.{own, port_of};

use hw_bits::Memory;
use hw_names::Word;
use std::alloc::Global;

/// A port of a component by texts: its own, or one of a cell of it.
#[derive(Clone, Copy)]
pub struct PortText<'t> {
    pub cell: Option<&'t [u8]>,
    pub pin: &'t [u8],
}

impl<'t> PortText<'t> {
    /// A port of the component itself.
    pub fn own(pin: &'t [u8]) -> PortText<'t>
        ensures { name_of result ≡ own pin.now }
    {
        PortText { cell: None, pin }
    }

    /// A port of a cell.
    pub fn of(cell: &'t [u8], pin: &'t [u8]) -> PortText<'t>
        ensures { name_of result ≡ port_of cell.now pin.now }
    {
        PortText {
            cell: Some(cell),
            pin,
        }
    }
}

/// Comes before each byte of a full name in a key; it is more than what ends the name.
const BYTE: u8 = 1;

/// Ends a full name in a key.
const END: u8 = 0;

/// Begins a hole's key; it is more than what a port's key begins with.
const HOLE: u8 = 2;

/// Puts a text last, each byte behind a mark.
fn add_marked(key: &mut Vec<u8>, text: &[u8]) -> Result<(), Memory>
    ensures { OnOk result (key.new.items ≡ key.old.items ++ marked text.now) }
{
    for byte in text {
        key.push(BYTE)?;
        key.push(*byte)?;
    }
    Ok(())
}

/// The key of a port: its full name, and then the name of its cell, if it has one, since names may have dots.
pub fn port_key(alloc: Global, port: PortText) -> Result<Vec<u8>, Memory>
    ensures { IfOk result (λ key. key.items ≡ key_of (APort (name_of port.entry))) }
{
    let mut key = Vec::new(alloc);
    let Some(cell) = port.cell else {
        add_marked(&mut key, port.pin)?;
        key.push(END)?;
        return Ok(key);
    };
    add_marked(&mut key, cell)?;
    add_marked(&mut key, b".")?;
    add_marked(&mut key, port.pin)?;
    key.push(END)?;
    key.push(BYTE)?;
    key.extend_from_slice(cell)?;
    Ok(key)
}

/// Whether a key is a hole's.
fn is_hole(key: &[u8]) -> bool
    ensures { result ≡ (slice_index key.now 0 == HOLE) }
{
    if key.is_empty() {
        return false;
    }
    key[0] == HOLE
}

/// The byte that stands at this place behind a mark, if there is one.
fn marked_at(key: &[u8], place: usize) -> Option<u8>
    requires { place ≤ length key.now }
    ensures { MatchOption result
        ((byte : ℕ) (rest : List ℕ) → drop place key.now ≡ BYTE ∷ byte ∷ rest → ⊥)
        (λ byte. drop place key.now ≡ BYTE ∷ byte ∷ drop (place + 2) key.now) }
{
    if key.len() - place < 2 {
        return None;
    }
    if key[place] != BYTE {
        return None;
    }
    Some(key[place + 1])
}

/// The full name of the port that has the key; `None` for a hole.
pub fn name_in(alloc: Global, key: &[u8]) -> Result<Option<Word>, Memory>
    ensures { (node : Node) → key.now ≡ key_of node → IfOk result (IsName node) }
{
    if is_hole(key) {
        return Ok(None);
    }
    let mut name = Vec::new(alloc);
    let mut place = 0;
    while let Some(byte) = marked_at(key, place) {
        name.push(byte)?;
        place += 2;
    }
    Ok(Some(Word::make(alloc, &name)?))
}

/// The key of the hole of this number.
pub fn hole_key(alloc: Global, number: u64) -> Result<Vec<u8>, Memory>
    ensures { IfOk result (λ key. key.items ≡ key_of (AHole number)) }
{
    let mut key = vec![in alloc; HOLE]?;
    key.extend_from_slice(&number.to_be_bytes())?;
    Ok(key)
}
