//! The ports of a component, and the holes of its groups, by numbers.
//!
//! A port is known by the number of its cell's name and that of its own, so the length of a name is paid for once, and not
//! at each port. Its key, which has its full name, is made only where it is told.
ghost use Rattle.std.specs.Prelude.{◌≡◌, ◌⊎◌, ◌↔◌, ◌<◌, ◌^◌, ℕ, List, [], ◌∷◌, ◌++◌, Some, Contains, length, map, option_map, slice_get, slice_index_or, IfOk, IfSome, IsSome, OnOk};
ghost use Rattle.hw_names.specs.Name.{AreDistinct, Text};
ghost use Rattle.hw_names.specs.declared.names.NameId.{NameId};
ghost use Rattle.cal_wires.specs.Nodes.{AHole, APort, AreNumbers, AreDifferent, IsFit, PortList, key_of, node_in, port_by};
ghost use Rattle.cal_wires.specs.NodeOrder.{TellNodes, full_name_in};
ghost use Rattle.cal_ast.specs.Tree.{port_of};

use crate::full_names::{PortText, hole_key, port_key};
use crate::pin_names::{PinName, find_pin, number_of};
use hw_bits::Memory;
use hw_names::{NameId, Names};
use hw_short::{FullName, short_names};
use hw_texts::Texts;
use indexmap::IndexSet;
use std::alloc::Global;
use std::marker::Model;

/// A port of a component by numbers: its own, or one of the cell of a name.
#[derive(Clone, Copy)]
pub struct Port<'t> {
    pub cell: Option<NameId>,
    pub pin: PinName<'t>,
}

/// A port or a hole, by the numbers of texts, and of the hole.
#[derive(Clone, Copy, PartialEq, Eq, Hash)]
pub enum NodeKey {
    Own(usize),
    OfCell { cell: usize, pin: usize },
    Hole(u64),
}

/// Ports and holes, each once, by first appearance.
#[derive(Drop)]
pub struct Ports<'a> {
    alloc: Global,
    texts: Texts<'a>,
    set: IndexSet<NodeKey>,
}

impl<'a> Model for Ports<'a> {
    ghost use Rattle.std.specs.Prelude.{map, length, All, ◌<◌, ◌^◌};
    ghost use Rattle.cal_wires.specs.Nodes.{AreDifferent, IsFit, PortList, key_of, node_in};

    ghost Value = { PortList };

    ghost view = { λ p. record { names = p.texts.names; keys = map (λ key. key_of (node_in p.texts.all key)) p.set.keys } };

    ghost invariant = { λ p. All (IsFit (length p.texts.all)) p.set.keys × AreDifferent p.set.keys × (length p.set.keys < 2 ^ 32) };
}

/// The key of a port, from the number of its name.
fn key_by(cell: Option<NameId>, pin: usize) -> NodeKey
    ensures node { (texts : List Text) → node_in texts result
        ≡ APort (record { cell = option_map (λ (id : NameId). slice_index_or texts id.0 []) cell; pin = slice_index_or texts pin [] }) }
    ensures fit { (count : ℕ) → IfSome cell (λ (id : NameId). id.0 < count) → pin < count → IsFit count result }
{
    match cell {
        None => NodeKey::Own(pin),
        Some(cell) => NodeKey::OfCell {
            cell: cell.0 as usize,
            pin,
        },
    }
}

/// The place of a key; a new one goes last.
fn place_of(set: &mut IndexSet<NodeKey>, key: NodeKey) -> Result<usize, Memory>
    ensures place { IfOk result (λ n. slice_get set.new.keys n ≡ Some key) }
    ensures grown { (set.new.keys ≡ set.old.keys) ⊎ (set.new.keys ≡ set.old.keys ++ key ∷ []) }
    ensures added { ¬ Contains set.old.keys key → OnOk result (set.new.keys ≡ set.old.keys ++ key ∷ []) }
    ensures different { AreDifferent set.old.keys → AreDifferent set.new.keys }
    ensures small { length set.old.keys < 2 ^ 32 → length set.new.keys < 2 ^ 32 }
{
    if set.len() >= u32::MAX as usize {
        return Err(Memory);
    }
    let (place, _) = set.insert_full(key)?;
    Ok(place)
}

/// The full name of a key, by the numbers of texts; a hole has none.
fn full_name(key: NodeKey) -> FullName
    ensures { result ≡ full_name_in key }
{
    match key {
        NodeKey::Own(pin) => FullName::Own(pin),
        NodeKey::OfCell { cell, pin } => FullName::Dotted {
            owner: cell,
            name: pin,
        },
        NodeKey::Hole(_) => FullName::Nameless,
    }
}

/// The full names of keys, by the numbers of texts.
fn full_names(alloc: Global, keys: &[NodeKey]) -> Result<Vec<FullName>, Memory>
    ensures { IfOk result (λ full. full.items ≡ map full_name_in keys.now) }
{
    let mut full = Vec::new(alloc);
    for key in keys {
        full.push(full_name(*key))?;
    }
    Ok(full)
}

impl<'a> Ports<'a> {
    /// None, where names are those of the design.
    pub fn new(alloc: Global, names: &'a Names) -> Ports<'a>
        ensures { result ≡ record { names = names.now; keys = [] } }
    {
        Ports {
            alloc,
            texts: Texts::new(names),
            set: IndexSet::new(alloc),
        }
    }

    /// The number of a port; a new one goes last.
    pub fn port(&mut self, port: Port) -> Result<usize, Memory>
        requires { AreNumbers self.old.names port }
        ensures number { IfOk result (λ n. slice_get self.new.keys n ≡ Some (key_of (APort (port_by self.old.names port.entry)))) }
        ensures grown { (self.new.keys ≡ self.old.keys) ⊎ (self.new.keys ≡ self.old.keys ++ key_of (APort (port_by self.old.names port.entry)) ∷ []) }
        ensures added { ¬ Contains self.old.keys (key_of (APort (port_by self.old.names port.entry)))
            → OnOk result (self.new.keys ≡ self.old.keys ++ key_of (APort (port_by self.old.names port.entry)) ∷ []) }
        ensures names { self.new.names ≡ self.old.names }
    {
        self.texts.begin_with_names();
        let pin = number_of(&mut self.texts, port.pin)?;
        place_of(&mut self.set, key_by(port.cell, pin))
    }

    /// The number of a hole; a new one goes last.
    pub fn hole(&mut self, group: u64) -> Result<usize, Memory>
        ensures number { IfOk result (λ n. slice_get self.new.keys n ≡ Some (key_of (AHole group))) }
        ensures grown { (self.new.keys ≡ self.old.keys) ⊎ (self.new.keys ≡ self.old.keys ++ key_of (AHole group) ∷ []) }
        ensures names { self.new.names ≡ self.old.names }
    {
        place_of(&mut self.set, NodeKey::Hole(group))
    }

    /// The number of a port, if it is there.
    pub fn find(&self, port: Port) -> Option<usize>
        requires { AreNumbers self.now.names port }
        ensures found { IfSome result (λ n. slice_get self.now.keys n ≡ Some (key_of (APort (port_by self.now.names port.entry)))) }
        ensures present { IsSome result ↔ Contains self.now.keys (key_of (APort (port_by self.now.names port.entry))) }
    {
        self.texts.begin_with_names();
        self.texts.are_distinct();
        let pin = find_pin(&self.texts, port.pin)?;
        self.set.get_index_of(&key_by(port.cell, pin))
    }

    /// How many there are.
    pub fn len(&self) -> usize
        ensures len { result ≡ length self.now.keys }
        ensures small { result < 2 ^ 32 }
        ensures distinct { AreDistinct self.now.keys }
    {
        self.texts.are_distinct();
        self.set.len()
    }

    /// The names of the cell and of the port of this number, if it is a port of a cell.
    pub fn cell_port(&self, place: usize) -> Option<(&[u8], &[u8])>
        requires { place < length self.now.keys }
        ensures some { IfSome result (λ names. slice_get self.now.keys place ≡ Some (key_of (APort (port_of names.0.now names.1.now)))) }
        ensures none { (cell pin : Text) → slice_get self.now.keys place ≡ Some (key_of (APort (port_of cell pin))) → IsSome result }
    {
        match self.set.as_slice()[place] {
            NodeKey::OfCell { cell, pin } => Some((self.texts.text(cell), self.texts.text(pin))),
            _ => None,
        }
    }

    /// The key that has the full name of the port at this place, or is a hole's.
    pub fn key_at(&self, place: usize) -> Result<Vec<u8>, Memory>
        requires { place < length self.now.keys }
        ensures { IfOk result (λ key. slice_get self.now.keys place ≡ Some key.items) }
    {
        match self.set.as_slice()[place] {
            NodeKey::Own(pin) => port_key(self.alloc, PortText::own(self.texts.text(pin))),
            NodeKey::OfCell { cell, pin } => port_key(
                self.alloc,
                PortText::of(self.texts.text(cell), self.texts.text(pin)),
            ),
            NodeKey::Hole(group) => hole_key(self.alloc, group),
        }
    }

    /// The keys by number.
    fn keys(&self) -> Result<Names, Memory>
        ensures { IfOk result (λ keys. keys ≡ self.now.keys) }
    {
        let mut keys = self.texts.beside();
        for place in 0..self.len() {
            let key = self.key_at(place)?;
            let _number = keys.intern(&key)?;
        }
        Ok(keys)
    }

    /// Names by number, of which the order is that of the full names; holes come last. They are short, unless a name has
    /// a dot, as none has that was read.
    pub fn names_in_order(&self) -> Result<Names, Memory>
        ensures { IfOk result (TellNodes self.now.keys) }
    {
        let full = full_names(self.alloc, self.set.as_slice())?;
        match short_names(self.alloc, &self.texts, &full)? {
            Some(names) => Ok(names),
            None => self.keys(),
        }
    }
}
