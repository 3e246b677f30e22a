//! The ports of a component and of its instances, by numbers.
//!
//! A port is known by the number of its instance and that of its own name, so the length of an instance's name is not paid for
//! at each port. Full names are made only of ports that are told, and where a name has a dot, as none has that was read.
ghost use Rattle.std.specs.Prelude.{◌≡◌, ◌⊎◌, ◌<◌, ◌^◌, ◌+◌, [], ◌∷◌, ◌++◌, ℕ, Some, Contains, drop, length, map, slice_get, IfNone, IfOk, IfSome, IsSome, OnOk};
ghost use Rattle.hw_names.specs.Name.{AreDistinct, HasNoDot, KeepsTexts, Text, dot, dotted};
ghost use Rattle.fil_loops.specs.inside.Ports.{AreDifferent, IsFit, PortList, TellNames, full_name_in, full_of};

use hw_bits::Memory;
use hw_names::Names;
use hw_short::{FullName, short_names};
use hw_texts::Texts;
use indexmap::IndexSet;
use std::alloc::Global;
use std::marker::Model;

/// A port of the component or of an instance of it, by the numbers of texts.
#[derive(Clone, Copy, PartialEq, Eq, Hash)]
pub enum PortKey {
    Own(usize),
    OfInstance { instance: usize, port: usize },
}

/// Ports, each once, by first appearance.
#[derive(Drop)]
pub struct Ports<'a> {
    alloc: Global,
    texts: Texts<'a>,
    set: IndexSet<PortKey>,
}

impl<'a> Model for Ports<'a> {
    ghost use Rattle.std.specs.Prelude.{map, length, All, ◌<◌, ◌^◌};
    ghost use Rattle.fil_loops.specs.inside.Ports.{AreDifferent, IsFit, PortList, full_name_in};

    ghost Value = { PortList };

    ghost view = { λ p. record { instances = p.texts.names; names = map (full_name_in p.texts.all) p.set.keys } };

    ghost invariant = { λ p. All (IsFit p.texts.all) p.set.keys × AreDifferent p.set.keys × (length p.set.keys < 2 ^ 32) × (length p.texts.names < 2 ^ 32) };
}

/// The place of the last dot.
fn last_dot(text: &[u8]) -> Option<usize>
    ensures none { IfNone result (HasNoDot text.now) }
    ensures some { IfSome result (λ place. drop place text.now ≡ dot ∷ drop (place + 1) text.now) }
    ensures last { IfSome result (λ place. HasNoDot (drop (place + 1) text.now)) }
    ensures within { IfSome result (λ place. place < length text.now) }
{
    let mut place = text.len();
    while place > 0 {
        place -= 1;
        if text[place] == b'.' {
            return Some(place);
        }
    }
    None
}

/// The full name of a port of an instance.
fn full_name(alloc: Global, inst: &[u8], port: &[u8]) -> Result<Vec<u8>, Memory>
    ensures { IfOk result (λ full. full.items ≡ dotted inst.now port.now) }
{
    let mut full = Vec::new(alloc);
    full.extend_from_slice(inst)?;
    full.push(b'.')?;
    full.extend_from_slice(port)?;
    Ok(full)
}

/// The key of the port of this full name, which is cut at its last dot, if it has one.
fn named_key(texts: &mut Texts, name: &[u8]) -> Result<PortKey, Memory>
    ensures named { IfOk result (λ key. full_name_in texts.new.all key ≡ name.now) }
    ensures fit { IfOk result (IsFit texts.new.all) }
    ensures names { texts.new.names ≡ texts.old.names }
    ensures kept { KeepsTexts texts.old.all texts.new.all }
{
    let Some(place) = last_dot(name) else {
        return Ok(PortKey::Own(texts.number(name)?));
    };
    let instance = texts.number(&name[..place])?;
    let port = texts.number(&name[place + 1..])?;
    Ok(PortKey::OfInstance { instance, port })
}

/// The key of the port of the instance of this number. What stands before the last dot of a port's name, if it has one, is
/// taken as a part of the instance's, so that a full name has one key.
fn instance_key(
    alloc: Global,
    texts: &mut Texts,
    instance: usize,
    port: &[u8],
) -> Result<PortKey, Memory>
    requires { instance < length texts.old.names }
    ensures named { (inst : Text) → slice_get texts.old.names instance ≡ Some inst
        → IfOk result (λ key. full_name_in texts.new.all key ≡ dotted inst port.now) }
    ensures fit { IfOk result (IsFit texts.new.all) }
    ensures names { texts.new.names ≡ texts.old.names }
    ensures kept { KeepsTexts texts.old.all texts.new.all }
{
    texts.begin_with_names();
    if last_dot(port).is_some() {
        let full = full_name(alloc, texts.text(instance), port)?;
        return named_key(texts, &full);
    }
    let port = texts.number(port)?;
    Ok(PortKey::OfInstance { instance, port })
}

/// The place of a key; a new one goes last.
fn place_of(set: &mut IndexSet<PortKey>, key: PortKey) -> Result<usize, Memory>
    ensures place { IfOk result (λ n. slice_get set.new.keys n ≡ Some key) }
    ensures grown { (set.new.keys ≡ set.old.keys) ⊎ (set.new.keys ≡ set.old.keys ++ key ∷ []) }
    ensures added { ¬ Contains set.old.keys key → OnOk result (set.new.keys ≡ set.old.keys ++ key ∷ []) }
    ensures different { AreDifferent set.old.keys → AreDifferent set.new.keys }
    ensures small { length set.old.keys < 2 ^ 32 → length set.new.keys < 2 ^ 32 }
{
    if set.len() >= u32::MAX as usize {
        return Err(Memory);
    }
    let (place, _) = set.insert_full(key)?;
    Ok(place)
}

/// The full name of a port, by the numbers of its texts.
fn name_of(key: PortKey) -> FullName
    ensures { result ≡ full_of key }
{
    match key {
        PortKey::Own(name) => FullName::Own(name),
        PortKey::OfInstance { instance, port } => FullName::Dotted {
            owner: instance,
            name: port,
        },
    }
}

/// The full names of ports, by the numbers of their texts.
fn names_of(alloc: Global, keys: &[PortKey]) -> Result<Vec<FullName>, Memory>
    ensures { IfOk result (λ full. full.items ≡ map full_of keys.now) }
{
    let mut full = Vec::new(alloc);
    for key in keys {
        full.push(name_of(*key))?;
    }
    Ok(full)
}

impl<'a> Ports<'a> {
    /// None, of a component with these instances.
    pub fn new(alloc: Global, instances: &'a Names) -> Ports<'a>
        ensures { result ≡ record { instances = instances.now; names = [] } }
    {
        // They are fewer than numbers have room for.
        let _count = instances.len();
        Ports {
            alloc,
            texts: Texts::new(instances),
            set: IndexSet::new(alloc),
        }
    }

    /// What the ports are allocated with.
    pub fn alloc(&self) -> Global {
        self.alloc
    }

    /// The number of the port of this full name; a new one goes last.
    pub fn named(&mut self, name: &[u8]) -> Result<usize, Memory>
        ensures number { IfOk result (λ n. slice_get self.new.names n ≡ Some name.now) }
        ensures kept { KeepsTexts self.old.names self.new.names }
        ensures added { ¬ Contains self.old.names name.now → OnOk result (self.new.names ≡ self.old.names ++ name.now ∷ []) }
        ensures instances { self.new.instances ≡ self.old.instances }
    {
        let key = named_key(&mut self.texts, name)?;
        place_of(&mut self.set, key)
    }

    /// The number of the port of this name of an instance; a new one goes last.
    pub fn port(&mut self, instance: usize, port: &[u8]) -> Result<usize, Memory>
        requires { instance < length self.old.instances }
        ensures number { (inst : Text) → slice_get self.old.instances instance ≡ Some inst
            → IfOk result (λ n. slice_get self.new.names n ≡ Some (dotted inst port.now)) }
        ensures within { IfOk result (λ n. n < length self.new.names) }
        ensures kept { KeepsTexts self.old.names self.new.names }
        ensures instances { self.new.instances ≡ self.old.instances }
    {
        let key = instance_key(self.alloc, &mut self.texts, instance, port)?;
        place_of(&mut self.set, key)
    }

    /// The number of the instance of this name.
    pub fn instance(&self, name: &[u8]) -> Option<usize>
        ensures some { IfSome result (λ n. slice_get self.now.instances n ≡ Some name.now) }
        ensures none { IfNone result (¬ Contains self.now.instances name.now) }
    {
        self.texts.named(name)
    }

    /// How many instances there are.
    pub fn instances(&self) -> usize
        ensures count { result ≡ length self.now.instances }
        ensures small { result < 2 ^ 32 }
        ensures distinct { AreDistinct self.now.instances }
    {
        self.texts.begin_with_names();
        self.texts.are_distinct();
        self.texts.names()
    }

    /// The name of the instance of this number.
    pub fn instance_name(&self, instance: usize) -> &[u8]
        requires { instance < length self.now.instances }
        ensures { slice_get self.now.instances instance ≡ Some result.now }
    {
        self.texts.begin_with_names();
        self.texts.text(instance)
    }

    /// How many ports there are.
    pub fn len(&self) -> usize
        ensures len { result ≡ length self.now.names }
        ensures small { result < 2 ^ 32 }
        ensures distinct { AreDistinct self.now.names }
    {
        self.texts.are_distinct();
        self.set.len()
    }

    /// The full name of the port at this place.
    pub fn full_name(&self, place: usize) -> Result<Vec<u8>, Memory>
        requires { place < length self.now.names }
        ensures { IfOk result (λ name. slice_get self.now.names place ≡ Some name.items) }
    {
        match self.set.as_slice()[place] {
            PortKey::Own(port) => Ok(Vec::from_slice(self.alloc, self.texts.text(port))?),
            PortKey::OfInstance { instance, port } => full_name(
                self.alloc,
                self.texts.text(instance),
                self.texts.text(port),
            ),
        }
    }

    /// The number of what stands before the last dot of the full name at this place, and the text behind it; none where there is no
    /// dot. The number is that of an instance, or behind those of all.
    pub fn of_instance(&self, place: usize) -> Option<(usize, &[u8])>
        requires { place < length self.now.names }
        ensures found { (instance : ℕ) (inst name : Text) → slice_get self.now.names place ≡ Some (dotted inst name) → HasNoDot name
            → slice_get self.now.instances instance ≡ Some inst
            → IsSome result × IfSome result (λ found. (found.0 ≡ instance) × (found.1.now ≡ name)) }
        ensures some { IfSome result (λ found. (inst : Text) → slice_get self.now.instances found.0 ≡ Some inst
            → slice_get self.now.names place ≡ Some (dotted inst found.1.now)) }
        ensures none { IfNone result ((name : Text) → slice_get self.now.names place ≡ Some name → HasNoDot name) }
    {
        self.texts.begin_with_names();
        self.texts.are_distinct();
        match self.set.as_slice()[place] {
            PortKey::Own(_) => None,
            PortKey::OfInstance { instance, port } => Some((instance, self.texts.text(port))),
        }
    }

    /// The full names of the ports by number.
    fn full_names(&self) -> Result<Names, Memory>
        ensures { IfOk result (λ names. names ≡ self.now.names) }
    {
        let mut names = self.texts.beside();
        for place in 0..self.len() {
            let name = self.full_name(place)?;
            let _number = names.intern(&name)?;
        }
        Ok(names)
    }

    /// Names by number, of which the order is that of the full names. They are short, unless a text has a dot, as none has
    /// that was read.
    pub fn names_in_order(&self) -> Result<Names, Memory>
        ensures { IfOk result (TellNames self.now.names) }
    {
        let full = names_of(self.alloc, self.set.as_slice())?;
        match short_names(self.alloc, &self.texts, &full)? {
            Some(names) => Ok(names),
            None => self.full_names(),
        }
    }
}
