//! Numbers for names, by first appearance.
ghost use Rattle.std.specs.Prelude.{◌≡◌, ◌-◌, ◌+◌, ◌^◌, ◌<◌, ◌≤◌, ◌↔◌, ◌⊎◌, [], ◌∷◌, ◌++◌, Some, length, slice_get, Contains, IsSome, IsOk, IfSome, IfOk, OnErr};
ghost use Rattle.hw_names.specs.Name.{AreDistinct, KeepsTexts};

use crate::text::{Sought, Text};
use hw_bits::Memory;
use indexmap::IndexSet;
use std::alloc::Global;
use std::hash::{BuildHasher, DefaultHasher, FoldHasher, Hasher};
use std::marker::Model;

/// The number of a text in a list of names.
#[derive(Clone, Copy, Debug, PartialEq, Eq, PartialOrd, Ord, Hash)]
pub struct NameId(pub u32);

/// Begins each hash with a key that is made of some bytes, so that texts whose hashes meet can't be chosen without these. The key
/// is made by SipHash, and texts are hashed by a quicker function from it on.
#[derive(Clone, Copy)]
pub struct Keyed {
    begun: FoldHasher,
}

impl Keyed {
    /// Begins each hash with no key.
    pub fn new() -> Keyed {
        Keyed {
            begun: FoldHasher::default(),
        }
    }

    /// Begins each hash with a key of these bytes too, after those before.
    pub fn add(&mut self, bytes: &[u8]) {
        let mut key = DefaultHasher::new();
        key.write(bytes);
        self.begun.write_u64(key.finish());
    }
}

impl BuildHasher for Keyed {
    type Hasher = FoldHasher;

    ghost build_hasher = { λ keyed. keyed.begun };

    fn build_hasher(&self) -> FoldHasher {
        self.begun
    }
}

/// A list of distinct texts, in the order of their first appearance. A text's number is its place, from 0 on.
#[derive(Debug, Drop)]
pub struct Names {
    texts: IndexSet<Text, Keyed>,
}

impl Model for Names {
    ghost use Rattle.std.specs.Prelude.{List, map, length, ◌<◌, ◌^◌};
    ghost use Rattle.hw_names.specs.Name.{Text, AreDistinct};

    ghost Value = { List Text };

    ghost view = { λ names. map (λ text. text.bytes.items) names.texts.keys };

    ghost invariant = { λ names.
        (length names.texts.keys < 2 ^ 32)
        × AreDistinct (map (λ text. text.bytes.items) names.texts.keys) };
}

impl Names {
    /// No names.
    pub fn new(alloc: Global) -> Names
        ensures { result ≡ [] }
    {
        Names::hashed_by(alloc, Keyed::new())
    }

    /// No names, for those of a source: hashed in a way that the whole source tells, so that it can't name things whose hashes
    /// meet.
    pub fn keyed_by(alloc: Global, source: &[u8]) -> Names
        ensures { result ≡ [] }
    {
        let mut keyed = Keyed::new();
        keyed.add(source);
        Names::hashed_by(alloc, keyed)
    }

    /// No names, hashed in this way.
    pub fn hashed_by(alloc: Global, keyed: Keyed) -> Names
        ensures { result ≡ [] }
    {
        Names {
            texts: IndexSet::with_hasher(alloc, keyed),
        }
    }

    /// No names, for some that are among these: hashed in the same way.
    pub fn beside(&self) -> Names
        ensures { result ≡ [] }
    {
        Names {
            texts: IndexSet::with_hasher(*self.texts.allocator(), *self.texts.hasher()),
        }
    }

    /// The number of the text. A text that is there keeps its number and takes no memory; a new one goes last.
    /// After `Memory` the names are as they were.
    pub fn intern(&mut self, text: &[u8]) -> Result<NameId, Memory>
        requires { length self.old < 2 ^ 32 - 1 }
        ensures text { IfOk result (λ id. slice_get self.new id.0 ≡ Some text.now) }

        // A text that is there changes nothing, and a new one goes last.
        ensures present { Contains self.old text.now → IsOk result × (self.new ≡ self.old) }
        ensures added { IfOk result (λ id.
            ¬ Contains self.old text.now
            → (self.new ≡ self.old ++ text.now ∷ []) × (id.0 ≡ length self.old)) }
        ensures err { OnErr result (self.new ≡ self.old) }

        // In each case at most the text is added, so each number keeps its text.
        ensures grown { (self.new ≡ self.old) ⊎ (self.new ≡ self.old ++ text.now ∷ []) }
        ensures kept { KeepsTexts self.old self.new }
        ensures len { length self.new ≤ length self.old + 1 }
        ensures distinct { AreDistinct self.new }
    {
        if let Some(id) = self.find(text) {
            return Ok(id);
        }
        let bytes = Vec::from_slice(*self.texts.allocator(), text)?;
        let (index, _) = self.texts.insert_full(Text { bytes })?;
        Ok(NameId(index as u32))
    }

    /// The number of the text; `None` exactly where the text isn't there.
    pub fn find(&self, text: &[u8]) -> Option<NameId>
        ensures text { IfSome result (λ id. slice_get self.now id.0 ≡ Some text.now) }
        ensures present { IsSome result ↔ Contains self.now text.now }
        ensures distinct { AreDistinct self.now }
    {
        let index = self.texts.get_index_of(Sought { bytes: text })?;
        Some(NameId(index as u32))
    }

    /// The text of the number.
    pub fn text(&self, id: NameId) -> &[u8]
        requires { id.0 < length self.now }
        ensures { slice_get self.now id.0 ≡ Some result.now }
    {
        self.texts.as_slice()[id.0 as usize].bytes.as_slice()
    }

    /// How many names there are.
    pub fn len(&self) -> usize
        ensures len { result ≡ length self.now }
        ensures small { result < 2 ^ 32 }
        ensures distinct { AreDistinct self.now }
    {
        self.texts.len()
    }
}
