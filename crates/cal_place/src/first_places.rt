//! Names by their first places in a list, in which they may stand more than once.
ghost use Rattle.std.specs.Prelude.{◌≡◌, ◌↔◌, List, [], ◌∷◌, ◌++◌, length, IsTrue, OnOk};
ghost use Rattle.hw_names.specs.Name.{Text, AreDistinct};
ghost use Rattle.cal_place.specs.FirstPlaces.{ShowsFirsts, TellsFirst};

use hw_bits::Memory;
use hw_names::Names;
use std::alloc::Global;

/// For each name of a list its first place there.
#[derive(Drop)]
pub struct FirstPlaces {
    /// The names, each once, by first appearance.
    names: Names,
    /// Where each of them stands first.
    places: Vec<usize>,
    /// No name stands in the list twice.
    distinct: bool,
}

impl FirstPlaces {
    /// Those of the empty list, for names that are among these.
    pub fn new(alloc: Global, names: &Names) -> FirstPlaces
        ensures { ShowsFirsts result [] }
    {
        FirstPlaces {
            names: names.beside(),
            places: Vec::new(alloc),
            distinct: true,
        }
    }

    /// Puts a name last in the list, at this place. More than `2^32 - 1` names find no memory.
    pub fn add(&mut self, name: &[u8], place: usize) -> Result<(), Memory>
        ensures { (list : List Text) → length list ≡ place → ShowsFirsts self.old list
            → OnOk result (ShowsFirsts self.new (list ++ name.now ∷ [])) }
    {
        let before = self.names.len();
        if before >= u32::MAX as usize {
            return Err(Memory);
        }
        let _id = self.names.intern(name)?;
        if self.names.len() == before {
            self.distinct = false;
            return Ok(());
        }
        self.places.push(place)?;
        Ok(())
    }

    /// The first place of a name; `None` exactly where the list doesn't have it.
    pub fn find(&self, name: &[u8]) -> Option<usize>
        ensures { (list : List Text) → ShowsFirsts self.now list → TellsFirst list name.now result }
    {
        let id = self.names.find(name)?;
        self.places.get(id.0 as usize).copied()
    }

    /// Whether no name stands in the list twice.
    pub fn are_distinct(&self) -> bool
        ensures { (list : List Text) → ShowsFirsts self.now list → IsTrue result ↔ AreDistinct list }
    {
        self.distinct
    }

    /// The names, each once. Where no name stands in the list twice, a name's number is its place.
    pub fn names(&self) -> &Names
        ensures same { result.now ≡ self.now.names }
        ensures listed { (list : List Text) → ShowsFirsts self.now list → AreDistinct list → result.now ≡ list }
    {
        &self.names
    }
}
