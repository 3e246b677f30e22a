//! What is told of cells that are made of one component.
ghost use Rattle.std.specs.Prelude.{◌≡◌, [], ◌∷◌, ◌++◌, Contains, IfSome, OnOk};

use hw_bits::Memory;
use hw_cells::Told;
use indexmap::IndexSet;
use std::alloc::Global;

/// A cell of the design: the number of the component that has it, and its number there.
#[derive(Clone, Copy, PartialEq, Eq, Hash)]
pub struct CellKey {
    pub holder: usize,
    pub cell: usize,
}

/// What is told of cells that are made of one component.
#[derive(Drop)]
pub struct ToldCells {
    /// The cells, each at the place of what is told of it.
    pub keys: IndexSet<CellKey>,
    pub cells: Vec<Told>,
}

impl ToldCells {
    /// Nothing is told of any cell.
    pub fn none(alloc: Global) -> ToldCells
        ensures { result.cells.items ≡ [] }
    {
        ToldCells {
            keys: IndexSet::new(alloc),
            cells: Vec::new(alloc),
        }
    }

    /// Adds what is told of a cell, or is to be.
    pub fn add(&mut self, key: CellKey, told: Told) -> Result<(), Memory>
        ensures { OnOk result (self.new.cells.items ≡ self.old.cells.items ++ told ∷ []) }
    {
        let _new = self.keys.insert(key)?;
        self.cells.push(told)?;
        Ok(())
    }

    /// What is told of the cell, if anything. That it is told of just this cell is not claimed: a holder compares the nodes.
    pub fn get(&self, key: CellKey) -> Option<&Told>
        ensures { IfSome result (λ told. Contains self.now.cells.items told.now) }
    {
        self.cells.get(self.keys.get_index_of(&key)?)
    }
}
