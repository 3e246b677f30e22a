//! A cell: a primitive with its state.
ghost use Rattle.std.specs.Prelude.{◌≡◌, ◌<◌, [], length, slice_get, slice_index, Some, IfOk};
ghost use Rattle.hw_bits.specs.Values.{values_of};
ghost use Rattle.hw_prims.specs.Cell.{AreInputs};
ghost use Rattle.hw_prims.specs.Meaning.{output_values, next_state, opening_state};
ghost use Rattle.hw_prims.specs.Memory.{word_count, word_width, state_with_word};
ghost use Rattle.hw_prims.specs.State.{State, memory_words};
ghost use Rattle.hw_prims.specs.Table.{IsMade, outputs_of, pin_widths};
ghost use Rattle.hw_prims.specs.declared.prim.Primitive.{Primitive};

use crate::kept::Kept;
use crate::prim::Primitive;
use hw_bits::{Bits, Memory};
use std::alloc::Global;
use std::marker::Model;

/// What computes outputs from a state and inputs, row by row.
pub trait Cell {
    /// The primitive.
    ghost prim: { Self → Primitive };

    /// What it keeps.
    ghost state: { Self → State };

    /// The value of an output in this row; outputs are counted from 0. Takes no memory.
    fn comb(&self, inputs: &[Bits], output: usize) -> Bits
        requires inputs { AreInputs (prim self.now) inputs.now }
        requires output { output < length (outputs_of (prim self.now)) }
        ensures value { result.value
            ≡ slice_index (output_values (prim self.now) (state self.now) (values_of inputs.now)) output }
        ensures width { slice_get (pin_widths (outputs_of (prim self.now))) output ≡ Some result.width };

    /// The edge that ends a row. Takes no memory.
    fn step(&mut self, inputs: &[Bits])
        requires { AreInputs (prim self.old) inputs.now }
        ensures prim { prim self.new ≡ prim self.old }
        ensures state { state self.new
            ≡ next_state (prim self.old) (state self.old) (values_of inputs.now) };
}

/// A cell of a primitive, with what it keeps.
#[derive(Drop)]
pub struct CellState {
    prim: Primitive,
    kept: Kept,
}

impl Model for CellState {
    ghost use Rattle.hw_prims.specs.Cell.{CellValue};

    ghost Value = { CellValue };

    ghost use Rattle.hw_prims.specs.Kept.{state_of, IsKept};

    ghost view = { λ c. record { prim = c.prim; state = state_of c.kept } };

    ghost invariant = { λ c. IsKept c.prim c.kept };
}

impl CellState {
    /// A cell of the primitive, whose whole state is 0. Takes `word_count` words for a memory, and none else.
    pub fn new(alloc: Global, prim: Primitive) -> Result<CellState, Memory>
        requires { IsMade prim }
        ensures prim { IfOk result (λ cell. cell.prim ≡ prim) }
        ensures state { IfOk result (λ cell. cell.state ≡ opening_state prim []) }
    {
        let kept = Kept::new(alloc, prim)?;
        Ok(CellState { prim, kept })
    }

    /// Puts a word into a memory, before its first row; words are counted from 0. Takes no memory.
    pub fn load(&mut self, at: usize, word: Bits)
        requires at { at < word_count self.old.prim }
        requires width { word.width ≡ word_width self.old.prim }
        ensures prim { self.new.prim ≡ self.old.prim }
        ensures state { self.new.state ≡ state_with_word self.old.state at word.value }
    {
        self.kept.load(self.prim, at, word);
    }

    /// A word of a memory; words are counted from 0. Takes no memory.
    pub fn word(&self, at: usize) -> Bits
        requires { at < word_count self.now.prim }
        ensures value { result.value ≡ slice_index (memory_words self.now.state) at }
        ensures width { result.width ≡ word_width self.now.prim }
    {
        self.kept.word(self.prim, at)
    }

    /// The number of a memory's words; 0 for what isn't a memory. Takes no memory.
    pub fn word_count(&self) -> usize
        ensures prim { result ≡ word_count self.now.prim }
        ensures state { result ≡ length (memory_words self.now.state) }
    {
        self.kept.word_count(self.prim)
    }
}

impl Cell for CellState {
    ghost prim = { λ c. c.prim };

    ghost state = { λ c. c.state };

    fn comb(&self, inputs: &[Bits], output: usize) -> Bits {
        self.kept.comb(self.prim, inputs, output)
    }

    fn step(&mut self, inputs: &[Bits]) {
        self.kept.step(self.prim, inputs);
    }
}
