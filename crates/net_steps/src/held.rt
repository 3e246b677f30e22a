//! What a cell keeps that keeps its state by itself.
use crate::inputs::{Places, gather};
use crate::words::MemoryWords;
use hw_bits::{Bits, Memory};
use hw_prims::{Cell, CellState, Prim};
use std::alloc::Global;
use std::marker::Model;

/// A memory's words by themselves, or a cell of any primitive.
#[derive(Drop)]
pub enum Storage {
    Words(MemoryWords),
    Cell(CellState),
}

/// A cell's primitive and its state: a memory's words are numbers of 64 bits, where they fit.
#[derive(Drop)]
pub struct HeldState {
    storage: Storage,
}

impl Model for HeldState {
    ghost use Rattle.hw_prims.specs.Cell.{CellValue};

    ghost Value = { CellValue };

    ghost use Rattle.net_steps.specs.inside.Words.{stored_cell, IsStorage};

    ghost view = { λ s. stored_cell s.storage };

    ghost invariant = { λ s. IsStorage s.storage };
}

impl HeldState {
    ghost use Rattle.std.specs.Prelude.{◌≡◌, ◌<◌, [], length, All, IfOk, slice_index};
    ghost use Rattle.hw_prims.specs.Meaning.{next_state, opening_state, output_values};
    ghost use Rattle.hw_prims.specs.Memory.{state_with_word, word_count, word_width};
    ghost use Rattle.hw_prims.specs.State.{memory_words};
    ghost use Rattle.hw_prims.specs.Table.{IsMade, outputs_of};
    ghost use Rattle.net_steps.specs.Gathered.{gathered};
    ghost use Rattle.net_steps.specs.Others.{IsNarrow};

    /// A cell of the primitive, whose whole state is 0. Takes memory for a memory's words alone.
    pub fn new(alloc: Global, prim: Prim) -> Result<HeldState, Memory>
        requires { IsMade prim }
        ensures prim { IfOk result (λ state. state.prim ≡ prim) }
        ensures state { IfOk result (λ state. state.state ≡ opening_state prim []) }
    {
        let storage = match MemoryWords::new(alloc, prim)? {
            Some(words) => Storage::Words(words),
            None => Storage::Cell(CellState::new(alloc, prim)?),
        };
        Ok(HeldState { storage })
    }

    /// The value of an output in this row, where its inputs have these widths and are in these slots. Takes no memory.
    #[inline(always)]
    pub fn output(&self, output: usize, widths: &[u8], places: Places, slots: &[u64]) -> u64
        requires narrow { IsNarrow self.now widths.now }
        requires output { output < length (outputs_of self.now.prim) }
        requires places { All (λ place. place < length slots.now) places }
        ensures { result ≡ slice_index (output_values self.now.prim self.now.state (gathered slots.now places widths.now)) output }
    {
        match &self.storage {
            Storage::Words(words) => words.output(output, places, slots),
            Storage::Cell(cell) => {
                let inputs = gather(widths, places, slots);
                cell.comb(&inputs[..widths.len()], output).value() as u64
            }
        }
    }

    /// The edge that ends a row. Takes no memory.
    #[inline(always)]
    pub fn step(&mut self, widths: &[u8], places: Places, slots: &[u64])
        requires narrow { IsNarrow self.old widths.now }
        requires places { All (λ place. place < length slots.now) places }
        ensures prim { self.new.prim ≡ self.old.prim }
        ensures state { self.new.state ≡ next_state self.old.prim self.old.state (gathered slots.now places widths.now) }
    {
        match &mut self.storage {
            Storage::Words(words) => words.step(places, slots),
            Storage::Cell(cell) => {
                let inputs = gather(widths, places, slots);
                cell.step(&inputs[..widths.len()]);
            }
        }
    }

    /// Puts a word into a memory, before its first row; words are counted from 0. Takes no memory.
    pub fn load(&mut self, at: usize, word: Bits)
        requires at { at < word_count self.old.prim }
        requires width { word.width ≡ word_width self.old.prim }
        ensures prim { self.new.prim ≡ self.old.prim }
        ensures state { self.new.state ≡ state_with_word self.old.state at word.value }
    {
        match &mut self.storage {
            Storage::Words(words) => words.load(at, word),
            Storage::Cell(cell) => cell.load(at, word),
        }
    }

    /// A word of a memory; words are counted from 0. Takes no memory.
    pub fn word(&self, at: usize) -> Bits
        requires { at < word_count self.now.prim }
        ensures value { result.value ≡ slice_index (memory_words self.now.state) at }
        ensures width { result.width ≡ word_width self.now.prim }
    {
        match &self.storage {
            Storage::Words(words) => words.word(at),
            Storage::Cell(cell) => cell.word(at),
        }
    }

    /// The number of a memory's words; 0 for what isn't a memory. Takes no memory.
    pub fn word_count(&self) -> usize
        ensures prim { result ≡ word_count self.now.prim }
        ensures state { result ≡ length (memory_words self.now.state) }
    {
        match &self.storage {
            Storage::Words(words) => words.word_count(),
            Storage::Cell(cell) => cell.word_count(),
        }
    }
}
