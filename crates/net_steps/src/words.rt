//! The words of memories, as numbers of 64 bits.
use crate::gates::ones;
use crate::inputs::Places;
use hw_bits::{Bits, Memory};
use hw_prims::Prim;
use std::alloc::Global;

/// How a memory's words are addressed: in rows and columns, by the low bits of two slots. With one address there is one column,
/// and its mask is 0. `input` is the number of the input that is written, and the next one says whether it is.
#[derive(Clone, Copy)]
pub struct Grid {
    rows: u64,
    columns: u64,
    row_mask: u64,
    column_mask: u64,
    word_mask: u64,
    input: usize,
}

impl Grid {
    ghost use Rattle.std.specs.Prelude.{◌≡◌, ◌*◌, ◌<◌, ◌≤◌, IfSome};
    ghost use Rattle.hw_prims.specs.Table.{IsMade};
    ghost use Rattle.hw_prims.specs.declared.prim.TheConstants.{MAX_WORDS};
    ghost use Rattle.net_steps.specs.inside.Words.{HasGrid, grid_place};

    /// That of a memory whose words and addresses fit slots.
    #[tactic(auto, unfolding(hw_prims::specs::Table::is_made))]
    fn of(prim: Prim) -> Option<Grid>
        requires { IsMade prim }
        ensures { IfSome result (HasGrid prim) }
    {
        match prim {
            Prim::StdMemD1 { w, size, idx } => Some(Grid {
                rows: size,
                columns: 1,
                row_mask: ones(idx).ok()?,
                column_mask: 0,
                word_mask: ones(w).ok()?,
                input: 1,
            }),
            Prim::StdMemD2 {
                w,
                size0,
                size1,
                idx0,
                idx1,
            } => Some(Grid {
                rows: size0,
                columns: size1,
                row_mask: ones(idx0).ok()?,
                column_mask: ones(idx1).ok()?,
                word_mask: ones(w).ok()?,
                input: 2,
            }),
            _ => None,
        }
    }

    /// The number of the word in this row and column; `None` out of range.
    #[inline(always)]
    fn place(&self, row: u64, column: u64) -> Option<usize>
        requires { self.now.rows * self.now.columns ≤ MAX_WORDS }
        ensures place { result ≡ grid_place self.now.rows self.now.columns row column }
        ensures within { IfSome result (λ place. place < self.now.rows * self.now.columns) }
    {
        if row < self.rows && column < self.columns {
            Some((row * self.columns + column) as usize)
        } else {
            None
        }
    }
}

/// A memory's words, each below 2 to the width of its words, and whether one was written at the last edge.
#[derive(Drop)]
pub struct MemoryWords {
    prim: Prim,
    grid: Grid,
    words: Vec<u64>,
    done: bool,
}

impl MemoryWords {
    ghost use Rattle.std.specs.Prelude.{◌≡◌, ◌<◌, [], length, All, IfOk, IfSome, Some, slice_index};
    ghost use Rattle.hw_prims.specs.Meaning.{next_state, opening_state, output_values};
    ghost use Rattle.hw_prims.specs.Memory.{place_of, state_with_word, word_count, word_width};
    ghost use Rattle.hw_prims.specs.Table.{IsMade, inputs_of, pin_widths};
    ghost use Rattle.net_steps.specs.Gathered.{gathered};
    ghost use Rattle.net_steps.specs.inside.Words.{AreWordsOf, state_of_words};

    /// A memory's words, all 0; `None` for what isn't a memory, and where a word or an address is wider than a slot.
    pub fn new(alloc: Global, prim: Prim) -> Result<Option<MemoryWords>, Memory>
        requires { IsMade prim }
        ensures words { IfOk result (λ found. IfSome found (λ words. AreWordsOf prim words)) }
        ensures state { IfOk result (λ found. IfSome found (λ words. state_of_words words ≡ opening_state prim [])) }
    {
        let Some(grid) = Grid::of(prim) else {
            return Ok(None);
        };
        let words = vec![in alloc; 0u64; prim.word_count() as usize]?;
        Ok(Some(MemoryWords {
            prim,
            grid,
            words,
            done: false,
        }))
    }

    /// The primitive.
    pub fn prim(&self) -> Prim
        ensures { result ≡ self.now.prim }
    {
        self.prim
    }

    /// The number of the word that is addressed; `None` out of range.
    #[inline(always)]
    fn place(&self, places: Places, slots: &[u64]) -> Option<usize>
        requires words { AreWordsOf self.now.prim self.now }
        requires places { All (λ place. place < length slots.now) places }
        ensures place { result ≡ place_of self.now.prim (gathered slots.now places (pin_widths (inputs_of self.now.prim))) }
        ensures within { IfSome result (λ place. place < length self.now.words.items) }
    {
        let row = slots[places[0] as usize] & self.grid.row_mask;
        let column = slots[places[1] as usize] & self.grid.column_mask;
        self.grid.place(row, column)
    }

    /// The value of an output; outputs are counted from 0.
    #[inline(always)]
    pub fn output(&self, output: usize, places: Places, slots: &[u64]) -> u64
        requires words { AreWordsOf self.now.prim self.now }
        requires output { output < 2 }
        requires places { All (λ place. place < length slots.now) places }
        ensures { result
            ≡ slice_index (output_values self.now.prim (state_of_words self.now) (gathered slots.now places (pin_widths (inputs_of self.now.prim)))) output }
    {
        if output > 0 {
            return self.done as u64;
        }
        match self.place(places, slots) {
            Some(place) => self.words[place],
            None => 0,
        }
    }

    /// The edge that ends a row.
    #[inline(always)]
    pub fn step(&mut self, places: Places, slots: &[u64])
        requires words { AreWordsOf self.old.prim self.old }
        requires places { All (λ place. place < length slots.now) places }
        ensures words { AreWordsOf self.old.prim self.new }
        ensures state { state_of_words self.new
            ≡ next_state self.old.prim (state_of_words self.old) (gathered slots.now places (pin_widths (inputs_of self.old.prim))) }
    {
        let place = self.place(places, slots);
        let word = slots[places[self.grid.input] as usize] & self.grid.word_mask;
        self.done = slots[places[self.grid.input + 1] as usize] & 1 == 1;
        if self.done {
            if let Some(place) = place {
                self.words[place] = word;
            }
        }
    }

    /// Puts a word into a memory, before its first row; words are counted from 0.
    pub fn load(&mut self, at: usize, word: Bits)
        requires words { AreWordsOf self.old.prim self.old }
        requires at { at < word_count self.old.prim }
        requires width { word.width ≡ word_width self.old.prim }
        ensures words { AreWordsOf self.old.prim self.new }
        ensures state { state_of_words self.new ≡ state_with_word (state_of_words self.old) at word.value }
    {
        self.words[at] = word.value() as u64;
    }

    /// A word of a memory; words are counted from 0.
    pub fn word(&self, at: usize) -> Bits
        requires words { AreWordsOf self.now.prim self.now }
        requires at { at < word_count self.now.prim }
        ensures value { result.value ≡ slice_index self.now.words.items at }
        ensures width { result.width ≡ word_width self.now.prim }
    {
        Bits::wrap(self.words[at] as u128, self.prim.word_width())
    }

    /// The number of a memory's words.
    pub fn word_count(&self) -> usize
        ensures { result ≡ length self.now.words.items }
    {
        self.words.len()
    }
}
