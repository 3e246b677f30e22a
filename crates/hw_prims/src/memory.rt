//! The words of memories.
ghost use Rattle.std.specs.Prelude.{◌≡◌, ◌<◌, ◌==◌, ◌+◌, true, IfSome, SomeIff, slice_index, if◌then◌else◌};
ghost use Rattle.hw_bits.specs.Values.{values_of};
ghost use Rattle.hw_prims.specs.Cell.{AreInputs};
ghost use Rattle.hw_prims.specs.Kept.{AreWords};
ghost use Rattle.hw_prims.specs.Memory.{place_of, word_at, words_with, word_count, word_width, keeps_words, address_count};
ghost use Rattle.hw_prims.specs.Table.{IsMade};

use crate::gate::{is_on, zero};
use crate::prim::Primitive;
use hw_bits::Bits;

/// The address, where it is below the size.
fn within(address: Bits, size: u64) -> Option<u64>
    ensures { SomeIff result (address.value < size) address.value }
{
    if address.value() < size as u128 {
        Some(address.value() as u64)
    } else {
        None
    }
}

#[tactic(auto, unfolding(crate::specs::Table::inputs_of, crate::specs::Table::is_made, crate::specs::Memory::place_of, crate::specs::Memory::keeps_words, crate::specs::Memory::address_count, crate::specs::Memory::word_count, crate::specs::Memory::word_width))]
impl Primitive {
    /// The number of a memory's words; 0 for what isn't a memory.
    pub fn word_count(self) -> u64
        requires { IsMade self }
        ensures { result ≡ word_count self }
    {
        match self {
            Primitive::StdMemD1 { size, .. } => size,
            Primitive::StdMemD2 { size0, size1, .. } => size0 * size1,
            _ => 0,
        }
    }

    /// The width of a memory's words, in bits; 0 for what isn't a memory.
    pub fn word_width(self) -> u8
        ensures { result ≡ word_width self }
    {
        match self {
            Primitive::StdMemD1 { w, .. } => w,
            Primitive::StdMemD2 { w, .. } => w,
            _ => 0,
        }
    }

    /// The number of addresses of a memory.
    fn addresses(self) -> usize
        ensures { result ≡ address_count self }
    {
        match self {
            Primitive::StdMemD1 { .. } => 1,
            Primitive::StdMemD2 { .. } => 2,
            _ => 0,
        }
    }

    /// The number of the word that the inputs address; `None` where an address is out of range.
    fn place(self, inputs: &[Bits]) -> Option<usize>
        requires made { IsMade self }
        requires inputs { AreInputs self inputs.now }
        ensures place { result ≡ place_of self (values_of inputs.now) }
        ensures within { IfSome result (λ place. place < word_count self) }
    {
        match self {
            Primitive::StdMemD1 { size, .. } => Some(within(inputs[0], size)? as usize),
            Primitive::StdMemD2 { size0, size1, .. } => {
                let row = within(inputs[0], size0)?;
                let column = within(inputs[1], size1)?;
                Some((row * size1 + column) as usize)
            }
            _ => None,
        }
    }

    /// The word that the inputs address; 0 out of range.
    pub fn read(self, words: &[Bits], inputs: &[Bits]) -> Bits
        requires made { IsMade self }
        requires memory { keeps_words self ≡ true }
        requires words { AreWords self words.now }
        requires inputs { AreInputs self inputs.now }
        ensures value { result.value
            ≡ word_at (values_of words.now) (place_of self (values_of inputs.now)) }
        ensures width { result.width ≡ word_width self }
    {
        match self.place(inputs) {
            Some(place) => words[place],
            None => zero(self.word_width()),
        }
    }

    /// The edge of a memory: whether it is written, and the word that the inputs address takes the data.
    #[tactic(auto, unfolding(crate::specs::Table::inputs_of, crate::specs::Memory::keeps_words, crate::specs::Memory::address_count, crate::specs::Memory::word_width))]
    pub fn write(self, words: &mut [Bits], inputs: &[Bits]) -> bool
        requires made { IsMade self }
        requires memory { keeps_words self ≡ true }
        requires words { AreWords self words.old }
        requires inputs { AreInputs self inputs.now }
        ensures on { result ≡ (slice_index (values_of inputs.now) (address_count self + 1) == 1) }
        ensures words { values_of words.new
            ≡ (if result
            then words_with (values_of words.old) (place_of self (values_of inputs.now)) (slice_index (values_of inputs.now) (address_count self))
            else values_of words.old) }
        ensures widths { AreWords self words.new }
    {
        let data = self.addresses();
        if !is_on(inputs[data + 1]) {
            return false;
        }
        if let Some(place) = self.place(inputs) {
            words[place] = inputs[data];
        }
        true
    }
}
