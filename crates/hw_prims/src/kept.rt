//! What cells keep from one row to the next.
ghost use Rattle.std.specs.Prelude.{◌≡◌, ◌<◌, ◌==◌, [], ◌∷◌, length, slice_get, slice_index, Some, IfOk};
ghost use Rattle.hw_bits.specs.Values.{values_of};
ghost use Rattle.hw_bits.specs.Width.{product_bits};
ghost use Rattle.hw_prims.specs.Cell.{AreInputs};
ghost use Rattle.hw_prims.specs.Kept.{state_of, IsKept};
ghost use Rattle.hw_prims.specs.Meaning.{bit, output_values, next_state, opening_state, next_mult_pipe, next_seq_mult};
ghost use Rattle.hw_prims.specs.Memory.{word_count, word_width, state_with_word};
ghost use Rattle.hw_prims.specs.State.{memory_words};
ghost use Rattle.hw_prims.specs.State as state;
ghost use Rattle.hw_prims.specs.Table.{IsMade, outputs_of, pin_widths};

use crate::gate::{bit, is_on, zero};
use crate::phase::Phase;
use crate::prim::Primitive;
use hw_bits::{Bits, Memory};
use std::alloc::Global;

/// What a cell keeps from one row to the next.
#[derive(Drop)]
pub enum Kept {
    Stateless,
    Register { out: Bits, done: bool },
    Memory { words: Vec<Bits>, done: bool },
    MultPipe { phase: Phase, kept: Bits, out: Bits },
    Delay { kept: Bits },
    FastMult { first: Bits, second: Bits },
    SeqMult { phase: Phase, kept: Bits },
}

/// The edge of std_mult_pipe.
fn step_mult_pipe(
    phase: &mut Phase,
    kept: &mut Bits,
    out: &mut Bits,
    go: bool,
    left: Bits,
    right: Bits,
)
    requires kept { kept.old.width ≡ out.old.width }
    requires left { left.width ≡ out.old.width }
    requires right { right.width ≡ out.old.width }
    ensures state { state.MultPipe phase.new kept.new.value out.new.value
        ≡ next_mult_pipe phase.old kept.old.value out.old.value (product_bits out.old.width left.value right.value) go }
    ensures kept { kept.new.width ≡ out.old.width }
    ensures out { out.new.width ≡ out.old.width }
{
    *phase = match *phase {
        Phase::Idle if go => {
            *kept = left.mul(right);
            Phase::First
        }
        Phase::First if go => Phase::Second,
        Phase::Second if go => {
            *out = *kept;
            Phase::Third
        }
        _ => Phase::Idle,
    };
}

/// The edge of fil_seq_mult.
fn step_seq_mult(phase: &mut Phase, kept: &mut Bits, go: bool, left: Bits, right: Bits)
    requires left { left.width ≡ kept.old.width }
    requires right { right.width ≡ kept.old.width }
    ensures state { state.SeqMult phase.new kept.new.value
        ≡ next_seq_mult phase.old kept.old.value (product_bits kept.old.width left.value right.value) go }
    ensures kept { kept.new.width ≡ kept.old.width }
{
    *phase = match *phase {
        Phase::Idle if go => {
            *kept = left.mul(right);
            Phase::First
        }
        Phase::First => Phase::Second,
        _ => Phase::Idle,
    };
}

#[tactic(auto, using(crate::proofs::KeptLemmas::no_words_padded, crate::proofs::KeptLemmas::values_of_equal, crate::proofs::KeptLemmas::values_of_set), unfolding(crate::specs::Table::inputs_of, crate::specs::Table::outputs_of, crate::specs::Table::is_made, crate::specs::Meaning::opening_state, crate::specs::Meaning::output_values, crate::specs::Meaning::next_state, crate::specs::Meaning::is_stateless, crate::specs::Memory::keeps_words, crate::specs::Memory::address_count, crate::specs::Memory::word_count, crate::specs::Memory::word_width))]
impl Kept {
    /// The state before the first row: all 0. Takes memory for a memory's words alone.
    pub fn new(alloc: Global, prim: Primitive) -> Result<Kept, Memory>
        requires { IsMade prim }
        ensures kept { IfOk result (IsKept prim) }
        ensures state { IfOk result (λ kept. state_of kept ≡ opening_state prim []) }
    {
        match prim {
            Primitive::StdReg { w } => Ok(Kept::Register {
                out: zero(w),
                done: false,
            }),
            Primitive::StdMemD1 { w, size, .. } => {
                let words = vec![in alloc; zero(w); size as usize]?;
                Ok(Kept::Memory { words, done: false })
            }
            Primitive::StdMemD2 {
                w,
                size0,
                size1,
                ..
            } => {
                let words = vec![in alloc; zero(w); (size0 * size1) as usize]?;
                Ok(Kept::Memory { words, done: false })
            }
            Primitive::StdMultPipe { w } => Ok(Kept::MultPipe {
                phase: Phase::Idle,
                kept: zero(w),
                out: zero(w),
            }),
            Primitive::FilDelay { w } => Ok(Kept::Delay { kept: zero(w) }),
            Primitive::FilFastMult { w } => Ok(Kept::FastMult {
                first: zero(w),
                second: zero(w),
            }),
            Primitive::FilSeqMult { w } => Ok(Kept::SeqMult {
                phase: Phase::Idle,
                kept: zero(w),
            }),
            _ => Ok(Kept::Stateless),
        }
    }

    /// The value of an output; outputs are counted from 0.
    pub fn comb(&self, prim: Primitive, inputs: &[Bits], output: usize) -> Bits
        requires kept { IsKept prim self.now }
        requires inputs { AreInputs prim inputs.now }
        requires output { output < length (outputs_of prim) }
        ensures value { result.value
            ≡ slice_index (output_values prim (state_of self.now) (values_of inputs.now)) output }
        ensures width { slice_get (pin_widths (outputs_of prim)) output ≡ Some result.width }
    {
        match self {
            Kept::Stateless => prim.combine(inputs),
            Kept::Register { out, done } => out_or_done(output, *out, *done),
            Kept::Memory { words, done } => {
                if output == 0 {
                    prim.read(words, inputs)
                } else {
                    bit(*done)
                }
            }
            Kept::MultPipe { phase, out, .. } => {
                out_or_done(output, *out, matches!(phase, Phase::Third))
            }
            Kept::Delay { kept } => *kept,
            Kept::FastMult { second, .. } => *second,
            Kept::SeqMult {
                phase: Phase::Second,
                kept,
            } => *kept,
            Kept::SeqMult { kept, .. } => zero(kept.width()),
        }
    }

    /// The edge that ends a row.
    pub fn step(&mut self, prim: Primitive, inputs: &[Bits])
        requires kept { IsKept prim self.old }
        requires inputs { AreInputs prim inputs.now }
        ensures kept { IsKept prim self.new }
        ensures state { state_of self.new ≡ next_state prim (state_of self.old) (values_of inputs.now) }
    {
        match self {
            Kept::Stateless => {}
            Kept::Register { out, done } => {
                *done = is_on(inputs[1]);
                if *done {
                    *out = inputs[0];
                }
            }
            Kept::Memory { words, done } => *done = prim.write(words, inputs),
            Kept::MultPipe { phase, kept, out } => {
                step_mult_pipe(phase, kept, out, is_on(inputs[0]), inputs[1], inputs[2]);
            }
            Kept::Delay { kept } => *kept = inputs[0],
            Kept::FastMult { first, second } => {
                *second = *first;
                *first = inputs[0].mul(inputs[1]);
            }
            Kept::SeqMult { phase, kept } => {
                step_seq_mult(phase, kept, is_on(inputs[0]), inputs[1], inputs[2]);
            }
        }
    }

    /// Puts a word into a memory.
    pub fn load(&mut self, prim: Primitive, at: usize, word: Bits)
        requires kept { IsKept prim self.old }
        requires at { at < word_count prim }
        requires width { word.width ≡ word_width prim }
        ensures kept { IsKept prim self.new }
        ensures state { state_of self.new ≡ state_with_word (state_of self.old) at word.value }
    {
        if let Kept::Memory { words, .. } = self {
            words[at] = word;
        }
    }

    /// A word of a memory.
    pub fn word(&self, prim: Primitive, at: usize) -> Bits
        requires kept { IsKept prim self.now }
        requires at { at < word_count prim }
        ensures value { result.value ≡ slice_index (memory_words (state_of self.now)) at }
        ensures width { result.width ≡ word_width prim }
    {
        match self {
            Kept::Memory { words, .. } => words[at],
            _ => unreachable!(),
        }
    }

    /// The number of its words; 0 for what isn't a memory.
    pub fn word_count(&self, prim: Primitive) -> usize
        requires { IsKept prim self.now }
        ensures prim { result ≡ word_count prim }
        ensures state { result ≡ length (memory_words (state_of self.now)) }
    {
        match self {
            Kept::Memory { words, .. } => words.len(),
            _ => 0,
        }
    }
}

/// The outputs of what has an `out` and a `done`.
fn out_or_done(output: usize, out: Bits, done: bool) -> Bits
    requires { output < 2 }
    ensures value { result.value ≡ slice_index (out.value ∷ bit done ∷ []) output }
    ensures width { slice_get (out.width ∷ 1 ∷ []) output ≡ Some result.width }
{
    if output == 0 { out } else { bit(done) }
}
