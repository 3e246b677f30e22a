//! What the primitives without a state compute.
ghost use Rattle.std.specs.Prelude.{◌≡◌, ◌==◌, ◌≤◌, [], ◌∷◌, true};
ghost use Rattle.hw_bits.specs.Values.{values_of};
ghost use Rattle.hw_bits.specs.declared.bits.TheConstants.{MAX_WIDTH};
ghost use Rattle.hw_prims.specs.Cell.{AreInputs};
ghost use Rattle.hw_prims.specs.Meaning.{bit, is_stateless, output_values};
ghost use Rattle.hw_prims.specs.State.{Stateless};
ghost use Rattle.hw_prims.specs.Table.{IsMade, outputs_of, pin_widths};

use crate::prim::Primitive;
use hw_bits::Bits;

/// A single bit.
pub fn bit(on: bool) -> Bits
    ensures value { result.value ≡ bit on }
    ensures width { result.width ≡ 1 }
{
    Bits::wrap(on as u128, 1)
}

/// Whether the value is 1.
pub fn is_on(bits: Bits) -> bool
    ensures { result ≡ (bits.value == 1) }
{
    bits.value() == 1
}

/// The number 0.
pub fn zero(width: u8) -> Bits
    requires wide { 1 ≤ width }
    requires narrow { width ≤ MAX_WIDTH }
    ensures value { result.value ≡ 0 }
    ensures width { result.width ≡ width }
{
    Bits::wrap(0, width)
}

impl Primitive {
    /// The output of a primitive without a state.
    #[tactic(auto, using(crate::proofs::GateLemmas::constant_value), unfolding(crate::specs::Table::inputs_of, crate::specs::Table::outputs_of, crate::specs::Table::is_made, crate::specs::Meaning::output_values, crate::specs::Meaning::is_stateless, crate::specs::Memory::keeps_words))]
    pub fn combine(self, inputs: &[Bits]) -> Bits
        requires stateless { is_stateless self ≡ true }
        requires made { IsMade self }
        requires inputs { AreInputs self inputs.now }
        ensures value { output_values self Stateless (values_of inputs.now) ≡ result.value ∷ [] }
        ensures width { pin_widths (outputs_of self) ≡ result.width ∷ [] }
    {
        match self {
            Primitive::StdConst { w, v } => Bits::wrap(v, w),
            Primitive::StdWire { .. } => inputs[0],
            Primitive::StdAdd { .. } => inputs[0].add(inputs[1]),
            Primitive::StdSub { .. } => inputs[0].sub(inputs[1]),
            Primitive::StdAnd { .. } => inputs[0].and(inputs[1]),
            Primitive::StdOr { .. } => inputs[0].or(inputs[1]),
            Primitive::StdXor { .. } => inputs[0].xor(inputs[1]),
            Primitive::StdNot { .. } => inputs[0].not(),
            Primitive::StdEq { .. } => bit(inputs[0].same(inputs[1])),
            Primitive::StdNeq { .. } => bit(!inputs[0].same(inputs[1])),
            Primitive::StdLt { .. } => bit(inputs[0].less(inputs[1])),
            Primitive::StdGt { .. } => bit(inputs[1].less(inputs[0])),
            Primitive::StdLe { .. } => bit(!inputs[1].less(inputs[0])),
            Primitive::StdGe { .. } => bit(!inputs[0].less(inputs[1])),
            Primitive::StdLsh { .. } => inputs[0].lsh(inputs[1]),
            Primitive::StdRsh { .. } => inputs[0].rsh(inputs[1]),
            Primitive::StdSlice { o, .. } => inputs[0].slice(o - 1, 0),
            Primitive::StdPad { o, .. } => inputs[0].pad(o),
            Primitive::FilMux { .. } => if is_on(inputs[0]) {
                inputs[1]
            } else {
                inputs[2]
            },
            Primitive::FilSlice { hi, lo, .. } => inputs[0].slice(hi, lo),
            Primitive::FilConcat { .. } => inputs[0].concat(inputs[1]),
            _ => unreachable!(),
        }
    }
}
