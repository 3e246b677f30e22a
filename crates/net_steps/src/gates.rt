//! Primitives without a state, as steps.
ghost use Rattle.std.specs.Prelude.{[], ◌∷◌, ◌==◌, nat_lt, not, slice_index, IfOk};
ghost use Rattle.hw_bits.specs.Width.{product_bits};
ghost use Rattle.hw_prims.specs.Meaning.{bit};
ghost use Rattle.net_steps.specs.Gates.{AddsGate, IsGate, IsMask};
ghost use Rattle.net_steps.specs.Operations.{is_on};
ghost use Rattle.net_steps.specs.Steps.{AddsSlot};

use crate::drivers::chosen_slot;
use crate::operation::Operation;
use crate::steps::{ProgramEnd, Steps};
use crate::truth::{known_equal, known_less};
use hw_prims::Prim;

/// The number with the low bits of this width 1, and no other.
pub fn ones(width: u8) -> Result<u64, ProgramEnd>
    ensures { IfOk result (IsMask width) }
{
    if width == 0 || width > 64 {
        return Err(ProgramEnd::Unfit);
    }
    Ok(u64::MAX >> (64 - width))
}

/// The slot of a number.
pub fn constant(steps: &mut Steps, number: u128) -> Result<u32, ProgramEnd>
    ensures { IfOk result (AddsSlot steps.old steps.new (λ others slots. number)) }
{
    if number > u64::MAX as u128 {
        return Err(ProgramEnd::Unfit);
    }
    Ok(steps.define(Operation::Constant(number as u64))?)
}

/// What a primitive makes of one input, in one step.
fn step_of_one(prim: Prim, a: u32) -> Result<Operation, ProgramEnd>
    ensures { IfOk result (IsGate prim (a ∷ [])) }
{
    match prim {
        Prim::StdNot { w } => {
            let mask = ones(w)?;
            Ok(Operation::Invert { a, mask })
        }
        Prim::StdSlice { o, .. } => {
            let mask = ones(o)?;
            Ok(Operation::Cut { a, low: 0, mask })
        }
        Prim::FilSlice { hi, lo, .. } => {
            if hi >= 64 || lo > hi {
                return Err(ProgramEnd::Unfit);
            }
            let mask = ones(hi - lo + 1)?;
            Ok(Operation::Cut { a, low: lo, mask })
        }
        _ => Err(ProgramEnd::Unfit),
    }
}

/// What a primitive makes of two inputs, in one step.
fn step_of_two(prim: Prim, a: u32, b: u32) -> Result<Operation, ProgramEnd>
    ensures { IfOk result (IsGate prim (a ∷ b ∷ [])) }
{
    match prim {
        Prim::StdAdd { w } => {
            let mask = ones(w)?;
            Ok(Operation::Add { a, b, mask })
        }
        Prim::StdSub { w } => {
            let mask = ones(w)?;
            Ok(Operation::Subtract { a, b, mask })
        }
        Prim::StdAnd { .. } => Ok(Operation::And { a, b }),
        Prim::StdOr { .. } => Ok(Operation::Or { a, b }),
        Prim::StdXor { .. } => Ok(Operation::Xor { a, b }),
        Prim::StdLsh { w } => {
            let mask = ones(w)?;
            Ok(Operation::ShiftLeft { a, by: b, mask })
        }
        Prim::StdRsh { w } => {
            let _mask = ones(w)?;
            Ok(Operation::ShiftRight { a, by: b })
        }
        Prim::FilConcat { a: above, b: shift } => {
            if shift >= 64 || above > 64 - shift {
                return Err(ProgramEnd::Unfit);
            }
            Ok(Operation::Join {
                high: a,
                low: b,
                shift,
            })
        }
        _ => Err(ProgramEnd::Unfit),
    }
}

/// The slot of what a primitive makes of no input.
pub fn gate_of_none(steps: &mut Steps, prim: Prim) -> Result<u32, ProgramEnd>
    ensures { IfOk result (AddsGate steps.old steps.new prim []) }
{
    match prim {
        Prim::StdConst { v, .. } => constant(steps, v),
        _ => Err(ProgramEnd::Unfit),
    }
}

/// The slot of what a primitive makes of one input.
pub fn gate_of_one(steps: &mut Steps, prim: Prim, a: u32) -> Result<u32, ProgramEnd>
    ensures { IfOk result (AddsGate steps.old steps.new prim (a ∷ [])) }
{
    match prim {
        Prim::StdWire { .. } => Ok(a),
        Prim::StdPad { .. } => Ok(a),
        _ => {
            let step = step_of_one(prim, a)?;
            Ok(steps.define(step)?)
        }
    }
}

/// The slot of what a primitive makes of two inputs.
pub fn gate_of_two(steps: &mut Steps, prim: Prim, a: u32, b: u32) -> Result<u32, ProgramEnd>
    ensures { IfOk result (AddsGate steps.old steps.new prim (a ∷ b ∷ [])) }
{
    match prim {
        Prim::StdEq { .. } => equal_bit(steps, a, b),
        Prim::StdNeq { .. } => {
            let equal = equal_bit(steps, a, b)?;
            not_on(steps, equal)
        }
        Prim::StdLt { .. } => less_bit(steps, a, b),
        Prim::StdGt { .. } => less_bit(steps, b, a),
        Prim::StdLe { .. } => {
            let greater = less_bit(steps, b, a)?;
            not_on(steps, greater)
        }
        Prim::StdGe { .. } => {
            let less = less_bit(steps, a, b)?;
            not_on(steps, less)
        }
        _ => {
            let step = step_of_two(prim, a, b)?;
            Ok(steps.define(step)?)
        }
    }
}

/// The slot of what a primitive makes of three inputs.
pub fn gate_of_three(
    steps: &mut Steps,
    prim: Prim,
    on: u32,
    value: u32,
    other: u32,
) -> Result<u32, ProgramEnd>
    ensures { IfOk result (AddsGate steps.old steps.new prim (on ∷ value ∷ other ∷ [])) }
{
    match prim {
        Prim::FilMux { .. } => Ok(chosen_slot(steps, on, value, other)?),
        _ => Err(ProgramEnd::Unfit),
    }
}

/// A slot that is 1 where two slots are equal, else 0.
fn equal_bit(steps: &mut Steps, a: u32, b: u32) -> Result<u32, ProgramEnd>
    ensures { IfOk result
        (AddsSlot steps.old steps.new (λ others slots. bit (slice_index slots a == slice_index slots b))) }
{
    match known_equal(steps, a, b) {
        Some(same) => Ok(steps.define(Operation::Constant(same as u64))?),
        None => Ok(steps.define(Operation::Equal { a, b })?),
    }
}

/// A slot that is 1 where the slot `a` is below the slot `b`, else 0.
fn less_bit(steps: &mut Steps, a: u32, b: u32) -> Result<u32, ProgramEnd>
    ensures { IfOk result
        (AddsSlot steps.old steps.new (λ others slots. bit (nat_lt (slice_index slots a) (slice_index slots b)))) }
{
    match known_less(steps, a, b) {
        Some(below) => Ok(steps.define(Operation::Constant(below as u64))?),
        None => Ok(steps.define(Operation::Less { a, b })?),
    }
}

/// A slot that is 1 where another is not, else 0.
fn not_on(steps: &mut Steps, slot: u32) -> Result<u32, ProgramEnd>
    ensures { IfOk result (AddsSlot steps.old steps.new (λ others slots. bit (not (is_on slots slot)))) }
{
    if let Some(number) = steps.number(slot) {
        return Ok(steps.define(Operation::Constant((number != 1) as u64))?);
    }
    let one = steps.define(Operation::Constant(1))?;
    Ok(steps.define(Operation::ButNot { a: one, b: slot })?)
}

/// The slot of the low bits of a product of two slots.
pub fn product(steps: &mut Steps, width: u8, a: u32, b: u32) -> Result<u32, ProgramEnd>
    ensures { IfOk result
        (AddsSlot steps.old steps.new (λ others slots. product_bits width (slice_index slots a) (slice_index slots b))) }
{
    let mask = ones(width)?;
    Ok(steps.define(Operation::Multiply { a, b, mask })?)
}
