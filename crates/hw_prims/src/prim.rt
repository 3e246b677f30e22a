//! The table of primitives: names, parameters and ports.
ghost use Rattle.std.specs.Prelude.{◌≡◌, ◌*◌, ◌<◌, ◌≤◌, ◌↔◌, ◌&&◌, true, false, nat_le, length, slice_get, Some, None, IfSome, IfOk, MatchOption};
ghost use Rattle.hw_prims.specs.Table.{prim_of, is_primitive, is_made, IsMade, is_width, inputs_of, outputs_of, pins_of, pin, name_at};
ghost use Rattle.hw_prims.specs.Meaning.{is_through};

use crate::name::PrimName;
use crate::pinout::Pinout;
use hw_bits::{Bits, MAX_WIDTH};

/// The greatest number of words of a memory.
pub const MAX_WORDS: u64 = 65_536;

/// A primitive with its parameters.
#[derive(Clone, Copy, Debug, PartialEq, Eq)]
pub enum Primitive {
    /// The constant `v`.
    StdConst {
        w: u8,
        v: u128,
    },
    /// A wire of `w` bits.
    StdWire {
        w: u8,
    },
    /// The sum, modulo `2 ^ w`.
    StdAdd {
        w: u8,
    },
    /// The difference, modulo `2 ^ w`.
    StdSub {
        w: u8,
    },
    /// The bits that are 1 in both.
    StdAnd {
        w: u8,
    },
    /// The bits that are 1 in either.
    StdOr {
        w: u8,
    },
    /// The bits that differ.
    StdXor {
        w: u8,
    },
    /// Each bit inverted.
    StdNot {
        w: u8,
    },
    /// Whether the operands are equal.
    StdEq {
        w: u8,
    },
    /// Whether the operands differ.
    StdNeq {
        w: u8,
    },
    /// Whether left is below right.
    StdLt {
        w: u8,
    },
    /// Whether left is above right.
    StdGt {
        w: u8,
    },
    /// Whether left is at most right.
    StdLe {
        w: u8,
    },
    /// Whether left is at least right.
    StdGe {
        w: u8,
    },
    /// Left shifted up by right; by `w` or more it is 0.
    StdLsh {
        w: u8,
    },
    /// Left shifted down by right; by `w` or more it is 0.
    StdRsh {
        w: u8,
    },
    /// The low `o` of `i` bits.
    StdSlice {
        i: u8,
        o: u8,
    },
    /// The `i` bits with zeros above, `o` bits in all.
    StdPad {
        i: u8,
        o: u8,
    },
    /// One of two values of `w` bits.
    FilMux {
        w: u8,
    },
    /// The bits `hi` down to `lo` of `w` bits.
    FilSlice {
        w: u8,
        hi: u8,
        lo: u8,
    },
    /// `a` bits above `b` bits.
    FilConcat {
        a: u8,
        b: u8,
    },
    /// A register of `w` bits.
    StdReg {
        w: u8,
    },
    /// A memory of `size` words of `w` bits, with an address of `idx` bits.
    StdMemD1 {
        w: u8,
        size: u64,
        idx: u8,
    },
    /// A memory of `size0` rows of `size1` words of `w` bits, with two addresses.
    StdMemD2 {
        w: u8,
        size0: u64,
        size1: u64,
        idx0: u8,
        idx1: u8,
    },
    /// A product of `w` bits, three rows after its operands, while go stays.
    StdMultPipe {
        w: u8,
    },
    /// The input of the row before.
    FilDelay {
        w: u8,
    },
    /// The product of the operands two rows before.
    FilFastMult {
        w: u8,
    },
    /// A product of `w` bits, in the second row after go.
    FilSeqMult {
        w: u8,
    },
}

/// The short name for a primitive.
pub type Prim = Primitive;

/// Whether a port is read or driven by the primitive.
#[derive(Clone, Copy, Debug, PartialEq, Eq)]
pub enum Dir {
    Input,
    Output,
}

/// A port of a primitive, and its width in bits.
#[derive(Clone, Copy, Debug)]
pub struct PrimPort {
    pub name: &'static str,
    pub dir: Dir,
    pub width: u8,
}

/// Why no primitive is made.
#[derive(Clone, Copy, Debug, PartialEq, Eq)]
pub enum PrimEnd {
    /// The table doesn't have the name.
    UnknownPrim,
    /// The number or the range of the parameters is wrong.
    BadParams,
}

/// Whether a width is 1 to 128 bits.
fn is_width(w: u8) -> bool
    ensures { result ≡ is_width w }
{
    w >= 1 && w <= MAX_WIDTH
}

/// Whether a memory may have so many rows of so many words.
fn is_grid(rows: u64, row: u64) -> bool
    ensures { result ≡ (nat_le 1 rows && nat_le 1 row && nat_le (rows * row) MAX_WORDS) }
{
    rows >= 1 && row >= 1 && rows as u128 * row as u128 <= MAX_WORDS as u128
}

impl Primitive {
    /// The primitive of this name with these parameters, in the table's order. `comb_mem_d1` and `comb_mem_d2` are
    /// second names of `std_mem_d1` and `std_mem_d2`. `UnknownPrim` where the table doesn't have the name, else
    /// `BadParams` where the number or the range of the parameters is wrong.
    #[tactic(auto, unfolding(crate::specs::Table::prim_of, crate::specs::Table::is_primitive))]
    pub fn make(name: &[u8], params: &[u128]) -> Result<Primitive, PrimEnd>
        ensures made { IfOk result
            (λ prim. (prim_of name.now params.now ≡ Some prim) × IsMade prim) }
        ensures unknown { (result ≡ Err PrimEnd.UnknownPrim) ↔ (is_primitive name.now ≡ false) }
        ensures bad { (result ≡ Err PrimEnd.BadParams)
            ↔ ((is_primitive name.now ≡ true) × (prim_of name.now params.now ≡ None)) }
    {
        let known = PrimName::of(name).ok_or(PrimEnd::UnknownPrim)?;
        match known.with(params) {
            Some(prim) if prim.is_made() => Ok(prim),
            _ => Err(PrimEnd::BadParams),
        }
    }

    /// Whether the parameters are in their range.
    #[tactic(auto, unfolding(crate::specs::Table::is_made))]
    fn is_made(self) -> bool
        ensures { result ≡ is_made self }
    {
        match self {
            Primitive::StdConst { w, v } => Bits::new(v, w).is_some(),
            Primitive::StdWire { w } => is_width(w),
            Primitive::StdAdd { w } => is_width(w),
            Primitive::StdSub { w } => is_width(w),
            Primitive::StdAnd { w } => is_width(w),
            Primitive::StdOr { w } => is_width(w),
            Primitive::StdXor { w } => is_width(w),
            Primitive::StdNot { w } => is_width(w),
            Primitive::StdEq { w } => is_width(w),
            Primitive::StdNeq { w } => is_width(w),
            Primitive::StdLt { w } => is_width(w),
            Primitive::StdGt { w } => is_width(w),
            Primitive::StdLe { w } => is_width(w),
            Primitive::StdGe { w } => is_width(w),
            Primitive::StdLsh { w } => is_width(w),
            Primitive::StdRsh { w } => is_width(w),
            Primitive::StdSlice { i, o } => is_width(i) && is_width(o) && o <= i,
            Primitive::StdPad { i, o } => is_width(i) && is_width(o) && i <= o,
            Primitive::FilMux { w } => is_width(w),
            Primitive::FilSlice { w, hi, lo } => is_width(w) && lo <= hi && hi < w,
            Primitive::FilConcat { a, b } => is_width(a) && is_width(b) && a <= MAX_WIDTH - b,
            Primitive::StdReg { w } => is_width(w),
            Primitive::StdMemD1 { w, size, idx } => is_width(w)
                && size >= 1
                && size <= MAX_WORDS
                && is_width(idx),
            Primitive::StdMemD2 {
                w,
                size0,
                size1,
                idx0,
                idx1,
            } => is_width(w) && is_grid(size0, size1) && is_width(idx0) && is_width(idx1),
            Primitive::StdMultPipe { w } => is_width(w),
            Primitive::FilDelay { w } => is_width(w),
            Primitive::FilFastMult { w } => is_width(w),
            Primitive::FilSeqMult { w } => is_width(w),
        }
    }

    /// The number of inputs.
    pub fn inputs(self) -> usize
        ensures { result ≡ length (inputs_of self) }
    {
        Pinout::of(self).inputs()
    }

    /// The number of outputs.
    pub fn outputs(self) -> usize
        ensures { result ≡ length (outputs_of self) }
    {
        Pinout::of(self).outputs()
    }

    /// A port, counted from 0: inputs first, then outputs, each in the table's order.
    /// `None` past the last.
    pub fn port(self, i: usize) -> Option<PrimPort>
        requires { IsMade self }
        ensures pin { MatchOption result
            (length (pins_of self) ≤ i)
            (λ port. slice_get (pins_of self) i ≡ Some (pin port.name.now port.width)) }
        ensures dir { IfSome result (λ port. (port.dir ≡ Dir.Input) ↔ (i < length (inputs_of self))) }
    {
        let pinout = Pinout::of(self);
        let inputs = pinout.inputs();
        if i < inputs {
            pinout.input(i)
        } else {
            pinout.output(i - inputs)
        }
    }

    /// Whether the output depends on the input within a row; inputs and outputs are counted from 0.
    #[tactic(auto, unfolding(crate::specs::Table::inputs_of, crate::specs::Table::outputs_of, crate::specs::Meaning::is_through))]
    pub fn through(self, input: usize, output: usize) -> bool
        requires input { input < length (inputs_of self) }
        requires output { output < length (outputs_of self) }
        ensures { result
            ≡ is_through self (name_at (inputs_of self) input) (name_at (outputs_of self) output) }
    {
        match self {
            Primitive::StdMemD1 { .. } => input < 1 && output == 0,
            Primitive::StdMemD2 { .. } => input < 2 && output == 0,
            Primitive::StdReg { .. }
            | Primitive::StdMultPipe { .. }
            | Primitive::FilDelay { .. }
            | Primitive::FilFastMult { .. }
            | Primitive::FilSeqMult { .. } => false,
            _ => true,
        }
    }
}
