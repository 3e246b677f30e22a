//! The ports that primitives have.
ghost use Rattle.std.specs.Prelude.{◌≡◌, length};
ghost use Rattle.hw_prims.specs.inside.Port.{IsPortAt, pins_listed};
ghost use Rattle.hw_prims.specs.inside.Pinout.{input_pins, output_pins};
ghost use Rattle.hw_prims.specs.Table.{inputs_of, outputs_of, IsMade};

use crate::prim::{Dir, PrimPort, Primitive};

/// The names and the widths of a primitive's ports, inputs first. Widths are in bits: `w` is that of the
/// data ports, `from` that of the inputs and `to` that of the output.
#[derive(Clone, Copy)]
pub enum Pinout {
    /// No input; out.
    Constant { to: u8 },
    /// in; out.
    Unary { from: u8, to: u8 },
    /// left and right; out.
    Binary { from: u8, to: u8 },
    /// sel, tru and fal; out.
    Choice { w: u8 },
    /// high and low; out.
    Joined { high: u8, low: u8, to: u8 },
    /// in and write_en; out and done.
    Register { w: u8 },
    /// addr0, write_data and write_en; read_data and done.
    MemoryD1 { w: u8, addr0: u8 },
    /// addr0, addr1, write_data and write_en; read_data and done.
    MemoryD2 { w: u8, addr0: u8, addr1: u8 },
    /// go, left and right; out and done.
    MultPipe { w: u8 },
    /// go, left and right; out.
    SeqMult { w: u8 },
}

/// The port at a place of a list, counted from 0.
fn pick(pins: &[(&'static str, u8)], dir: Dir, i: usize) -> Option<PrimPort>
    ensures { IsPortAt dir (pins_listed pins.now) i result }
{
    let (name, width) = *pins.get(i)?;
    Some(PrimPort { name, dir, width })
}

impl Pinout {
    /// The ports of the primitive. Widths that parameters out of range would give saturate.
    #[tactic(auto, unfolding(crate::specs::Table::inputs_of, crate::specs::Table::outputs_of, crate::specs::Table::is_made))]
    pub fn of(prim: Primitive) -> Pinout
        ensures inputs { inputs_of prim ≡ input_pins result }
        ensures outputs { IsMade prim → outputs_of prim ≡ output_pins result }
        ensures count { length (outputs_of prim) ≡ length (output_pins result) }
    {
        match prim {
            Primitive::StdConst { w, .. } => Pinout::Constant { to: w },
            Primitive::StdWire { w } => Pinout::Unary { from: w, to: w },
            Primitive::StdAdd { w } => Pinout::Binary { from: w, to: w },
            Primitive::StdSub { w } => Pinout::Binary { from: w, to: w },
            Primitive::StdAnd { w } => Pinout::Binary { from: w, to: w },
            Primitive::StdOr { w } => Pinout::Binary { from: w, to: w },
            Primitive::StdXor { w } => Pinout::Binary { from: w, to: w },
            Primitive::StdNot { w } => Pinout::Unary { from: w, to: w },
            Primitive::StdEq { w } => Pinout::Binary { from: w, to: 1 },
            Primitive::StdNeq { w } => Pinout::Binary { from: w, to: 1 },
            Primitive::StdLt { w } => Pinout::Binary { from: w, to: 1 },
            Primitive::StdGt { w } => Pinout::Binary { from: w, to: 1 },
            Primitive::StdLe { w } => Pinout::Binary { from: w, to: 1 },
            Primitive::StdGe { w } => Pinout::Binary { from: w, to: 1 },
            Primitive::StdLsh { w } => Pinout::Binary { from: w, to: w },
            Primitive::StdRsh { w } => Pinout::Binary { from: w, to: w },
            Primitive::StdSlice { i, o } => Pinout::Unary { from: i, to: o },
            Primitive::StdPad { i, o } => Pinout::Unary { from: i, to: o },
            Primitive::FilMux { w } => Pinout::Choice { w },
            Primitive::FilSlice { w, hi, lo } => Pinout::Unary {
                from: w,
                to: hi.saturating_sub(lo).saturating_add(1),
            },
            Primitive::FilConcat { a, b } => Pinout::Joined {
                high: a,
                low: b,
                to: a.saturating_add(b),
            },
            Primitive::StdReg { w } => Pinout::Register { w },
            Primitive::StdMemD1 { w, idx, .. } => Pinout::MemoryD1 { w, addr0: idx },
            Primitive::StdMemD2 { w, idx0, idx1, .. } => Pinout::MemoryD2 {
                w,
                addr0: idx0,
                addr1: idx1,
            },
            Primitive::StdMultPipe { w } => Pinout::MultPipe { w },
            Primitive::FilDelay { w } => Pinout::Unary { from: w, to: w },
            Primitive::FilFastMult { w } => Pinout::Binary { from: w, to: w },
            Primitive::FilSeqMult { w } => Pinout::SeqMult { w },
        }
    }

    /// The number of inputs.
    pub fn inputs(self) -> usize
        ensures { result ≡ length (input_pins self) }
    {
        match self {
            Pinout::Constant { .. } => 0,
            Pinout::Unary { .. } => 1,
            Pinout::Binary { .. } => 2,
            Pinout::Choice { .. } => 3,
            Pinout::Joined { .. } => 2,
            Pinout::Register { .. } => 2,
            Pinout::MemoryD1 { .. } => 3,
            Pinout::MemoryD2 { .. } => 4,
            Pinout::MultPipe { .. } => 3,
            Pinout::SeqMult { .. } => 3,
        }
    }

    /// The number of outputs.
    pub fn outputs(self) -> usize
        ensures { result ≡ length (output_pins self) }
    {
        match self {
            Pinout::Constant { .. } => 1,
            Pinout::Unary { .. } => 1,
            Pinout::Binary { .. } => 1,
            Pinout::Choice { .. } => 1,
            Pinout::Joined { .. } => 1,
            Pinout::Register { .. } => 2,
            Pinout::MemoryD1 { .. } => 2,
            Pinout::MemoryD2 { .. } => 2,
            Pinout::MultPipe { .. } => 2,
            Pinout::SeqMult { .. } => 1,
        }
    }

    /// An input, counted from 0; `None` past the last.
    pub fn input(self, i: usize) -> Option<PrimPort>
        ensures { IsPortAt Dir.Input (input_pins self) i result }
    {
        let dir = Dir::Input;
        match self {
            Pinout::Constant { .. } => None,
            Pinout::Unary { from, .. } => pick(&[("in", from)], dir, i),
            Pinout::Binary { from, .. } => pick(&[("left", from), ("right", from)], dir, i),
            Pinout::Choice { w } => pick(&[("sel", 1), ("tru", w), ("fal", w)], dir, i),
            Pinout::Joined { high, low, .. } => pick(&[("high", high), ("low", low)], dir, i),
            Pinout::Register { w } => pick(&[("in", w), ("write_en", 1)], dir, i),
            Pinout::MemoryD1 { w, addr0 } => {
                pick(
                    &[("addr0", addr0), ("write_data", w), ("write_en", 1)],
                    dir,
                    i,
                )
            }
            Pinout::MemoryD2 { w, addr0, addr1 } => {
                pick(
                    &[
                        ("addr0", addr0),
                        ("addr1", addr1),
                        ("write_data", w),
                        ("write_en", 1),
                    ],
                    dir,
                    i,
                )
            }
            Pinout::MultPipe { w } | Pinout::SeqMult { w } => {
                pick(&[("go", 1), ("left", w), ("right", w)], dir, i)
            }
        }
    }

    /// An output, counted from 0; `None` past the last.
    pub fn output(self, i: usize) -> Option<PrimPort>
        ensures { IsPortAt Dir.Output (output_pins self) i result }
    {
        let dir = Dir::Output;
        match self {
            Pinout::Constant { to } => pick(&[("out", to)], dir, i),
            Pinout::Unary { to, .. } => pick(&[("out", to)], dir, i),
            Pinout::Binary { to, .. } => pick(&[("out", to)], dir, i),
            Pinout::Choice { w } => pick(&[("out", w)], dir, i),
            Pinout::Joined { to, .. } => pick(&[("out", to)], dir, i),
            Pinout::Register { w } => pick(&[("out", w), ("done", 1)], dir, i),
            Pinout::MemoryD1 { w, .. } => pick(&[("read_data", w), ("done", 1)], dir, i),
            Pinout::MemoryD2 { w, .. } => pick(&[("read_data", w), ("done", 1)], dir, i),
            Pinout::MultPipe { w } => pick(&[("out", w), ("done", 1)], dir, i),
            Pinout::SeqMult { w } => pick(&[("out", w)], dir, i),
        }
    }
}
