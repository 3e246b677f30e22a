//! The names of the table, and the parameters that each takes.
ghost use Rattle.std.specs.Prelude.{◌≡◌, [], ◌∷◌, ◌<◌, ◌^◌, None, Some, SomeIff, MatchOption, map, option_and_then};
ghost use Rattle.hw_prims.specs.inside.Port.{names_listed};
ghost use Rattle.hw_prims.specs.Table.{prim_name, meaning_in, inputs_named, outputs_named, input_names, output_names, is_memory, with_params, prim_in_range};

use crate::prim::Primitive;

/// A name of the table, for a primitive of any parameters; a memory's two names mean one.
#[derive(Clone, Copy, Debug, PartialEq, Eq)]
pub enum PrimName {
    StdConst,
    StdWire,
    StdAdd,
    StdSub,
    StdAnd,
    StdOr,
    StdXor,
    StdNot,
    StdEq,
    StdNeq,
    StdLt,
    StdGt,
    StdLe,
    StdGe,
    StdLsh,
    StdRsh,
    StdSlice,
    StdPad,
    FilMux,
    FilSlice,
    FilConcat,
    StdReg,
    StdMemD1,
    StdMemD2,
    StdMultPipe,
    FilDelay,
    FilFastMult,
    FilSeqMult,
}

/// Each name as it is written.
const NAMES: [(&str, PrimName); 30] = [
    ("std_const", PrimName::StdConst),
    ("std_wire", PrimName::StdWire),
    ("std_add", PrimName::StdAdd),
    ("std_sub", PrimName::StdSub),
    ("std_and", PrimName::StdAnd),
    ("std_or", PrimName::StdOr),
    ("std_xor", PrimName::StdXor),
    ("std_not", PrimName::StdNot),
    ("std_eq", PrimName::StdEq),
    ("std_neq", PrimName::StdNeq),
    ("std_lt", PrimName::StdLt),
    ("std_gt", PrimName::StdGt),
    ("std_le", PrimName::StdLe),
    ("std_ge", PrimName::StdGe),
    ("std_lsh", PrimName::StdLsh),
    ("std_rsh", PrimName::StdRsh),
    ("std_slice", PrimName::StdSlice),
    ("std_pad", PrimName::StdPad),
    ("fil_mux", PrimName::FilMux),
    ("fil_slice", PrimName::FilSlice),
    ("fil_concat", PrimName::FilConcat),
    ("std_reg", PrimName::StdReg),
    ("std_mem_d1", PrimName::StdMemD1),
    ("comb_mem_d1", PrimName::StdMemD1),
    ("std_mem_d2", PrimName::StdMemD2),
    ("comb_mem_d2", PrimName::StdMemD2),
    ("std_mult_pipe", PrimName::StdMultPipe),
    ("fil_delay", PrimName::FilDelay),
    ("fil_fast_mult", PrimName::FilFastMult),
    ("fil_seq_mult", PrimName::FilSeqMult),
];

#[tactic(auto, using(crate::proofs::NameLemmas::no_wide_parameter, crate::proofs::NameLemmas::no_great_grid), unfolding(crate::specs::Table::prim_names, crate::specs::Table::with_params, crate::specs::Table::is_made))]
impl PrimName {
    /// The meaning of a text; `None` where the table doesn't have it.
    pub fn of(text: &[u8]) -> Option<PrimName>
        ensures { result ≡ prim_name text.now }
    {
        meaning_in(&NAMES, text)
    }

    /// The names of the inputs, in the table's order.
    fn inputs(self) -> &'static [&'static str]
        ensures { map (λ text. text.now) result.now ≡ inputs_named self }
    {
        match self {
            PrimName::StdConst => &[],
            PrimName::StdWire | PrimName::StdNot | PrimName::FilDelay => &["in"],
            PrimName::StdSlice | PrimName::StdPad | PrimName::FilSlice => &["in"],
            PrimName::FilMux => &["sel", "tru", "fal"],
            PrimName::FilConcat => &["high", "low"],
            PrimName::StdReg => &["in", "write_en"],
            PrimName::StdMemD1 => &["addr0", "write_data", "write_en"],
            PrimName::StdMemD2 => &["addr0", "addr1", "write_data", "write_en"],
            PrimName::StdMultPipe | PrimName::FilSeqMult => &["go", "left", "right"],
            _ => &["left", "right"],
        }
    }

    /// The names of the outputs, in the table's order.
    fn outputs(self) -> &'static [&'static str]
        ensures { map (λ text. text.now) result.now ≡ outputs_named self }
    {
        match self {
            PrimName::StdReg | PrimName::StdMultPipe => &["out", "done"],
            PrimName::StdMemD1 | PrimName::StdMemD2 => &["read_data", "done"],
            _ => &["out"],
        }
    }

    /// The primitive of this name, whatever the range of its parameters; `None` where their number is
    /// wrong, or one is above what its field holds, which no range allows.
    pub fn with(self, params: &[u128]) -> Option<Primitive>
        ensures { MatchOption result
            (option_and_then prim_in_range (with_params self params.now) ≡ None)
            (λ prim. with_params self params.now ≡ Some prim) }
    {
        match *params {
            [a] => self.with_one(a),
            [a, b] => self.with_two(a, b),
            [a, b, c] => self.with_three(a, b, c),
            [a, b, c, d, e] => self.with_five(a, b, c, d, e),
            _ => None,
        }
    }

    fn with_one(self, a: u128) -> Option<Primitive>
        ensures { MatchOption result
            (option_and_then prim_in_range (with_params self (a ∷ [])) ≡ None)
            (λ prim. with_params self (a ∷ []) ≡ Some prim) }
    {
        let w = narrow(a)?;
        let prim = match self {
            PrimName::StdWire => Primitive::StdWire { w },
            PrimName::StdAdd => Primitive::StdAdd { w },
            PrimName::StdSub => Primitive::StdSub { w },
            PrimName::StdAnd => Primitive::StdAnd { w },
            PrimName::StdOr => Primitive::StdOr { w },
            PrimName::StdXor => Primitive::StdXor { w },
            PrimName::StdNot => Primitive::StdNot { w },
            PrimName::StdEq => Primitive::StdEq { w },
            PrimName::StdNeq => Primitive::StdNeq { w },
            PrimName::StdLt => Primitive::StdLt { w },
            PrimName::StdGt => Primitive::StdGt { w },
            PrimName::StdLe => Primitive::StdLe { w },
            PrimName::StdGe => Primitive::StdGe { w },
            PrimName::StdLsh => Primitive::StdLsh { w },
            PrimName::StdRsh => Primitive::StdRsh { w },
            PrimName::FilMux => Primitive::FilMux { w },
            PrimName::StdReg => Primitive::StdReg { w },
            PrimName::StdMultPipe => Primitive::StdMultPipe { w },
            PrimName::FilDelay => Primitive::FilDelay { w },
            PrimName::FilFastMult => Primitive::FilFastMult { w },
            PrimName::FilSeqMult => Primitive::FilSeqMult { w },
            _ => return None,
        };
        Some(prim)
    }

    fn with_two(self, a: u128, b: u128) -> Option<Primitive>
        ensures { MatchOption result
            (option_and_then prim_in_range (with_params self (a ∷ b ∷ [])) ≡ None)
            (λ prim. with_params self (a ∷ b ∷ []) ≡ Some prim) }
    {
        match self {
            PrimName::StdConst => Some(Primitive::StdConst {
                w: narrow(a)?,
                v: b,
            }),
            PrimName::StdSlice => Some(Primitive::StdSlice {
                i: narrow(a)?,
                o: narrow(b)?,
            }),
            PrimName::StdPad => Some(Primitive::StdPad {
                i: narrow(a)?,
                o: narrow(b)?,
            }),
            PrimName::FilConcat => Some(Primitive::FilConcat {
                a: narrow(a)?,
                b: narrow(b)?,
            }),
            _ => None,
        }
    }

    fn with_three(self, a: u128, b: u128, c: u128) -> Option<Primitive>
        ensures { MatchOption result
            (option_and_then prim_in_range (with_params self (a ∷ b ∷ c ∷ [])) ≡ None)
            (λ prim. with_params self (a ∷ b ∷ c ∷ []) ≡ Some prim) }
    {
        match self {
            PrimName::FilSlice => Some(Primitive::FilSlice {
                w: narrow(a)?,
                hi: narrow(b)?,
                lo: narrow(c)?,
            }),
            PrimName::StdMemD1 => Some(Primitive::StdMemD1 {
                w: narrow(a)?,
                size: long(b)?,
                idx: narrow(c)?,
            }),
            _ => None,
        }
    }

    fn with_five(self, a: u128, b: u128, c: u128, d: u128, e: u128) -> Option<Primitive>
        ensures { MatchOption result
            (option_and_then prim_in_range (with_params self (a ∷ b ∷ c ∷ d ∷ e ∷ [])) ≡ None)
            (λ prim. with_params self (a ∷ b ∷ c ∷ d ∷ e ∷ []) ≡ Some prim) }
    {
        match self {
            PrimName::StdMemD2 => Some(Primitive::StdMemD2 {
                w: narrow(a)?,
                size0: long(b)?,
                size1: long(c)?,
                idx0: narrow(d)?,
                idx1: narrow(e)?,
            }),
            _ => None,
        }
    }
}

/// The meaning of a text in a list of names.
fn meaning_in(table: &[(&str, PrimName)], text: &[u8]) -> Option<PrimName>
    ensures { result ≡ meaning_in (names_listed table.now) text.now }
{
    for (known, name) in table {
        if known.as_bytes() == text {
            return Some(*name);
        }
    }
    None
}

/// The number, where it is below `2 ^ 8`.
fn narrow(x: u128) -> Option<u8>
    ensures { SomeIff result (x < 2 ^ 8) x }
{
    u8::try_from(x).ok()
}

/// The number, where it is below `2 ^ 64`.
fn long(x: u128) -> Option<u64>
    ensures { SomeIff result (x < 2 ^ 64) x }
{
    u64::try_from(x).ok()
}

/// The names of the inputs of the primitives of this name, in the table's order; none where the table doesn't
/// have it. Parameters don't change them.
#[tactic(auto, unfolding(crate::specs::Table::input_names))]
pub fn input_names(name: &[u8]) -> &'static [&'static str]
    ensures { map (λ text. text.now) result.now ≡ input_names name.now }
{
    match PrimName::of(name) {
        Some(name) => name.inputs(),
        None => &[],
    }
}

/// The names of the outputs of the primitives of this name, in the table's order; none where the table doesn't
/// have it. Parameters don't change them.
#[tactic(auto, unfolding(crate::specs::Table::output_names))]
pub fn output_names(name: &[u8]) -> &'static [&'static str]
    ensures { map (λ text. text.now) result.now ≡ output_names name.now }
{
    match PrimName::of(name) {
        Some(name) => name.outputs(),
        None => &[],
    }
}

/// Whether the primitives of this name have words, which a run can load and show.
#[tactic(auto, unfolding(crate::specs::Table::is_memory))]
pub fn is_memory(name: &[u8]) -> bool
    ensures { result ≡ is_memory name.now }
{
    match PrimName::of(name) {
        Some(PrimName::StdMemD1) => true,
        Some(PrimName::StdMemD2) => true,
        _ => false,
    }
}
