//! One register of a chain.
ghost use Rattle.std.specs.Prelude.{◌≡◌, ◌∷◌, ◌++◌, [], List, map, IfOk, OnOk};
ghost use Rattle.cal_ast.specs.Numbers.{PortHasNumbers};
ghost use Rattle.cal_ast.specs.Tree.{cell_tree, assignment_tree, port_tree};
ghost use Rattle.fil_fsm.specs.Chain.{register, takes, bit_of};
ghost use Rattle.fil_fsm.specs.Registers.{AreRegisterTexts, PartsHaveNumbers};
ghost use Rattle.hw_names.specs.Name.{Text, KeepsTexts, text_of};
ghost use Rattle.net_core.specs.Numbers.{IsNumberOf};

use crate::names::intern;
use crate::shift::FsmParts;
use cal_ast::{Assign, CalCell, CalPort};
use hw_bits::Memory;
use hw_names::{NameId, Names};
use net_core::Src;
use std::alloc::Global;

/// The texts that all registers have in common, by their numbers.
#[derive(Clone, Copy)]
pub struct RegisterTexts {
    pub made: NameId,
    pub input: NameId,
    pub enable: NameId,
    pub output: NameId,
}

/// The numbers of those texts, which are added where they are new.
pub fn register_texts(names: &mut Names) -> Result<RegisterTexts, Memory>
    ensures texts { IfOk result (AreRegisterTexts names.new) }
    ensures kept { KeepsTexts names.old names.new }
{
    let made = intern(names, b"std_reg")?;
    let input = intern(names, b"in")?;
    let enable = intern(names, b"write_en")?;
    let output = intern(names, b"out")?;
    Ok(RegisterTexts {
        made,
        input,
        enable,
        output,
    })
}

/// A port of a cell.
fn port_of(cell: NameId, port: NameId) -> CalPort
    ensures { result ≡ record { cell = Some cell; port = port } }
{
    CalPort {
        cell: Some(cell),
        port,
    }
}

/// Adds a register of this name after the bit; it is the next bit.
pub fn add_register(
    alloc: Global,
    parts: &mut FsmParts,
    texts: RegisterTexts,
    name: NameId,
    bit: CalPort,
) -> Result<CalPort, Memory>
    ensures cell { OnOk result ((names : List Text) → AreRegisterTexts names texts →
        map (cell_tree names) parts.new.cells.items ≡ map (cell_tree names) parts.old.cells.items ++ register (text_of names name) ∷ []) }
    ensures sets { OnOk result ((names : List Text) → AreRegisterTexts names texts →
        map (assignment_tree names) parts.new.sets.items ≡ map (assignment_tree names) parts.old.sets.items ++ takes (port_tree names bit) (text_of names name)) }
    ensures bits { OnOk result ((names : List Text) → AreRegisterTexts names texts →
        map (port_tree names) parts.new.bits.items ≡ map (port_tree names) parts.old.bits.items ++ bit_of (text_of names name) ∷ []) }
    ensures bit { IfOk result (λ out. (names : List Text) → AreRegisterTexts names texts → port_tree names out ≡ bit_of (text_of names name)) }
    ensures numbers { OnOk result ((names : List Text) → AreRegisterTexts names texts → IsNumberOf names name → PortHasNumbers names bit
        → PartsHaveNumbers names parts.old → PartsHaveNumbers names parts.new) }
    ensures bit_numbers { IfOk result (λ out. (names : List Text) → AreRegisterTexts names texts → IsNumberOf names name → PortHasNumbers names out) }
{
    parts.cells.push(CalCell {
        name,
        made: texts.made,
        params: Vec::from_slice(alloc, &[1])?,
        external: false,
    })?;
    parts.sets.push(Assign {
        dst: port_of(name, texts.input),
        guard: None,
        src: Src::Port(bit),
    })?;
    parts.sets.push(Assign {
        dst: port_of(name, texts.enable),
        guard: None,
        src: Src::Lit { width: 1, value: 1 },
    })?;
    let next = port_of(name, texts.output);
    parts.bits.push(next)?;
    Ok(next)
}
