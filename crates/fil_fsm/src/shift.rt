//! Shift registers: bit i is 1 exactly i rows after bit 0.
ghost use Rattle.std.specs.Prelude.{◌≡◌, ◌≤◌, ◌∷◌, [], IfOk};
ghost use Rattle.cal_ast.specs.Numbers.{PortHasNumbers};
ghost use Rattle.fil_fsm.specs.Chain.{IsShiftRegister};
ghost use Rattle.fil_fsm.specs.Registers.{PartsHaveNumbers};
ghost use Rattle.hw_names.specs.Name.{KeepsTexts};

use crate::names::fresh;
use crate::register::{add_register, register_texts};
use cal_ast::{Assign, CalCell, CalPort};
use hw_bits::Memory;
use hw_limits::MOST_ROWS;
use hw_names::Names;
use std::alloc::Global;

/// The cells and assignments of a shift register, and its bits, the first of which is its source.
#[derive(Drop)]
pub struct FsmParts {
    pub cells: Vec<CalCell>,
    pub sets: Vec<Assign>,
    pub bits: Vec<CalPort>,
}

/// A shift register of one bit: its source.
fn source_alone(alloc: Global, go: CalPort) -> Result<FsmParts, Memory>
    ensures cells { IfOk result (λ parts. parts.cells.items ≡ []) }
    ensures sets { IfOk result (λ parts. parts.sets.items ≡ []) }
    ensures bits { IfOk result (λ parts. parts.bits.items ≡ go ∷ []) }
{
    Ok(FsmParts {
        cells: Vec::new(alloc),
        sets: Vec::new(alloc),
        bits: Vec::from_slice(alloc, &[go])?,
    })
}

/// A shift register of n bits, of which bit 0 is `go`; the names of its cells are added to `names`. After want of memory `names` may have further
/// texts; all others keep their numbers.
pub fn shift_register(
    alloc: Global,
    names: &mut Names,
    go: CalPort,
    n: u64,
) -> Result<FsmParts, Memory>
    requires numbers { PortHasNumbers names.old go }
    requires bits { (1 ≤ n) × (n ≤ MOST_ROWS) }
    ensures kept { KeepsTexts names.old names.new }
    ensures chain { IfOk result (λ parts. IsShiftRegister names.old names.new go n parts) }
    ensures numbers { IfOk result (PartsHaveNumbers names.new) }
{
    let texts = register_texts(names)?;
    let mut parts = source_alone(alloc, go)?;
    let mut bit = go;
    let mut from = names.len() as u64;
    for _ in 1..n {
        let name = fresh(alloc, names, from)?;
        bit = add_register(alloc, &mut parts, texts, name.id, bit)?;
        from = name.number + 1;
    }
    Ok(parts)
}
