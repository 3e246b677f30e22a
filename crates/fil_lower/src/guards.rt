//! Guards that one of several bits is 1.
ghost use Rattle.std.specs.Prelude.{◌≡◌, List, map, All, IfOk};
ghost use Rattle.hw_names.specs.Name.{Text};
ghost use Rattle.net_core.specs.Guard.{Reads, guard_tree, source_tree};
ghost use Rattle.net_core.specs.declared.net.Src.{Src};
ghost use Rattle.cal_ast.specs.Numbers.{GuardHasNumbers, PortHasNumbers, SourceHasNumbers};
ghost use Rattle.cal_ast.specs.Tree.{port_tree};
ghost use Rattle.fil_lower.specs.inside.Lowering.{any_of};

use cal_ast::CalPort;
use hw_bits::Memory;
use net_core::{Guard, Src};
use std::alloc::Global;

/// The guard that the source is 1.
fn read(alloc: Global, src: Src<CalPort>) -> Result<Guard<CalPort>, Memory>
    ensures shown { (names : List Text) → IfOk result (λ guard. guard_tree (port_tree names) guard ≡ Reads (source_tree (port_tree names) src)) }
    ensures numbers { (names : List Text) → SourceHasNumbers names src → IfOk result (GuardHasNumbers names) }
{
    Ok(Guard::Read(Box::new(alloc, src)?))
}

/// For each of the bits the guard that it is 1.
fn reads(alloc: Global, bits: &[CalPort]) -> Result<Vec<Guard<CalPort>>, Memory>
    ensures shown { (names : List Text) → IfOk result (λ guards. map (guard_tree (port_tree names)) guards.items ≡ map (λ bit. Reads (Src.Port bit)) (map (port_tree names) bits.now)) }
    ensures numbers { (names : List Text) → All (PortHasNumbers names) bits.now → IfOk result (λ guards. All (GuardHasNumbers names) guards.items) }
{
    let mut guards = Vec::new(alloc);
    for bit in bits {
        guards.push(read(alloc, Src::Port(*bit))?)?;
    }
    Ok(guards)
}

/// The guard that one of the bits is 1; of no bits it is never true.
pub(crate) fn any_of(alloc: Global, bits: &[CalPort]) -> Result<Guard<CalPort>, Memory>
    ensures shown { (names : List Text) → IfOk result (λ guard. guard_tree (port_tree names) guard ≡ any_of (map (port_tree names) bits.now)) }
    ensures numbers { (names : List Text) → All (PortHasNumbers names) bits.now → IfOk result (GuardHasNumbers names) }
{
    match bits {
        [] => read(alloc, Src::Lit { width: 1, value: 0 }),
        [bit] => read(alloc, Src::Port(*bit)),
        _ => Ok(Guard::Any(reads(alloc, bits)?)),
    }
}
