//! A netlist with its guards folded.
ghost use Rattle.std.specs.Prelude.{◌≡◌, List, All, IfOk};
ghost use Rattle.hw_names.specs.Name.{Text};
ghost use Rattle.net_core.specs.Graph.{HasNoLoop};
ghost use Rattle.net_core.specs.Netlist.{netlist_of};
ghost use Rattle.net_core.specs.Numbers.{HasNumbers, SetHasNumbers};
ghost use Rattle.net_core.specs.Rules.{IsValid};
ghost use Rattle.net_guard.specs.Folded.{HasFoldedGuards};
ghost use Rattle.net_guard.specs.inside.Folding.{SetFoldsTo, SetsFoldTo};
ghost use Rattle.net_guard.specs.Simplified.{IsSimplified};

use crate::copy::{copy_cells, copy_names};
use crate::fold::{Folded, fold};
use hw_bits::Memory;
use hw_names::NameId;
use net_core::{Guard, Net, NetAssign};
use std::alloc::Global;

/// The assignment under this guard in place of its own.
fn guarded(set: &NetAssign, guard: Option<Guard<NameId>>) -> NetAssign
    ensures dst { result.dst ≡ set.now.dst }
    ensures guard { result.guard ≡ guard }
    ensures src { result.src ≡ set.now.src }
{
    NetAssign {
        dst: set.dst,
        guard,
        src: set.src,
    }
}

/// An assignment with its guard folded; none where it never acts.
fn simplify_set(alloc: Global, set: &NetAssign) -> Result<Option<NetAssign>, Memory>
    ensures { (names : List Text) → SetHasNumbers names set.now → IfOk result (SetFoldsTo names set.now) }
{
    match &set.guard {
        None => Ok(Some(guarded(set, None))),
        Some(guard) => match fold(alloc, guard)? {
            Folded::Known(false) => Ok(None),
            Folded::Known(true) => Ok(Some(guarded(set, None))),
            Folded::Sometimes(open) => Ok(Some(guarded(set, Some(open.guard(alloc)?)))),
        },
    }
}

/// The assignments with their guards folded, in their order, without those that never act.
fn simplify_sets(alloc: Global, sets: &[NetAssign]) -> Result<Vec<NetAssign>, Memory>
    ensures { (names : List Text) → All (SetHasNumbers names) sets.now → IfOk result (λ kept. SetsFoldTo names sets.now kept.items) }
{
    let mut kept = Vec::new(alloc);
    for set in sets {
        if let Some(simplified) = simplify_set(alloc, set)? {
            kept.push(simplified)?;
        }
    }
    Ok(kept)
}

/// The netlist with its guards folded, and without assignments whose guards are never true. It has the same runs, with the same Conflicts.
/// It takes time that grows with the netlist.
pub fn simplify(alloc: Global, net: &Net) -> Result<Net, Memory>
    requires { HasNumbers net.now }
    ensures numbers { IfOk result HasNumbers }
    ensures simplified { IfOk result (λ simplified. IsSimplified (netlist_of net.now) (netlist_of simplified)) }
    ensures folded { IfOk result (λ simplified. HasFoldedGuards (netlist_of simplified)) }
    ensures valid { IsValid (netlist_of net.now) → IfOk result (λ simplified. IsValid (netlist_of simplified)) }
    ensures no_loop { HasNoLoop (netlist_of net.now) → IfOk result (λ simplified. HasNoLoop (netlist_of simplified)) }
{
    let names = copy_names(alloc, &net.names)?;
    let ins = Vec::from_slice(alloc, &net.ins)?;
    let outs = Vec::from_slice(alloc, &net.outs)?;
    let wires = Vec::from_slice(alloc, &net.wires)?;
    let cells = copy_cells(alloc, &net.cells)?;
    let sets = simplify_sets(alloc, &net.sets)?;
    Ok(Net {
        names,
        name: net.name,
        ins,
        outs,
        wires,
        cells,
        sets,
    })
}
