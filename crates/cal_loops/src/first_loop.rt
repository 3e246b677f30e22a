//! C12 of a design: the first component that has a loop.
ghost use Rattle.std.specs.Prelude.{◌≡◌, ◌<◌, ◌∷◌, ◌++◌, [], ℕ, List, Some, None, false, length, replicate, slice_get, slice_set, ◌↔◌, IfOk, IfSome, IsSome, IsTrue, MatchOption};
ghost use Rattle.cal_ast.specs.Numbers.{HasNumbers};
ghost use Rattle.cal_ast.specs.Rules.{KeepsRules};
ghost use Rattle.cal_ast.specs.Tree.{Component, Design, design_of};
ghost use Rattle.cal_loops.specs.FirstLoop.{TellsFirstLoop};
ghost use Rattle.cal_loops.specs.inside.LoopedSoFar.{TellsFirstLooped};
ghost use Rattle.cal_place.specs.Nesting.{HasPart, ShowsNesting};
ghost use Rattle.cal_place.specs.Tables.{ShowsTables};
ghost use Rattle.cal_loops.specs.inside.Wiring.{IsInside, ShowsParts, TellsLoop};

use crate::cells::inside::Inside;
use crate::cells::named_ports::{AskedCell, asked_cells};
use crate::cells::reached_inputs::tell_cells;
use crate::least_loop::{Judged, judge_loops};
use crate::levels::have_levels;
use cal_place::{Overview, PartOrder, Place};
use hw_bits::Memory;
use hw_names::Word;
use std::alloc::Global;

/// A component that has a loop.
#[derive(Drop)]
pub struct Looped {
    /// The component's number.
    pub number: usize,
    /// Its least loop, by full names of ports: each reads the next within a row, and the last reads the first.
    pub ports: Vec<Word>,
}

/// Whether a component was found that stands before this one.
fn stands_before(found: &Option<Looped>, number: usize) -> bool
    ensures { MatchOption found.now (result ≡ false) (λ looped. IsTrue result ↔ (looped.number < number)) }
{
    match found {
        Some(found) => found.number < number,
        None => false,
    }
}

/// The one of the two that comes first in the text, where the other has this number and perhaps a loop.
fn earlier(found: Option<Looped>, number: usize, least_loop: Option<Vec<Word>>) -> Option<Looped>
    ensures { (design : Design) (numbers : List ℕ) (c : Component) → TellsFirstLooped design numbers found → slice_get design number ≡ Some c
        → TellsLoop design c least_loop → TellsFirstLooped design (numbers ++ number ∷ []) result }
{
    let Some(ports) = least_loop else {
        return found;
    };
    if stands_before(&found, number) {
        return found;
    }
    Some(Looped { number, ports })
}

/// The first component in text order that has a loop, by a graph of each component. Components are judged after their parts,
/// since a cell's outputs depend on those inputs that they reach in its component.
fn first_by_graphs(alloc: Global, overview: &Overview) -> Result<Option<Looped>, Memory>
    requires numbers { HasNumbers overview.now.design.now }
    requires tables { ShowsTables (design_of overview.now.design.now) overview.now.tables.now }
    requires nesting { ShowsNesting (design_of overview.now.design.now) overview.now.nesting.now }
    requires kept { KeepsRules (design_of overview.now.design.now) }
    ensures { IfOk result (TellsFirstLoop (design_of overview.now.design.now)) }
{
    let PartOrder::Parts(order) = &overview.nesting.order else {
        unreachable!();
    };
    let asked = asked_cells(alloc, overview)?;
    let mut insides = none_known(alloc, overview.design.comps.len())?;
    let mut looped = None;
    for number in order {
        let judged = judge_number(alloc, overview, &insides, *number, &asked[*number])?;
        let Judged { inside, least_loop } = judged;
        keep_inside(&mut insides, *number, inside);
        looped = earlier(looped, *number, least_loop);
    }
    Ok(looped)
}

/// Judges the component of this number by C12, where the components that it has cells of are judged. These cells are made of it.
fn judge_number(
    alloc: Global,
    overview: &Overview,
    insides: &[Option<Inside>],
    number: usize,
    asked: &[AskedCell],
) -> Result<Judged, Memory>
    requires numbers { HasNumbers overview.now.design.now }
    requires tables { ShowsTables (design_of overview.now.design.now) overview.now.tables.now }
    requires nesting { ShowsNesting (design_of overview.now.design.now) overview.now.nesting.now }
    requires kept { KeepsRules (design_of overview.now.design.now) }
    requires number { number < length overview.now.design.now.comps.items }
    requires parts { ShowsParts (design_of overview.now.design.now) number insides.now }
    ensures inside { (holder : ℕ) → HasPart (design_of overview.now.design.now) holder number → IfOk result (λ judged. IsSome judged.inside) }
    ensures shows { (c : Component) → slice_get (design_of overview.now.design.now) number ≡ Some c
        → IfOk result (λ judged. IfSome judged.inside (IsInside (design_of overview.now.design.now) c)) }
    ensures cycle { (c : Component) → slice_get (design_of overview.now.design.now) number ≡ Some c
        → IfOk result (λ judged. TellsLoop (design_of overview.now.design.now) c judged.least_loop) }
{
    let place = Place::of(alloc, overview, number)?;
    let is_part = !overview.nesting.holders.get(number).is_empty();
    let judged = judge_loops(alloc, &place, insides, is_part)?;
    let Judged { inside, least_loop } = judged;
    let inside = tell_cells(alloc, inside, asked)?;
    Ok(Judged { inside, least_loop })
}

/// Keeps what is known of the component of this number.
fn keep_inside(insides: &mut Vec<Option<Inside>>, number: usize, own: Option<Inside>)
    requires { number < length insides.old.items }
    ensures { insides.new.items ≡ slice_set insides.old.items number own }
{
    insides[number] = own;
}

/// So many components, of which nothing is known.
fn none_known(alloc: Global, count: usize) -> Result<Vec<Option<Inside>>, Memory>
    ensures { IfOk result (λ insides. insides.items ≡ replicate count None) }
{
    let mut insides = Vec::new(alloc);
    for _ in 0..count {
        insides.push(None)?;
    }
    Ok(insides)
}

/// The first component in text order that has a loop, where C1 to C11 are kept, if one has. Graphs are made only where levels
/// are not found.
pub fn first_looped(alloc: Global, overview: &Overview) -> Result<Option<Looped>, Memory>
    requires numbers { HasNumbers overview.now.design.now }
    requires tables { ShowsTables (design_of overview.now.design.now) overview.now.tables.now }
    requires nesting { ShowsNesting (design_of overview.now.design.now) overview.now.nesting.now }
    requires kept { KeepsRules (design_of overview.now.design.now) }
    ensures { IfOk result (TellsFirstLoop (design_of overview.now.design.now)) }
{
    if have_levels(alloc, overview)? {
        return Ok(None);
    }
    first_by_graphs(alloc, overview)
}
