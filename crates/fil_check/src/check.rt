//! The rules of a design.
ghost use Rattle.std.specs.Prelude.{◌≡◌, IfErr, IfOk, IsTrue, OnOk};
ghost use Rattle.fil_ast.specs.Limits.{KeepsLimits, HasSmallOffsets};
ghost use Rattle.fil_ast.specs.Numbers.{ComponentHasNumbers, HasNumbers};
ghost use Rattle.fil_ast.specs.Rules.{FilRules, KeepsComponent, all_rules};
ghost use Rattle.fil_ast.specs.Tree.{Design, component_tree, design_of};
ghost use Rattle.fil_ast.specs.Wires.{whole_scope};
ghost use Rattle.fil_check.specs.First.{TellsFirst};
ghost use Rattle.fil_check.specs.inside.FirstComponent.{ComponentIs, TellsComponent};
ghost use Rattle.fil_place.specs.Tables.{IsPlace, ShowsEarlier};

use crate::rules::FilEnd;
use fil_ast::{FilComp, FilDesign, FilOk};
use fil_loops::{Wired, add_levels, add_wires};
use fil_place::{Earlier, Place, Tables, add_component};
use fil_rules::{CompEnd, Evidence, judge_component};
use hw_bits::Memory;
use hw_names::{NameId, Names};
use std::alloc::Global;

/// Judges a design by F1 to F14. A refusal tells the first rule that is broken, with its evidence: components in text
/// order, in each the items in order (0 is the signature, then the statements from 1 on, then the end of the body), at
/// each item the least rule. F14 comes after all others, at item 0 of the first component that has a loop.
pub fn check_fil<'a>(alloc: Global, design: &'a FilDesign) -> Result<FilOk<'a>, FilEnd>
    requires numbers { HasNumbers design.now }
    requires small { HasSmallOffsets design.now }
    ensures kept { OnOk result (FilRules (design_of design.now)) }
    ensures design { IfOk result (λ ok. ok ≡ design.now) }
    ensures refused { IfErr result (TellsFirst design.now) }
{
    if judge_by_levels(alloc, design)? {
        return Ok(FilOk::new(design));
    }
    judge_by_reach(alloc, design)
}

/// Whether all components have levels: then all rules are kept. Where the answer is no, a component has none, and those before
/// it keep F1 to F13.
fn judge_by_levels(alloc: Global, design: &FilDesign) -> Result<bool, FilEnd>
    requires numbers { HasNumbers design.now }
    requires small { HasSmallOffsets design.now }
    ensures kept { IfOk result (λ have. IsTrue have → FilRules (design_of design.now)) }
    ensures refused { IfErr result (TellsFirst design.now) }
{
    let mut earlier = Earlier {
        names: design.names.beside(),
        callees: Vec::new(alloc),
    };
    let mut levels = Vec::new(alloc);
    for comp in &design.comps {
        let tables = judged(alloc, &design.names, &earlier, comp)?;
        let place = Place {
            names: &design.names,
            earlier: &earlier,
            comp,
            tables: &tables,
        };
        levels = match add_levels(alloc, &place, levels)? {
            Some(more) => more,
            None => return Ok(false),
        };
        add_component(alloc, &design.names, &mut earlier, comp)?;
    }
    Ok(true)
}

/// Judges a design by F1 to F14, by the graph of each component.
fn judge_by_reach<'a>(alloc: Global, design: &'a FilDesign) -> Result<FilOk<'a>, FilEnd>
    requires numbers { HasNumbers design.now }
    requires small { HasSmallOffsets design.now }
    ensures kept { OnOk result (FilRules (design_of design.now)) }
    ensures design { IfOk result (λ ok. ok ≡ design.now) }
    ensures refused { IfErr result (TellsFirst design.now) }
{
    let mut earlier = Earlier {
        names: design.names.beside(),
        callees: Vec::new(alloc),
    };
    let mut wired = Wired::Free(Vec::new(alloc));
    for comp in &design.comps {
        let tables = judged(alloc, &design.names, &earlier, comp)?;
        let place = Place {
            names: &design.names,
            earlier: &earlier,
            comp,
            tables: &tables,
        };
        wired = add_wires(alloc, &place, wired)?;
        add_component(alloc, &design.names, &mut earlier, comp)?;
    }
    match wired {
        Wired::Free(_insides) => Ok(FilOk::new(design)),
        Wired::Looped { comp, ports } => Err(FilEnd::Refused {
            rule: 14,
            comp,
            item: 0,
            evidence: Evidence::Loop(ports),
        }),
    }
}

/// Judges a component, after those before it, by F1 to F13. Gives the tables of its whole body where it keeps the rules; a rule
/// that it breaks is the end of its design.
fn judged(alloc: Global, names: &Names, earlier: &Earlier, comp: &FilComp) -> Result<Tables, FilEnd>
    requires numbers { ComponentHasNumbers names.now comp.now }
    requires small { KeepsLimits comp.now }
    ensures kept { (comps : Design) → ShowsEarlier earlier.now comps
        → OnOk result (KeepsComponent all_rules comps (component_tree names.now comp.now)) }
    ensures tables { (comps : Design) → ShowsEarlier earlier.now comps
        → IfOk result (λ tables. IsPlace names.now earlier.now comp.now tables (whole_scope comps (component_tree names.now comp.now))) }
    ensures broken { (comps : Design) → ShowsEarlier earlier.now comps
        → IfErr result (TellsComponent comps (component_tree names.now comp.now) comp.now.name) }
{
    match judge_component(alloc, names, earlier, comp) {
        Ok(tables) => Ok(tables),
        Err(end) => Err(in_component(comp.name, end)),
    }
}

/// The end of a component as its design's end.
fn in_component(comp: NameId, end: CompEnd) -> FilEnd
    ensures { ComponentIs comp end result }
{
    match end {
        CompEnd::Broken { item, broken } => FilEnd::Refused {
            rule: broken.rule.number(),
            comp,
            item,
            evidence: broken.evidence,
        },
        CompEnd::Memory => FilEnd::Memory,
    }
}
