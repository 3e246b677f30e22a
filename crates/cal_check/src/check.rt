//! The rules of a design.
ghost use Rattle.std.specs.Prelude.{◌<◌, length, ◌≡◌, IfErr, IfOk, OnOk};
ghost use Rattle.cal_ast.specs.Numbers.{HasNumbers};
ghost use Rattle.cal_ast.specs.Rules.{CalRules, KeepsRules};
ghost use Rattle.cal_ast.specs.Tree.{design_of};
ghost use Rattle.cal_place.specs.Nesting.{ShowsNesting};
ghost use Rattle.cal_place.specs.Tables.{ShowsTables};
ghost use Rattle.cal_check.specs.inside.ComponentEnd.{ComponentIs};
ghost use Rattle.cal_check.specs.Refusals.{TellsRefusal};

use crate::refusal::CalEnd;
use cal_ast::{CalDesign, CalOk};
use cal_loops::first_looped;
use cal_place::{Nesting, Overview, Place, Tables};
use cal_rules::{CompEnd, judge_component};
use hw_bits::Memory;
use hw_names::NameId;
use std::alloc::Global;

/// The end of a component as its design's end.
fn in_component(alloc: Global, comp: NameId, end: CompEnd) -> CalEnd
    ensures { ComponentIs comp end result }
{
    match end {
        CompEnd::Broken { item, rule } => CalEnd::Refused {
            rule: rule.number(),
            comp,
            item,
            ports: Vec::new(alloc),
        },
        CompEnd::Memory => CalEnd::Memory,
    }
}

/// Judges the components by C1 to C11, in text order.
fn judge_components(alloc: Global, overview: &Overview) -> Result<(), CalEnd>
    requires numbers { HasNumbers overview.now.design.now }
    requires tables { ShowsTables (design_of overview.now.design.now) overview.now.tables.now }
    requires nesting { ShowsNesting (design_of overview.now.design.now) overview.now.nesting.now }
    ensures kept { OnOk result (KeepsRules (design_of overview.now.design.now)) }
    ensures refused { IfErr result (TellsRefusal overview.now.design.now) }
{
    for (number, comp) in overview.design.comps.iter().enumerate() {
        let place = Place::of(alloc, overview, number)?;
        match judge_component(alloc, &place) {
            Ok(()) => {}
            Err(end) => return Err(in_component(alloc, comp.name, end)),
        }
    }
    Ok(())
}

/// Judges a design by C1 to C12. A refusal tells the first rule that is broken: components in text order, in each the
/// items in order (0 is the signature, then the cells, then each group with its assignments and done lines, then the
/// continuous assignments, then the control statements), at each item the least rule. C12 comes after all others, at item
/// 0 of the first component that has a loop.
pub fn check_calyx<'a>(alloc: Global, design: &'a CalDesign) -> Result<CalOk<'a>, CalEnd>
    requires numbers { HasNumbers design.now }
    requires component { 0 < length design.now.comps.items }
    ensures kept { OnOk result (CalRules (design_of design.now)) }
    ensures design { IfOk result (λ ok. ok ≡ design.now) }
    ensures refused { IfErr result (TellsRefusal design.now) }
{
    let tables = Tables::of(alloc, design)?;
    let nesting = Nesting::of(alloc, &tables.made)?;
    let overview = Overview {
        design,
        tables: &tables,
        nesting: &nesting,
    };
    judge_components(alloc, &overview)?;
    match first_looped(alloc, &overview)? {
        None => Ok(CalOk::new(design)),
        Some(looped) => Err(CalEnd::Refused {
            rule: 12,
            comp: design.comps[looped.number].name,
            item: 0,
            ports: looped.ports,
        }),
    }
}
