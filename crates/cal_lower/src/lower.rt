//! A design without control.
ghost use Rattle.std.specs.Prelude.{IfOk, All};
ghost use Rattle.cal_ast.specs.Holes.{rule_trees};
ghost use Rattle.cal_ast.specs.NoInvoke.{IsPlainDesign};
ghost use Rattle.cal_ast.specs.Numbers.{HasNumbers, RuleHasNumbers};
ghost use Rattle.cal_ast.specs.Plain.{HasPlainTree};
ghost use Rattle.cal_ast.specs.Tree.{design_of};
ghost use Rattle.cal_lower.specs.ReplacesControl.{ReplacesControl};
ghost use Rattle.cal_lower.specs.inside.Lowered.{IsLoweringOf};

use crate::component::{lower_component, push_rules};
use crate::labels::Labels;
use cal_ast::{CalDesign, HoleDesign, PlainDesign};
use hw_bits::Memory;
use std::alloc::Global;

/// The design as bare components, in the same order: wires and registers of one bit stand for control, and each group acts where the rule over them is
/// true that is made for it. It keeps the rules, the cells and the runs of the design. By the clause `lowering` go the states that `cal_state` makes of it.
pub fn lower_control(alloc: Global, plain: &PlainDesign) -> Result<HoleDesign, Memory>
    requires numbers { HasNumbers plain.now.design }
    requires names { HasPlainTree (design_of plain.now.design) }
    requires plain { IsPlainDesign (design_of plain.now.design) }
    ensures numbers { IfOk result (λ holes. HasNumbers holes.design) }
    ensures rules { IfOk result (λ holes. All (RuleHasNumbers holes.design.names) holes.acts.items) }
    ensures replaces { IfOk result (λ holes. ReplacesControl (design_of plain.now.design) (design_of holes.design)
        (rule_trees holes.design.names holes.acts.items)) }
    ensures lowering { IfOk result (λ holes. IsLoweringOf (design_of plain.now.design) (design_of holes.design)
        (rule_trees holes.design.names holes.acts.items)) }
{
    let design = &plain.design;
    let mut labels = Labels::make(alloc, &design.names)?;
    let mut comps = Vec::new(alloc);
    let mut acts = Vec::new(alloc);
    for (number, comp) in design.comps.iter().enumerate() {
        comps.push(lower_component(alloc, &mut labels, comp)?)?;
        push_rules(alloc, &mut labels, number, comp, &mut acts)?;
    }
    let Labels { names, .. } = labels;
    Ok(HoleDesign {
        design: CalDesign { names, comps },
        acts,
    })
}
