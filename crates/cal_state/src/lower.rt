//! A design without control, with a register for each sequential thread.
ghost use Rattle.std.specs.Prelude.{IfOk, OnOk, ◌∷◌, [], ◌++◌, List, All};
ghost use Rattle.hw_names.specs.Name.{KeepsTexts, Text};
ghost use Rattle.cal_ast.specs.Holes.{rule_trees};
ghost use Rattle.cal_ast.specs.NoInvoke.{IsPlainDesign};
ghost use Rattle.cal_ast.specs.Numbers.{HasNumbers, RuleHasNumbers};
ghost use Rattle.cal_ast.specs.Plain.{HasPlainTree};
ghost use Rattle.cal_ast.specs.Tree.{Component, component_tree, design_of};
ghost use Rattle.cal_lower.specs.inside.Lowered.{lowered};
ghost use Rattle.cal_state.specs.MakesStates.{MakesStates};
ghost use Rattle.cal_state.specs.inside.Encoded.{encoded};
ghost use Rattle.cal_state.specs.inside.Making.{ShowComponents};

use crate::component::encode;
use cal_ast::{CalComp, CalDesign, HoleDesign, PlainDesign};
use cal_lower::lower_control;
use hw_bits::Memory;
use hw_names::Names;
use std::alloc::Global;
use std::collections::VecDeque;

/// Puts last what is made of the next component.
fn push_next(
    alloc: Global,
    names: &mut Names,
    source: &CalComp,
    left: &mut VecDeque<CalComp>,
    comps: &mut Vec<CalComp>,
) -> Result<(), Memory>
    ensures kept { KeepsTexts names.old names.new }
    ensures left { (more : List Component) (tree : Component) → ShowComponents names.old (tree ∷ more) left.old.items → ShowComponents names.new more left.new.items }
    ensures pushed { (texts : List Text) (more done : List Component) → let tree = component_tree texts source.now in
        ShowComponents names.old (lowered tree ∷ more) left.old.items → ShowComponents names.old done comps.old.items
        → OnOk result (ShowComponents names.new (done ++ encoded tree ∷ []) comps.new.items) }
{
    let Some(bits) = left.pop_front() else {
        return Ok(());
    };
    comps.push(encode(alloc, names, source, bits)?)?;
    Ok(())
}

/// The design as bare components, in the same order: a register for each sequential thread of control holds the number of its state, and each group acts where
/// the rule over them is true that is made for it. It keeps the rules, the cells and the runs of the design, and the registers are few.
pub fn lower_states(alloc: Global, plain: &PlainDesign) -> Result<HoleDesign, Memory>
    requires numbers { HasNumbers plain.now.design }
    requires names { HasPlainTree (design_of plain.now.design) }
    requires plain { IsPlainDesign (design_of plain.now.design) }
    ensures numbers { IfOk result (λ holes. HasNumbers holes.design) }
    ensures rules { IfOk result (λ holes. All (RuleHasNumbers holes.design.names) holes.acts.items) }
    ensures states { IfOk result (λ holes. MakesStates (design_of plain.now.design) (design_of holes.design)
        (rule_trees holes.design.names holes.acts.items)) }
{
    let HoleDesign { design, acts } = lower_control(alloc, plain)?;
    let CalDesign { mut names, comps } = design;
    let mut left = VecDeque::from(comps);
    let mut comps = Vec::new(alloc);
    for source in &plain.design.comps {
        push_next(alloc, &mut names, source, &mut left, &mut comps)?;
    }
    Ok(HoleDesign {
        design: CalDesign { names, comps },
        acts,
    })
}
