//! The plans of the components of a design.
ghost use Rattle.std.specs.Prelude.{◌≤◌, length, take, IfOk};
ghost use Rattle.fil_ast.specs.Tree.{design_of};
ghost use Rattle.fil_flow.specs.Shown.{ShowPlans};

use crate::earlier::Earlier;
use crate::plan::Plan;
use crate::planning::plan_of;
use fil_ast::FilOk;
use hw_bits::Memory;
use std::alloc::Global;

/// The plans of so many components of a design, the first ones, in their order.
pub(crate) fn plans_of(alloc: Global, ok: &FilOk, count: usize) -> Result<Vec<Plan>, Memory>
    requires { count ≤ length (design_of ok.now) }
    ensures { IfOk result (λ plans. ShowPlans (take count (design_of ok.now)) plans.items) }
{
    let design = ok.design();
    let mut earlier = Earlier::new(alloc, &design.names);
    let mut plans = Vec::new(alloc);
    for comp in &design.comps[..count] {
        let plan = plan_of(alloc, &design.names, &earlier, comp)?;
        plans.push(plan)?;
        earlier.add(alloc, &design.names, comp)?;
    }
    Ok(plans)
}
