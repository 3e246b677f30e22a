//! The netlist of a design's top component.
ghost use Rattle.std.specs.Prelude.{◌<◌, length, IfOk};
ghost use Rattle.cal_ast.specs.Numbers.{HasNumbers};
ghost use Rattle.cal_ast.specs.Plain.{HasPlainTree};
ghost use Rattle.cal_ast.specs.Tree.{design_of};
ghost use Rattle.cal_ast.specs.Wired.{IsWired};
ghost use Rattle.net_flat.specs.FlatTop.{IsFlatTop};

use crate::listing::list_design;
use cal_ast::WireDesign;
use hw_bits::Memory;
use net_core::Net;
use std::alloc::Global;

/// The design as a netlist, from its top component: a cell for each cell of a primitive and path, a wire for each port of an instance, with dotted
/// names. It has the runs of the design, with the same Conflicts.
pub fn flatten(alloc: Global, wired: &WireDesign) -> Result<Net, Memory>
    requires some { 0 < length wired.now.design.comps.items }
    requires numbers { HasNumbers wired.now.design }
    requires plain { HasPlainTree (design_of wired.now.design) }
    requires wired { IsWired (design_of wired.now.design) }
    ensures { IfOk result (λ net. IsFlatTop (design_of wired.now.design) net) }
{
    list_design(alloc, &wired.design)
}
