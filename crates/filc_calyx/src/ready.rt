//! The netlist of a Calyx design, ready to run.
ghost use Rattle.std.specs.Prelude.{IfOk};
ghost use Rattle.cal_ast.specs.Tree.{design_of};
ghost use Rattle.net_core.specs.Netlist.{netlist_of};
ghost use Rattle.net_text.specs.Names.{HasText};
ghost use Rattle.filc_load.specs.Built.{IsCalReady, IsReady};
ghost use Rattle.filc_calyx.specs.Made.{IsNetlistFor};

use cal_ast::CalOk;
use cal_net::net_of;
use filc_load::{Built, CalBuilt, make_ready};
use hw_bits::Memory;
use std::alloc::Global;

/// The design's netlist, ready to run.
pub fn make_net(alloc: Global, design: &CalBuilt) -> Result<Built, Memory>
    requires { IsCalReady design.now }
    ensures ready { IfOk result IsReady }
    ensures netlist { IfOk result (λ built. IsNetlistFor (design_of design.now.design) (netlist_of built.net)) }
    ensures text { IfOk result (λ built. HasText (netlist_of built.net)) }
{
    let net = net_of(alloc, &CalOk::new(&design.design))?;
    make_ready(alloc, net)
}
