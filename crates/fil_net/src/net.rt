//! A Filament design as a netlist.
ghost use Rattle.std.specs.Prelude.{IfOk};
ghost use Rattle.fil_ast.specs.Tree.{design_of};
ghost use Rattle.fil_promise.specs.Refines.{Refines};
ghost use Rattle.fil_parse.specs.Written.{DesignIsWritten};
ghost use Rattle.net_core.specs.Netlist.{netlist_of};
ghost use Rattle.net_core.specs.Numbers.{HasNumbers};
ghost use Rattle.net_guard.specs.Folded.{HasFoldedGuards};
ghost use Rattle.net_text.specs.Names.{HasText};

use fil_ast::FilOk;
use fil_lower::lower_fil;
use hw_bits::Memory;
use net_core::Net;
use net_flat::flatten;
use net_guard::simplify;
use std::alloc::Global;

/// The netlist of the design's top component: it can be run at the declared rate, with units shared between overlapping
/// transactions, and computes what the design says. Its guards are folded.
pub fn net_of(alloc: Global, ok: &FilOk<'_>) -> Result<Net, Memory>
    requires { DesignIsWritten (design_of ok.now) }
    ensures numbers { IfOk result HasNumbers }
    ensures refines { IfOk result (λ net. Refines (design_of ok.now) (netlist_of net)) }
    ensures text { IfOk result (λ net. HasText (netlist_of net)) }
    ensures folded { IfOk result (λ net. HasFoldedGuards (netlist_of net)) }
{
    // Read for what it ensures: the design keeps the rules.
    let _design = ok.design();
    let wired = lower_fil(alloc, ok)?;
    let flat = flatten(alloc, &wired)?;
    simplify(alloc, &flat)
}
