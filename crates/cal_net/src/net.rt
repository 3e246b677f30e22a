//! A Calyx design as a netlist.
ghost use Rattle.std.specs.Prelude.{◌<◌, length, IfOk};
ghost use Rattle.cal_ast.specs.Numbers as design;
ghost use Rattle.cal_ast.specs.Plain.{HasPlainTree};
ghost use Rattle.cal_ast.specs.Tree.{design_of};
ghost use Rattle.cal_ast.specs.Wired.{IsWired};
ghost use Rattle.cal_ast.specs.Written.{DesignIsWritten};
ghost use Rattle.net_core.specs.Netlist.{netlist_of};
ghost use Rattle.net_core.specs.Numbers.{HasNumbers};
ghost use Rattle.net_flat.specs.FlatTop.{IsFlatTop};
ghost use Rattle.net_guard.specs.Folded.{HasFoldedGuards};
ghost use Rattle.net_text.specs.Names.{HasText};
ghost use Rattle.cal_net.specs.Refining.{RefinesTop};

use crate::wires::wires_of;
use cal_ast::{CalOk, WireDesign};
use hw_bits::Memory;
use net_core::Net;
use net_flat::flatten;
use net_guard::simplify;
use std::alloc::Global;

/// The netlist of the design's top component: in every run it shows, at every port of the source, what the source's schedule says, with the same
/// Conflict or none. Its guards are folded.
pub fn net_of(alloc: Global, ok: &CalOk<'_>) -> Result<Net, Memory>
    requires { DesignIsWritten (design_of ok.now) }
    ensures numbers { IfOk result HasNumbers }
    ensures refines { IfOk result (λ net. RefinesTop (design_of ok.now) (netlist_of net)) }
    ensures text { IfOk result (λ net. HasText (netlist_of net)) }
    ensures folded { IfOk result (λ net. HasFoldedGuards (netlist_of net)) }
{
    // Read for what it ensures: the design keeps the rules.
    let _design = ok.design();
    let wires = wires_of(alloc, ok)?;
    let flat = flatten_wires(alloc, wires)?;
    simplify(alloc, &flat)
}

/// The netlist of a design of wires. The design is let go with that: it takes as much memory again.
fn flatten_wires(alloc: Global, wires: WireDesign) -> Result<Net, Memory>
    requires some { 0 < length wires.design.comps.items }
    requires numbers { design.HasNumbers wires.design }
    requires plain { HasPlainTree (design_of wires.design) }
    requires wired { IsWired (design_of wires.design) }
    ensures { IfOk result (IsFlatTop (design_of wires.design)) }
{
    flatten(alloc, &wires)
}
