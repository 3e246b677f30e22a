//! A Calyx design as wires alone.
ghost use Rattle.std.specs.Prelude.{◌<◌, length, IfOk};
ghost use Rattle.cal_ast.specs.Numbers.{HasNumbers};
ghost use Rattle.cal_ast.specs.Plain.{HasPlainTree};
ghost use Rattle.cal_ast.specs.Tree.{design_of};
ghost use Rattle.cal_ast.specs.Wired.{IsWired};
ghost use Rattle.cal_ast.specs.Written.{DesignIsWritten};
ghost use Rattle.cal_net.specs.Lowers.{LowersControl};

use cal_ast::{CalOk, WireDesign};
use cal_group::{expand_invoke, remove_groups};
use cal_state::lower_states;
use hw_bits::Memory;
use std::alloc::Global;

/// The components of the design in their order, as wires alone, which keep C1 to C12 and mean what they meant.
pub(crate) fn wires_of(alloc: Global, ok: &CalOk<'_>) -> Result<WireDesign, Memory>
    requires { DesignIsWritten (design_of ok.now) }
    ensures some { IfOk result (λ wires. 0 < length wires.design.comps.items) }
    ensures numbers { IfOk result (λ wires. HasNumbers wires.design) }
    ensures lowers { IfOk result (λ wires. LowersControl (design_of ok.now) (design_of wires.design)) }
    ensures plain { IfOk result (λ wires. HasPlainTree (design_of wires.design)) }
    ensures written { IfOk result (λ wires. DesignIsWritten (design_of wires.design)) }
{
    // Read for what it ensures: the design keeps the rules.
    let _design = ok.design();
    let plain = expand_invoke(alloc, ok)?;
    let holes = lower_states(alloc, &plain)?;
    remove_groups(alloc, &holes)
}
