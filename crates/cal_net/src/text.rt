//! A Calyx design's wires as a text.
ghost use Rattle.std.specs.Prelude.{IfOk};
ghost use Rattle.cal_ast.specs.Tree.{design_of};
ghost use Rattle.cal_ast.specs.Written.{DesignIsWritten};
ghost use Rattle.cal_net.specs.Lowers.{IsLoweredText};

use crate::wires::wires_of;
use cal_ast::CalOk;
use cal_print::print_calyx;
use hw_bits::Memory;
use std::alloc::Global;

/// The Calyx text of the design as wires alone: the same components, which keep C1 to C12 and mean what they meant.
pub fn calyx_of(alloc: Global, ok: &CalOk<'_>) -> Result<Vec<u8>, Memory>
    requires { DesignIsWritten (design_of ok.now) }
    ensures { IfOk result (λ text. IsLoweredText (design_of ok.now) text.items) }
{
    let wires = wires_of(alloc, ok)?;
    print_calyx(alloc, &wires.design)
}
