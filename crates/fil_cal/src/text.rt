//! The Calyx text that a Filament design is lowered to.
ghost use Rattle.std.specs.Prelude.{IfOk};
ghost use Rattle.fil_ast.specs.Tree.{design_of};
ghost use Rattle.fil_parse.specs.Written.{DesignIsWritten};
ghost use Rattle.fil_cal.specs.LoweredText.{IsLoweredText};

use cal_print::print_calyx;
use fil_ast::FilOk;
use fil_lower::lower_fil;
use hw_bits::Memory;
use std::alloc::Global;

/// The text of a Calyx design with the components of this one, each as wires alone: it keeps C1 to C12, and as a circuit it can be run at
/// the declared rate and computes what the Filament design says.
pub fn calyx_of(alloc: Global, ok: &FilOk<'_>) -> Result<Vec<u8>, Memory>
    requires { DesignIsWritten (design_of ok.now) }
    ensures { IfOk result (λ text. IsLoweredText (design_of ok.now) text.items) }
{
    // Read for what it ensures: the design keeps the rules.
    let _design = ok.design();
    let wired = lower_fil(alloc, ok)?;
    print_calyx(alloc, &wired.design)
}
