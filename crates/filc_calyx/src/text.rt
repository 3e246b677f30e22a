//! What is made of a Calyx design, as texts.
ghost use Rattle.std.specs.Prelude.{IfOk};
ghost use Rattle.cal_ast.specs.Tree.{design_of};
ghost use Rattle.cal_net.specs.Lowers.{IsLoweredText};
ghost use Rattle.filc_load.specs.Built.{IsCalReady};
ghost use Rattle.filc_calyx.specs.Made.{IsMadeOf, IsVerilogOf};

use cal_ast::CalOk;
use cal_net::{calyx_of, net_of};
use filc_load::{CalBuilt, table_of};
use hw_bits::Memory;
use net_text::print_net;
use std::alloc::Global;
use ver_print::print_verilog;

/// The text of the design's netlist.
pub fn text_of(alloc: Global, design: &CalBuilt) -> Result<Vec<u8>, Memory>
    requires { IsCalReady design.now }
    ensures { IfOk result (λ text. IsMadeOf (design_of design.now.design) text.items) }
{
    let net = net_of(alloc, &CalOk::new(&design.design))?;
    print_net(alloc, &net)
}

/// The Verilog text of the design's netlist.
pub fn verilog_of(alloc: Global, design: &CalBuilt) -> Result<Vec<u8>, Memory>
    requires { IsCalReady design.now }
    ensures { IfOk result (λ text. IsVerilogOf (design_of design.now.design) text.items) }
{
    let net = net_of(alloc, &CalOk::new(&design.design))?;
    let table = table_of(alloc, &net)?;
    print_verilog(alloc, &net, &table)
}

/// The Calyx text of the design as wires alone.
pub fn lowered_text(alloc: Global, design: &CalBuilt) -> Result<Vec<u8>, Memory>
    requires { IsCalReady design.now }
    ensures { IfOk result (λ text. IsLoweredText (design_of design.now.design) text.items) }
{
    calyx_of(alloc, &CalOk::new(&design.design))
}
