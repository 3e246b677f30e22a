//! The text of a netlist, and its Verilog.
ghost use Rattle.std.specs.Prelude.{◌≡◌, ◌∷◌, ◌++◌, [], IfOk};
ghost use Rattle.fil_ast.specs.Tree.{design_of};
ghost use Rattle.net_core.specs.Netlist.{netlist_of};
ghost use Rattle.net_core.specs.Numbers.{HasNumbers};
ghost use Rattle.net_text.specs.Layout.{net_text};
ghost use Rattle.filc_load.specs.Built.{IsFilReady};
ghost use Rattle.filc_run.specs.Traced.{IsMadeOf};
ghost use Rattle.filc_run.specs.Verilog.{IsVerilogOf};

use fil_ast::FilOk;
use fil_net::net_of;
use filc_load::{FilBuilt, table_of};
use hw_bits::Memory;
use net_core::Net;
use net_text::print_net;
use std::alloc::Global;
use ver_print::print_verilog;

/// The text of the netlist of a design.
pub fn text_of(alloc: Global, built: &FilBuilt) -> Result<Vec<u8>, Memory>
    requires { IsFilReady built.now }
    ensures { IfOk result (λ text. IsMadeOf (design_of built.now.design) text.items) }
{
    let net = net_of(alloc, &FilOk::new(&built.design))?;
    print_net(alloc, &net)
}

/// The Verilog text of the netlist of a design.
pub fn verilog_of(alloc: Global, built: &FilBuilt) -> Result<Vec<u8>, Memory>
    requires { IsFilReady built.now }
    ensures { IfOk result (λ text. IsVerilogOf (design_of built.now.design) text.items) }
{
    let net = net_of(alloc, &FilOk::new(&built.design))?;
    let table = table_of(alloc, &net)?;
    print_verilog(alloc, &net, &table)
}

/// A netlist's text and an empty line.
pub fn with_empty_line(alloc: Global, net: &Net) -> Result<Vec<u8>, Memory>
    requires { HasNumbers net.now }
    ensures { IfOk result (λ text. text.items ≡ net_text (netlist_of net.now) ++ 10 ∷ []) }
{
    let mut text = print_net(alloc, net)?;
    text.push(b'\n')?;
    Ok(text)
}
