//! The commands `net`, `lower` and `verilog`: a text that is made of the design of a file.
ghost use Rattle.std.specs.Prelude.{IfErr, IfOk, IsErrOf, IsSome};
ghost use Rattle.hw_io.specs.Reading.{KeepsFiles, IsReadFault};
ghost use Rattle.cal_ast.specs.Tree as calyx;
ghost use Rattle.fil_ast.specs.Tree as filament;
ghost use Rattle.filc_load.specs.Built.{IsCalReady, IsFilReady, IsUnread, KnowsFile};
ghost use Rattle.filc_stop.specs.Stops.{IsOfSource};
ghost use Rattle.filc_core.specs.Call.{disk_of, stream_of};
ghost use Rattle.filc_core.specs.commands.Making.{IsMadeIn, IsMadeOfCalyx, IsMadeOfFilament, making};
ghost use Rattle.filc_core.specs.inside.Performing.{Performs};
ghost use Rattle.filc_core.specs.inside.Told.{arguments_told};

use crate::arguments::Arguments;
use fil_ast::FilOk;
use filc_load::{CalBuilt, FilBuilt, cal_file, fil_file, net_file};
use filc_report::write_text;
use filc_stop::{Language, Stop};
use hw_bits::Memory;
use hw_io::{Files, Sink};
use std::alloc::Global;
use ver_print::print_verilog;

/// What is made of a design.
#[derive(Clone, Copy, Debug, PartialEq, Eq)]
pub enum Product {
    /// The text of its netlist.
    Net,
    /// The text of its wires in Calyx.
    Lower,
    /// Its netlist as a Verilog module.
    Verilog,
}

impl Product {
    /// What is made of a Filament design.
    fn of_filament(self, alloc: Global, design: &FilBuilt) -> Result<Vec<u8>, Memory>
        requires { IsFilReady design.now }
        ensures { IfOk result (λ text. IsMadeOfFilament self (filament.design_of design.now.design) text.items) }
    {
        match self {
            Product::Net => filc_run::text_of(alloc, design),
            Product::Lower => fil_cal::calyx_of(alloc, &FilOk::new(&design.design)),
            Product::Verilog => filc_run::verilog_of(alloc, design),
        }
    }

    /// What is made of a Calyx design.
    fn of_calyx(self, alloc: Global, design: &CalBuilt) -> Result<Vec<u8>, Memory>
        requires { IsCalReady design.now }
        ensures { IfOk result (λ text. IsMadeOfCalyx self (calyx.design_of design.now.design) text.items) }
    {
        match self {
            Product::Net => filc_calyx::text_of(alloc, design),
            Product::Lower => filc_calyx::lowered_text(alloc, design),
            Product::Verilog => filc_calyx::verilog_of(alloc, design),
        }
    }
}

/// Writes what is made of the design of a file.
pub(crate) fn perform<F: Files, O: Sink>(
    product: Product,
    alloc: Global,
    arguments: &Arguments,
    files: &mut F,
    out: &mut O,
) -> Result<(), Stop>
    ensures { Performs (making product) (arguments_told arguments.now) (disk_of F.names F.content F.faults files.old files.new) result
        (stream_of O.written O.faults out.old out.new) }
{
    let text = make(product, alloc, arguments, files)?;
    write_text(&text, out)?;
    Ok(())
}

/// The text that is made of the file's design, which is accepted.
fn make<F: Files>(
    product: Product,
    alloc: Global,
    arguments: &Arguments,
    files: &mut F,
) -> Result<Vec<u8>, Stop>
    ensures files { KeepsFiles F.names F.content F.faults arguments.now.design.now files.old files.new }
    ensures made { IsSome (F.content files.old arguments.now.design.now)
        → IfOk result (λ text. IsMadeIn arguments.now.language product (F.content files.old) arguments.now.design.now text.items) }
    ensures unread { IsSome (F.content files.old arguments.now.design.now)
        → IfErr result (IsUnread (F.content files.old) arguments.now.language arguments.now.design.now) }
    ensures known { KnowsFile (F.names files.old) arguments.now.design.now result }
    ensures read_fault { IsErrOf result Stop.ReadFault
        → IsReadFault (F.names files.old) arguments.now.design.now (F.faults files.old arguments.now.design.now) (F.faults files.new arguments.now.design.now) }
    ensures stops { IfErr result IsOfSource }
{
    match arguments.language {
        Language::Netlists => {
            let built = net_file::load(alloc, arguments.design, files)?;
            Ok(print_verilog(alloc, &built.net, &built.table)?)
        }
        Language::Filament => {
            let built = fil_file::load(alloc, arguments.design, files)?;
            Ok(product.of_filament(alloc, &built)?)
        }
        Language::Calyx => {
            let built = cal_file::load(alloc, arguments.design, files)?;
            Ok(product.of_calyx(alloc, &built)?)
        }
    }
}
