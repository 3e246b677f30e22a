//! The commands, one file for each: how it is done. `specs/commands/` says what comes of each.
ghost use Rattle.filc_core.specs.Call.{disk_of, stream_of};
ghost use Rattle.filc_core.specs.Request.{entry_of};
ghost use Rattle.filc_core.specs.inside.Performing.{Performs};
ghost use Rattle.filc_core.specs.inside.Told.{arguments_told};

mod check;
mod flow;
mod making;
mod rows;
mod sched_cal;
mod sim_cal;
mod sim_fil;
mod sim_net;
mod soak;
mod timeline;
mod trace_cal;
mod trace_fil;
mod trace_net;

use crate::arguments::Arguments;
pub use crate::commands::making::Product;
use crate::name::CommandName;
use filc_stop::Stop;
use hw_io::{Files, Sink};
use std::alloc::Global;

/// Does what a command is given, and writes the report.
pub(crate) fn perform<F: Files, O: Sink>(
    command: CommandName,
    alloc: Global,
    arguments: &Arguments,
    files: &mut F,
    out: &mut O,
) -> Result<(), Stop>
    ensures { Performs (entry_of command).command (arguments_told arguments.now) (disk_of F.names F.content F.faults files.old files.new) result
        (stream_of O.written O.faults out.old out.new) }
{
    match command {
        CommandName::Check => check::perform(alloc, arguments, files, out),
        CommandName::Rows => rows::perform(alloc, arguments, files, out),
        CommandName::SimNet => sim_net::perform(alloc, arguments, files, out),
        CommandName::TraceNet => trace_net::perform(alloc, arguments, files, out),
        CommandName::Flow => flow::perform(alloc, arguments, files, out),
        CommandName::Timeline => timeline::perform(alloc, arguments, files, out),
        CommandName::SimFil => sim_fil::perform(alloc, arguments, files, out),
        CommandName::TraceFil => trace_fil::perform(alloc, arguments, files, out),
        CommandName::SimCal => sim_cal::perform(alloc, arguments, files, out),
        CommandName::TraceCal => trace_cal::perform(alloc, arguments, files, out),
        CommandName::SchedCal => sched_cal::perform(alloc, arguments, files, out),
        CommandName::Soak => soak::perform(alloc, arguments, files, out),
        CommandName::Net => making::perform(Product::Net, alloc, arguments, files, out),
        CommandName::Lower => making::perform(Product::Lower, alloc, arguments, files, out),
        CommandName::Verilog => making::perform(Product::Verilog, alloc, arguments, files, out),
    }
}
