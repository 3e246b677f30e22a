//! The command `trace` of a netlist: its text, and the rows of all its ports under a stimulus.
ghost use Rattle.filc_core.specs.Call.{disk_of, stream_of};
ghost use Rattle.filc_core.specs.commands.TraceNet.{trace_net};
ghost use Rattle.filc_core.specs.inside.Performing.{Performs};
ghost use Rattle.filc_core.specs.inside.Told.{arguments_told};

use crate::arguments::Arguments;
use filc_load::{net_file, stimulus};
use filc_report::run;
use filc_run::with_empty_line;
use filc_stop::Stop;
use hw_io::{Files, Sink};
use std::alloc::Global;

/// Writes a netlist's text, and the rows of all its ports, as a stimulus drives it.
pub(crate) fn perform<F: Files, O: Sink>(
    alloc: Global,
    arguments: &Arguments,
    files: &mut F,
    out: &mut O,
) -> Result<(), Stop>
    ensures { Performs trace_net (arguments_told arguments.now) (disk_of F.names F.content F.faults files.old files.new) result
        (stream_of O.written O.faults out.old out.new) }
{
    let built = net_file::load(alloc, arguments.design, files)?;
    let list = stimulus::load_cycles(alloc, arguments.stimulus, &built, files)?;
    let text = with_empty_line(alloc, &built.net)?;
    run(alloc, &built, &list, &text, true, out)
}
