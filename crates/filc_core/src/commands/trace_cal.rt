//! The command `trace` of a Calyx design: its netlist's text, and the rows of all ports of that under a stimulus.
ghost use Rattle.filc_core.specs.Call.{disk_of, stream_of};
ghost use Rattle.filc_core.specs.commands.TraceCal.{trace_cal};
ghost use Rattle.filc_core.specs.inside.Performing.{Performs};
ghost use Rattle.filc_core.specs.inside.Told.{arguments_told};

use crate::arguments::Arguments;
use filc_calyx::make_net;
use filc_load::{cal_file, stimulus};
use filc_report::run;
use filc_run::with_empty_line;
use filc_stop::Stop;
use hw_io::{Files, Sink};
use std::alloc::Global;

/// Writes the text of the netlist of a Calyx design, and the rows of all its ports, as a stimulus drives it.
pub(crate) fn perform<F: Files, O: Sink>(
    alloc: Global,
    arguments: &Arguments,
    files: &mut F,
    out: &mut O,
) -> Result<(), Stop>
    ensures { Performs trace_cal (arguments_told arguments.now) (disk_of F.names F.content F.faults files.old files.new) result
        (stream_of O.written O.faults out.old out.new) }
{
    let design = cal_file::load(alloc, arguments.design, files)?;
    let built = make_net(alloc, &design)?;
    let list = stimulus::load_cycles(alloc, arguments.stimulus, &built, files)?;
    let head = with_empty_line(alloc, &built.net)?;
    run(alloc, &built, &list, &head, true, out)
}
