//! The command `sim` of a Calyx design: the rows of its outputs under a stimulus, as its schedule means them.
ghost use Rattle.filc_core.specs.Call.{disk_of, stream_of};
ghost use Rattle.filc_core.specs.commands.SimCal.{sim_cal};
ghost use Rattle.filc_core.specs.inside.Performing.{Performs};
ghost use Rattle.filc_core.specs.inside.Told.{arguments_told};

use crate::arguments::Arguments;
use filc_calyx::make_net;
use filc_load::{cal_file, stimulus};
use filc_report::run;
use filc_stop::Stop;
use hw_io::{Files, Sink};
use std::alloc::Global;

/// Writes the rows of the outputs of a Calyx design, as a stimulus drives it.
pub(crate) fn perform<F: Files, O: Sink>(
    alloc: Global,
    arguments: &Arguments,
    files: &mut F,
    out: &mut O,
) -> Result<(), Stop>
    ensures { Performs sim_cal (arguments_told arguments.now) (disk_of F.names F.content F.faults files.old files.new) result
        (stream_of O.written O.faults out.old out.new) }
{
    let design = cal_file::load(alloc, arguments.design, files)?;
    let built = make_net(alloc, &design)?;
    let list = stimulus::load_cycles(alloc, arguments.stimulus, &built, files)?;
    run(alloc, &built, &list, &[], false, out)
}
