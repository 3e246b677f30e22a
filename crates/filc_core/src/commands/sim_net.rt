//! The command `sim` of a netlist: the rows of its outputs under a stimulus.
ghost use Rattle.filc_core.specs.Call.{disk_of, stream_of};
ghost use Rattle.filc_core.specs.commands.SimNet.{sim_net};
ghost use Rattle.filc_core.specs.inside.Performing.{Performs};
ghost use Rattle.filc_core.specs.inside.Told.{arguments_told};

use crate::arguments::Arguments;
use filc_load::{net_file, stimulus};
use filc_report::run;
use filc_stop::Stop;
use hw_io::{Files, Sink};
use std::alloc::Global;

/// Writes the rows of a netlist's outputs, as a stimulus drives it.
pub(crate) fn perform<F: Files, O: Sink>(
    alloc: Global,
    arguments: &Arguments,
    files: &mut F,
    out: &mut O,
) -> Result<(), Stop>
    ensures { Performs sim_net (arguments_told arguments.now) (disk_of F.names F.content F.faults files.old files.new) result
        (stream_of O.written O.faults out.old out.new) }
{
    let built = net_file::load(alloc, arguments.design, files)?;
    let list = stimulus::load_cycles(alloc, arguments.stimulus, &built, files)?;
    run(alloc, &built, &list, &[], false, out)
}
