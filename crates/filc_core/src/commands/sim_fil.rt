//! The command `sim` of a Filament design: the rows of its outputs, as transactions drive its netlist.
ghost use Rattle.filc_core.specs.Call.{disk_of, stream_of};
ghost use Rattle.filc_core.specs.commands.SimFil.{sim_fil};
ghost use Rattle.filc_core.specs.inside.Performing.{Performs};
ghost use Rattle.filc_core.specs.inside.Told.{arguments_told};

use crate::arguments::Arguments;
use filc_load::{fil_file, stimulus};
use filc_run::write_outputs;
use filc_stop::Stop;
use hw_io::{Files, Sink};
use std::alloc::Global;

/// Writes the rows of the top component's outputs under a stimulus's transactions.
pub(crate) fn perform<F: Files, O: Sink>(
    alloc: Global,
    arguments: &Arguments,
    files: &mut F,
    out: &mut O,
) -> Result<(), Stop>
    ensures { Performs sim_fil (arguments_told arguments.now) (disk_of F.names F.content F.faults files.old files.new) result
        (stream_of O.written O.faults out.old out.new) }
{
    let design = fil_file::load(alloc, arguments.design, files)?;
    let list = stimulus::load_transactions(alloc, arguments.stimulus, &design, files)?;
    write_outputs(alloc, &design, &list, out)
}
