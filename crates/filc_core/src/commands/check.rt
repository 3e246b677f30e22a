//! The command `check`: whether a design keeps the rules.
ghost use Rattle.filc_core.specs.Call.{disk_of, stream_of};
ghost use Rattle.filc_core.specs.commands.Check.{check};
ghost use Rattle.filc_core.specs.inside.Performing.{Performs};
ghost use Rattle.filc_core.specs.inside.Told.{arguments_told};

use crate::arguments::Arguments;
use filc_load::accept;
use filc_report::write_accepted;
use filc_stop::Stop;
use hw_io::{Files, Sink};
use std::alloc::Global;

/// Whether the design of a file keeps the rules: it is accepted.
pub(crate) fn perform<F: Files, O: Sink>(
    alloc: Global,
    arguments: &Arguments,
    files: &mut F,
    out: &mut O,
) -> Result<(), Stop>
    ensures { Performs check (arguments_told arguments.now) (disk_of F.names F.content F.faults files.old files.new) result
        (stream_of O.written O.faults out.old out.new) }
{
    accept(alloc, arguments.language, arguments.design, files)?;
    write_accepted(out)?;
    Ok(())
}
