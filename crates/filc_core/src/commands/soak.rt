//! The command `soak`: what the run of a design that the program has adds up to, under so many transactions.
ghost use Rattle.filc_core.specs.Call.{disk_of, stream_of};
ghost use Rattle.filc_core.specs.commands.Soak.{soak};
ghost use Rattle.filc_core.specs.inside.Performing.{Performs};
ghost use Rattle.filc_core.specs.inside.Told.{arguments_told};

use crate::arguments::Arguments;
use filc_run::write_soak;
use filc_stop::{Refusal, Stop};
use hw_io::{Files, Sink};
use hw_limits::MOST_TRANSACTIONS;
use std::alloc::Global;

/// Writes the netlist of the program's own design, and what its run adds up to under so many transactions.
pub(crate) fn perform<F: Files, O: Sink>(
    alloc: Global,
    arguments: &Arguments,
    _files: &mut F,
    out: &mut O,
) -> Result<(), Stop>
    ensures { Performs soak (arguments_told arguments.now) (disk_of F.names F.content F.faults _files.old _files.new) result
        (stream_of O.written O.faults out.old out.new) }
{
    if arguments.count > MOST_TRANSACTIONS {
        return Err(Stop::Refused(Refusal::StimulusTooLarge {
            count: arguments.count,
            limit: MOST_TRANSACTIONS,
            cycles: false,
        }));
    }
    write_soak(alloc, arguments.count, out)
}
