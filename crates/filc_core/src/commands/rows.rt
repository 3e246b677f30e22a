//! The command `rows`: the rows of a netlist's outputs.
ghost use Rattle.filc_core.specs.Call.{disk_of, stream_of};
ghost use Rattle.filc_core.specs.commands.Rows.{rows};
ghost use Rattle.filc_core.specs.inside.Performing.{Performs};
ghost use Rattle.filc_core.specs.inside.Told.{arguments_told};

use crate::arguments::Arguments;
use filc_load::net_file;
use filc_report::run;
use filc_stop::{Refusal, Stop};
use hw_io::{Files, Sink};
use hw_limits::MOST_CYCLES;
use net_core::CycleList;
use std::alloc::Global;

/// Writes the rows of a netlist's outputs, for so many cycles.
pub(crate) fn perform<F: Files, O: Sink>(
    alloc: Global,
    arguments: &Arguments,
    files: &mut F,
    out: &mut O,
) -> Result<(), Stop>
    ensures { Performs rows (arguments_told arguments.now) (disk_of F.names F.content F.faults files.old files.new) result
        (stream_of O.written O.faults out.old out.new) }
{
    let built = net_file::load(alloc, arguments.design, files)?;
    if arguments.count > MOST_CYCLES {
        return Err(Stop::Refused(Refusal::TooManyCycles {
            cycles: arguments.count,
        }));
    }
    let list = CycleList {
        cycles: arguments.count,
        sets: Vec::new(alloc),
        loads: Vec::new(alloc),
    };
    run(alloc, &built, &list, &[], false, out)
}
