//! Whether a file is accepted, in its language.
ghost use Rattle.std.specs.Prelude.{IfErr, IsErrOf, IsSome, OnOk};
ghost use Rattle.hw_io.specs.Reading.{KeepsFiles, IsReadFault};
ghost use Rattle.filc_stop.specs.Stops.{IsOfSource};
ghost use Rattle.filc_load.specs.Built.{IsUnread, KnowsFile};
ghost use Rattle.filc_load.specs.Source.{IsAccepted};

use crate::{cal_file, fil_file, net_file};
use filc_stop::{Language, Stop};
use hw_io::Files;
use std::alloc::Global;

/// Judges the file: it is accepted where it gives what a file in its language is to give.
pub fn accept<F: Files>(
    alloc: Global,
    language: Language,
    file: &str,
    files: &mut F,
) -> Result<(), Stop>
    ensures files { KeepsFiles F.names F.content F.faults file.now files.old files.new }
    ensures accepted { IsSome (F.content files.old file.now) → OnOk result (IsAccepted (F.content files.old) language file.now) }
    ensures unread { IsSome (F.content files.old file.now) → IfErr result (IsUnread (F.content files.old) language file.now) }
    ensures known { KnowsFile (F.names files.old) file.now result }
    ensures read_fault { IsErrOf result Stop.ReadFault
        → IsReadFault (F.names files.old) file.now (F.faults files.old file.now) (F.faults files.new file.now) }
    ensures stops { IfErr result IsOfSource }
{
    match language {
        Language::Netlists => {
            let _built = net_file::load(alloc, file, files)?;
        }
        Language::Filament => {
            let _built = fil_file::load(alloc, file, files)?;
        }
        Language::Calyx => {
            let _built = cal_file::load(alloc, file, files)?;
        }
    }
    Ok(())
}
