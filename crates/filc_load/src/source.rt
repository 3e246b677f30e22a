//! The text of a file.
ghost use Rattle.std.specs.Prelude.{◌≤◌, IfOk, IfErr, IsErrOf, IsSome, length};
ghost use Rattle.hw_io.specs.Reading.{KeepsFiles, IsReadFault};
ghost use Rattle.filc_load.specs.Built.{IsUnread, KnowsFile};
ghost use Rattle.filc_load.specs.Source.{Tells};
ghost use Rattle.filc_stop.specs.Language.{most_bytes};
ghost use Rattle.filc_stop.specs.Stops.{IsOfSource};

use filc_stop::{Language, Refusal, Stop};
use hw_io::{Files, ReadEnd, read_whole};
use std::alloc::Global;

/// The whole text of this file, in this language.
pub(crate) fn read_source<F: Files>(
    alloc: Global,
    language: Language,
    file: &str,
    files: &mut F,
) -> Result<Vec<u8>, Stop>
    ensures files { KeepsFiles F.names F.content F.faults file.now files.old files.new }
    ensures within { IfOk result (λ text. length text.items ≤ most_bytes language) }
    ensures read { IsSome (F.content files.old file.now) → IfOk result (λ text. Tells (F.content files.old) language file.now text.items) }
    ensures unread { IsSome (F.content files.old file.now) → IfErr result (IsUnread (F.content files.old) language file.now) }
    ensures known { KnowsFile (F.names files.old) file.now result }
    ensures read_fault { IsErrOf result Stop.ReadFault
        → IsReadFault (F.names files.old) file.now (F.faults files.old file.now) (F.faults files.new file.now) }
    ensures stops { IfErr result IsOfSource }
{
    match read_whole(alloc, files, file, language.most_bytes()) {
        Ok(text) => Ok(text),
        Err(ReadEnd::Fault) => Err(Stop::ReadFault),
        Err(ReadEnd::TooLong) => Err(Stop::Refused(Refusal::SourceTooLong { language })),
        Err(ReadEnd::Memory) => Err(Stop::Memory),
    }
}
