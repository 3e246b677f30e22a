//! The top call: from the words of the command line to the answer.
ghost use Rattle.std.specs.Prelude.{◌≤◌, map};
ghost use Rattle.hw_io.specs.Faults.{Rose};
ghost use Rattle.filc_stop.specs.Lines.{usage_line};
ghost use Rattle.filc_stop.specs.Stops.{IsLineTold};
ghost use Rattle.filc_core.specs.Call.{disk_of, stream_of};
ghost use Rattle.filc_core.specs.TopCall.{Answers};

use crate::commands::perform;
use crate::request::asked;
use filc_stop::Ended;
use hw_io::{Failed, Files, Sink, write_whole};
use std::alloc::Global;

/// Does what the words after the program's name ask for: the report goes to `out`, and the one line of a refusal to
/// `err`. Files are read by the names that the words have. Want of memory is the one answer without a cause.
pub fn filc<F: Files, O: Sink, E: Sink>(
    alloc: Global,
    words: &[&str],
    files: &mut F,
    out: &mut O,
    err: &mut E,
) -> Ended
    ensures { Answers (record {
      words = map (λ w. w.now) words.now;
      disk = disk_of F.names F.content F.faults files.old files.new;
      out = stream_of O.written O.faults out.old out.new;
      err = stream_of E.written E.faults err.old err.new;
      ended = result;
    }) }
{
    let Some(request) = asked(words) else {
        return refuse_words(err);
    };
    match perform(request.command, alloc, &request.arguments, files, out) {
        Ok(()) => Ended::Done,
        Err(stop) => stop.tell(request.arguments.design, request.arguments.stimulus, err),
    }
}

/// Tells how the program is used, as the words ask for nothing.
fn refuse_words<E: Sink>(err: &mut E) -> Ended
    ensures told { IsLineTold usage_line Ended.Usage Ended.WriteFault result
        (E.written err.old) (E.written err.new) (Rose (E.faults err.old) (E.faults err.new)) }
    ensures never_falls { E.faults err.old ≤ E.faults err.new }
{
    match write_whole(
        err,
        "usage: filc COMMAND FILE [STIMULUS or NUMBER]\n".as_bytes(),
    ) {
        Ok(()) => Ended::Usage,
        Err(Failed) => Ended::WriteFault,
    }
}
