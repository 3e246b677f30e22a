//! A read and a write that are tried again where a signal interrupts them.
ghost use Rattle.std.specs.Prelude.{◌<◌, length};
ghost use Rattle.std.specs.Io.{ReadsAtMost, WritesAtMost};
ghost use Rattle.std.specs.Io.KnownBytes.{ReadConsumes, WriteAppends};

use crate::faults::Failed;
use std::io::{ErrorKind, Read, Write};

// How often a call is tried. A loop has to end, so it is as often as std's own `read_to_end` and
// `write_all` try; no process lives to get as many signals.
const MOST_TRIES: u64 = u64::MAX;

/// Reads into the front of `buf`, and answers how many bytes: none only at the end, or where there
/// is no room. `Failed` reads nothing.
pub(crate) fn read_some<R: Read>(reader: &mut R, buf: &mut [u8]) -> Result<usize, Failed>
    ensures fits { ReadsAtMost result buf.new }
    ensures consumed { ReadConsumes (R.remaining reader.old) (R.remaining reader.new) result buf.new }
{
    for _ in 0..MOST_TRIES {
        match reader.read(buf) {
            Ok(count) => return Ok(count),
            Err(error) if error.kind() == ErrorKind::Interrupted => {}
            Err(_) => return Err(Failed),
        }
    }
    Err(Failed)
}

/// Writes bytes from the front of `bytes`, of which there is one, and answers how many. `Failed`
/// writes nothing.
pub(crate) fn write_some<W: Write>(writer: &mut W, bytes: &[u8]) -> Result<usize, Failed>
    requires some { 0 < length bytes.now }
    ensures fits { WritesAtMost result bytes.now }
    ensures appended { WriteAppends (W.contents writer.old) (W.contents writer.new) result bytes.now }
{
    for _ in 0..MOST_TRIES {
        match writer.write(bytes) {
            Ok(count) => return Ok(count),
            Err(error) if error.kind() == ErrorKind::Interrupted => {}
            Err(_) => return Err(Failed),
        }
    }
    Err(Failed)
}
