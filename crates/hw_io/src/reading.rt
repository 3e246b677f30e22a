//! Files, read in pieces by their names.
ghost use Rattle.std.specs.Prelude.{◌≡◌, ℕ, ◌^◌, ◌<◌, ◌≤◌, List, length, Option, Contains, IfOk, OnOk, OnErr, IfSome, IsErrOf};
ghost use Rattle.hw_io.specs.Reading.{KeepsFiles, IsReadFault, IsPiece};

use crate::faults::Failed;
use std::alloc::{AllocError, Global};

/// The most bytes that `read_whole` asks for at once.
pub const PIECE_BYTES: usize = 65_536;

/// Files that are read in pieces, by name. A name is a list of bytes.
pub trait Files {
    // The names that are known.
    ghost names: { Self → List (List ℕ) };

    // The content of a name, where it is told.
    ghost content: { Self → List ℕ → Option (List ℕ) };

    // How often reading a name failed. It never falls, and stays at 2^64 - 1.
    ghost faults: { Self → List ℕ → ℕ };

    /// Reads bytes from the place `at` on into the front of `buf`, and answers how many. `Failed`
    /// comes only where the name isn't known or its count of faults rose.
    fn piece(&mut self, name: &str, at: u64, buf: &mut [u8]) -> Result<usize, Failed>
        requires { at ≤ 2 ^ 32 }
        ensures kept { KeepsFiles names content faults name.now self.old self.new }
        ensures known { OnOk result (Contains (names self.old) name.now) }
        ensures fits { IfOk result (λ n. n ≤ length buf.new) }
        ensures told { IfOk result (λ n. IfSome (content self.old name.now)
            (λ bytes. IsPiece bytes at buf.new n)) }
        ensures failed { OnErr result (IsReadFault (names self.old) name.now
            (faults self.old name.now) (faults self.new name.now)) };
}

/// Why `read_whole` has no content to give.
#[derive(Clone, Copy, Debug, PartialEq, Eq)]
pub enum ReadEnd {
    /// The name isn't known, or its count of faults rose.
    Fault,
    /// The content has more bytes than the limit.
    TooLong,
    /// There was no memory.
    Memory,
}

impl From<Failed> for ReadEnd {
    ghost use Rattle.hw_io.specs.declared.reading.ReadEnd.TheVariants.{Fault};

    ghost from_gives = { λ _ end. end ≡ Fault };

    fn from(_failed: Failed) -> ReadEnd {
        ReadEnd::Fault
    }
}

impl From<AllocError> for ReadEnd {
    ghost use Rattle.hw_io.specs.declared.reading.ReadEnd.TheVariants.{Memory};

    ghost from_gives = { λ _ end. end ≡ Memory };

    fn from(_error: AllocError) -> ReadEnd {
        ReadEnd::Memory
    }
}

/// Reads the whole content of a name, in pieces of at most `PIECE_BYTES` bytes until a piece gives
/// none. `TooLong` comes exactly where there are more than `limit` bytes; so at most `limit + 1`
/// pieces are asked for.
pub fn read_whole<F: Files>(
    alloc: Global,
    files: &mut F,
    name: &str,
    limit: u64,
) -> Result<Vec<u8>, ReadEnd>
    requires { limit ≤ 2 ^ 32 }
    ensures kept { KeepsFiles F.names F.content F.faults name.now files.old files.new }
    ensures known { OnOk result (Contains (F.names files.old) name.now) }
    ensures known_long { IsErrOf result ReadEnd.TooLong → Contains (F.names files.old) name.now }
    ensures within { IfOk result (λ bytes. length bytes.items ≤ limit) }
    ensures whole { IfOk result (λ bytes. IfSome (F.content files.old name.now)
        (λ content. bytes.items ≡ content)) }
    ensures fault { IsErrOf result ReadEnd.Fault → IsReadFault (F.names files.old) name.now
        (F.faults files.old name.now) (F.faults files.new name.now) }
    ensures too_long { IsErrOf result ReadEnd.TooLong → Contains (F.names files.old) name.now
        × IfSome (F.content files.old name.now) (λ content. limit < length content) }
{
    let mut buffer = vec![in alloc; 0u8; PIECE_BYTES]?;
    let piece: &mut [u8] = &mut buffer;
    let mut bytes = Vec::new(alloc);
    loop {
        let at = bytes.len() as u64;
        let count = files.piece(name, at, piece)?;
        if count == 0 {
            return Ok(bytes);
        }
        if count as u64 > limit - at {
            return Err(ReadEnd::TooLong);
        }
        bytes.extend_from_slice(&piece[..count])?;
    }
}
