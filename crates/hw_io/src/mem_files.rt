//! Files in memory, with calls that fail as they are told to.
ghost use Rattle.std.specs.Prelude.{◌≡◌, ◌+◌, ◌-◌, ◌^◌, ◌≤◌, ◌↔◌, ◌⊎◌, ◌++◌, min, length, take, drop, position, Contains, IsErr, IfOk, OnOk, OnErr, IfSome};
ghost use Rattle.hw_io.specs.Reading.{KeepsFiles, IsReadFault, IsPiece};
ghost use Rattle.hw_io.specs.MemFiles.{has_name, names_of, content_of, faults_of};

use crate::faults::{Failed, is_to_fail, raised};
use crate::reading::Files;

/// A file in memory.
#[derive(Debug, Drop)]
pub struct MemFile {
    /// The name, in bytes.
    pub name: Vec<u8>,
    /// The content.
    pub bytes: Vec<u8>,
    /// How often reading it failed; it stays at 2^64 - 1.
    pub faults: u64,
}

/// Files in memory. A name means the first entry that has it.
#[derive(Debug, Drop)]
pub struct MemFiles {
    /// The files.
    pub held: Vec<MemFile>,
    /// The numbers of the calls that are to fail, counted from 1.
    pub fails: Vec<u64>,
    /// How many calls there were; it stays at 2^64 - 1.
    pub calls: u64,
}

// The place of the first entry that has the name.
fn place_of(held: &[MemFile], name: &[u8]) -> Option<usize>
    ensures { result ≡ position (has_name name.now) held.now }
{
    held.iter().position(|file| file.name.as_slice() == name)
}

// Copies what is there from `at` on into the front of `buf`, as much as fits.
fn copy_piece(bytes: &[u8], at: u64, buf: &mut [u8]) -> usize
    ensures count { result ≡ min (length buf.old) (length bytes.now - at) }
    ensures copied { buf.new ≡ take result (drop at bytes.now) ++ drop result buf.old }
{
    let rest = &bytes[bytes.len().min(at as usize)..];
    let count = rest.len().min(buf.len());
    buf[..count].copy_from_slice(&rest[..count]);
    count
}

impl Files for MemFiles {
    ghost names = { names_of };

    ghost content = { content_of };

    ghost faults = { faults_of };

    fn piece(&mut self, name: &str, at: u64, buf: &mut [u8]) -> Result<usize, Failed>
        requires { at ≤ 2 ^ 32 }
        ensures kept { KeepsFiles names_of content_of faults_of name.now self.old self.new }
        ensures known { OnOk result (Contains (names_of self.old) name.now) }
        ensures fits { IfOk result (λ n. n ≤ length buf.new) }
        ensures told { IfOk result (λ n. IfSome (content_of self.old name.now)
            (λ bytes. IsPiece bytes at buf.new n)) }
        ensures failed { OnErr result (IsReadFault (names_of self.old) name.now
            (faults_of self.old name.now) (faults_of self.new name.now)) }

        // A call fails exactly where no file has the name or it is told to, and the file's count is
        // then one more.
        ensures calls { self.new.calls ≡ min (self.old.calls + 1) (2 ^ 64 - 1) }
        ensures fails { self.new.fails.items ≡ self.old.fails.items }
        ensures failing { IsErr result ↔
            ((¬ Contains (names_of self.old) name.now) ⊎ Contains self.old.fails.items self.new.calls) }
        ensures counted { OnErr result (Contains (names_of self.old) name.now →
            faults_of self.new name.now ≡ min (faults_of self.old name.now + 1) (2 ^ 64 - 1)) }
        ensures err { OnErr result (buf.new ≡ buf.old) }

        // Else it gives what is there from the place on, as much as fits, and no file changes.
        ensures given { IfOk result (λ n. IfSome (content_of self.old name.now) (λ bytes.
            (n ≡ min (length buf.old) (length bytes - at))
            × (buf.new ≡ take n (drop at bytes) ++ drop n buf.old))) }
        ensures held { OnOk result (self.new.held.items ≡ self.old.held.items) }
    {
        self.calls = raised(self.calls);
        let Some(place) = place_of(&self.held, name.as_bytes()) else {
            return Err(Failed);
        };
        let file = &mut self.held[place];
        if is_to_fail(&self.fails, self.calls) {
            file.faults = raised(file.faults);
            return Err(Failed);
        }
        Ok(copy_piece(&file.bytes, at, buf))
    }
}
