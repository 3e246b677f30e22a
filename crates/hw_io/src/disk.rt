//! What opens files by their names, and the disk of the system. What a real file holds is told by no contract.
ghost use Rattle.std.specs.Prelude.{ℕ, List, Option, None, IfOk};
ghost use Rattle.hw_io.specs.Disk.{StandsAt};

use std::fs::File;
use std::io;
use std::io::{Read, Seek, SeekFrom};

/// What opens files by their names.
pub trait Disk {
    /// A file that is open.
    type Open: Read + Drop;

    // The content of a name, where it is told.
    ghost content: { Self → List ℕ → Option (List ℕ) };

    /// Opens the file of a name, to be read from the place `at` on.
    fn open(&self, name: &str, at: u64) -> io::Result<Self::Open>
        ensures { IfOk result (λ file. StandsAt (content self.now name.now) at (Self.Open.remaining file)) };
}

/// The disk of the system, on which a name is a path. A file that has no places, as a pipe, is not
/// opened.
impl<R: std::rt::Files> Disk for &R {
    type Open = R::File;

    ghost content = { λ _ _. None };

    fn open(&self, name: &str, at: u64) -> io::Result<R::File> {
        let mut file = File::open(*self, name)?;
        file.seek(SeekFrom::Start(at))?;
        Ok(file)
    }
}
