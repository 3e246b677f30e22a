//! Files of a disk. Each is opened once, and read on where the last piece ended.
ghost use Rattle.std.specs.Prelude.{◌≡◌, ℕ, ◌^◌, ◌≤◌, List, length, map, position, None, IfOk, IfSome, string_bytes};
ghost use Rattle.hw_io.specs.declared.disk_files.DiskFile.{DiskFile};
ghost use Rattle.hw_io.specs.Disk.{StandsAt};
ghost use Rattle.hw_io.specs.Reading.{IsPiece};
ghost use Rattle.hw_io.specs.inside.DiskFiles.{has_name, names_in, faults_in, IsRightlyOpen, AreRightlyOpen};

use crate::disk::Disk;
use crate::faults::{Failed, raised};
use crate::reading::Files;
use crate::retrying::read_some;
use hw_bits::Memory;
use std::alloc::Global;
use std::marker::Model;

// A file that is open, and the place up to which it was read.
#[derive(Drop)]
struct OpenFile<F> {
    file: F,
    at: u64,
}

// A name that is known, how often reading it failed, and its file once it was opened.
#[derive(Drop)]
struct DiskFile<F> {
    name: String,
    faults: u64,
    opened: Option<OpenFile<F>>,
}

/// Files of a disk, known by their names. A missing file is a fault of its name. A file is opened
/// where it is read from its beginning, and from then on read in order, so that one that is
/// replaced meanwhile is read to its end.
#[derive(Drop)]
pub struct DiskFiles<D: Disk> {
    disk: D,
    held: Vec<DiskFile<D::Open>>,
}

impl<D: Disk> Model for DiskFiles<D> {
    ghost Value = { D × List (DiskFile D.Open) };

    ghost view = { λ files. (files.disk, files.held.items) };

    ghost invariant = { λ files. AreRightlyOpen (D.content files.disk) D.Open.remaining files.held.items };
}

// The place of the first entry that has the name.
fn place_of<F>(held: &[DiskFile<F>], name: &[u8]) -> Option<usize>
    ensures { result ≡ position (has_name name.now) held.now }
{
    held.iter().position(|file| file.name.as_bytes() == name)
}

// The file of a name, to be read from `at` on: the open one where it was read up to there, else it
// is opened anew. It is taken out of its entry.
fn take_opened<D: Disk>(
    disk: &D,
    file: &mut DiskFile<D::Open>,
    at: u64,
) -> Result<OpenFile<D::Open>, Failed>
    requires { IsRightlyOpen (D.content disk.now) D.Open.remaining file.old }
    ensures stands { IfOk result (λ opened.
        StandsAt (D.content disk.now (string_bytes file.old.name)) at (D.Open.remaining opened.file)) }
    ensures place { IfOk result (λ opened. opened.at ≡ at) }
    ensures taken { file.new.opened ≡ None }
    ensures name { file.new.name ≡ file.old.name }
    ensures faults { file.new.faults ≡ file.old.faults }
{
    match file.opened.take() {
        Some(opened) if at > 0 && opened.at == at => Ok(opened),
        _ => match disk.open(file.name.as_str(), at) {
            Ok(file) => Ok(OpenFile { file, at }),
            Err(_) => Err(Failed),
        },
    }
}

// Reads what a name has from `at` on.
fn read_at<D: Disk>(
    disk: &D,
    file: &mut DiskFile<D::Open>,
    at: u64,
    buf: &mut [u8],
) -> Result<usize, Failed>
    requires place { at ≤ 2 ^ 32 }
    requires right { IsRightlyOpen (D.content disk.now) D.Open.remaining file.old }
    ensures right { IsRightlyOpen (D.content disk.now) D.Open.remaining file.new }
    ensures name { file.new.name ≡ file.old.name }
    ensures faults { file.new.faults ≡ file.old.faults }
    ensures fits { IfOk result (λ n. n ≤ length buf.new) }
    ensures told { IfOk result (λ n. IfSome (D.content disk.now (string_bytes file.old.name))
        (λ bytes. IsPiece bytes at buf.new n)) }
{
    let mut opened = take_opened(disk, file, at)?;
    let count = read_some(&mut opened.file, buf)?;
    opened.at += count as u64;
    file.opened = Some(opened);
    Ok(count)
}

impl<D: Disk + Drop> DiskFiles<D> {
    /// Files of the disk that are known by these names, in which no fault was met. None is open.
    pub fn new(disk: D, alloc: Global, names: &[&str]) -> Result<DiskFiles<D>, Memory>
        ensures known { IfOk result (λ files.
            ⟦<DiskFiles<D> as Files>⟧.names files ≡ map (λ name. name.now) names.now) }
        ensures told { IfOk result (λ files. (name : List ℕ) →
            ⟦<DiskFiles<D> as Files>⟧.content files name ≡ D.content disk name) }
        ensures no_fault { IfOk result (λ files. (name : List ℕ) →
            ⟦<DiskFiles<D> as Files>⟧.faults files name ≡ 0) }
    {
        let mut held = Vec::new(alloc);
        for name in names {
            let name = String::from_str(alloc, name)?;
            held.push(DiskFile {
                name,
                faults: 0,
                opened: None,
            })?;
        }
        Ok(DiskFiles { disk, held })
    }
}

impl<D: Disk> Files for DiskFiles<D> {
    ghost names = { λ files. names_in files.1 };

    ghost content = { λ files. D.content files.0 };

    ghost faults = { λ files. faults_in files.1 };

    fn piece(&mut self, name: &str, at: u64, buf: &mut [u8]) -> Result<usize, Failed> {
        let Some(place) = place_of(&self.held, name.as_bytes()) else {
            return Err(Failed);
        };
        let file = &mut self.held[place];
        let Ok(count) = read_at(&self.disk, file, at, buf) else {
            file.faults = raised(file.faults);
            return Err(Failed);
        };
        Ok(count)
    }
}
