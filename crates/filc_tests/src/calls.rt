//! Calls of the program over files and sinks in memory.
use filc_core::{Ended, filc};
use hw_io::{MemFile, MemFiles, MemSink};
use std::alloc::{AllocError, Global};
use std::test::Fail;

/// The most bytes that a sink takes at once.
pub(crate) const MOST: usize = 4;

/// What the program said.
#[derive(Drop)]
pub(crate) struct Said {
    pub(crate) ended: Ended,
    pub(crate) report: String,
    pub(crate) line: String,
}

/// The files, of a netlist, a Filament design and a Calyx design of one text, and of a stimulus, of which these calls fail.
fn files(
    alloc: Global,
    text: &str,
    stimulus: &[u8],
    fails: &[u64],
) -> Result<MemFiles, AllocError> {
    let mut held = Vec::new(alloc);
    for (name, bytes) in [
        ("f.net", text.as_bytes()),
        ("f.fil", text.as_bytes()),
        ("f.futil", text.as_bytes()),
        ("s.json", stimulus),
    ] {
        held.push(MemFile {
            name: name.as_bytes().to_vec(alloc)?,
            bytes: bytes.to_vec(alloc)?,
            faults: 0,
        })?;
    }
    Ok(MemFiles {
        held,
        fails: fails.to_vec(alloc)?,
        calls: 0,
    })
}

/// Asks the program, where these calls of the files and of each sink fail.
pub(crate) fn ask_faulty(
    alloc: Global,
    words: &[&str],
    text: &str,
    stimulus: &str,
    fails: [&[u64]; 3],
) -> Result<Said, Fail> {
    let [pieces, reports, lines] = fails;
    let mut files = files(alloc, text, stimulus.as_bytes(), pieces)?;
    let mut out = MemSink::new(alloc, 1000, MOST, reports.to_vec(alloc)?)?;
    let mut err = MemSink::new(alloc, 1000, MOST, lines.to_vec(alloc)?)?;
    let ended = filc(alloc, words, &mut files, &mut out, &mut err);
    Ok(Said {
        ended,
        report: String::from_utf8_lossy(alloc, out.written())?,
        line: String::from_utf8_lossy(alloc, err.written())?,
    })
}
