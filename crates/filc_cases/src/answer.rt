//! A call of the program, and its answer.
use anyhow::{Result, bail};
use filc_core::{Ended, filc};
use hw_io::{DiskFiles, StdSink};

/// What the program answers, reports and says.
#[derive(Drop)]
pub struct Answer {
    pub ended: Ended,
    pub report: Vec<u8>,
    /// The error line, with its line feed.
    pub line: Vec<u8>,
}

/// Calls the program with these words, over the files of the working directory.
pub fn ask(rt: &HostRuntime, words: &[&str]) -> Result<Answer> {
    let alloc = rt.alloc();
    let Ok(mut files) = DiskFiles::new(rt, alloc, words) else {
        bail!("out of memory")
    };
    let mut report = Vec::new(alloc);
    let mut line = Vec::new(alloc);
    let mut out = StdSink::new(&mut report);
    let mut err = StdSink::new(&mut line);
    let ended = filc(alloc, words, &mut files, &mut out, &mut err);
    Ok(Answer {
        ended,
        report,
        line,
    })
}

/// The name of an answer.
pub fn name_of(ended: Ended) -> &'static str {
    match ended {
        Ended::Done => "done",
        Ended::Refused => "refused",
        Ended::Usage => "usage",
        Ended::ReadFault => "read fault",
        Ended::WriteFault => "write fault",
        Ended::Memory => "out of memory",
        Ended::Stimulus => "stimulus",
        Ended::Conflict => "conflict",
        Ended::Limit => "limit",
    }
}
