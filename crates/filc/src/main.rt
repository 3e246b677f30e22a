//! The program: from the words of the command line, the files of the system and its two streams to a status.
#![tactic(auto)]

use filc_core::{Ended, filc};
use hw_bits::Memory;
use hw_io::{DiskFiles, StdSink, write_whole};
use std::alloc::Global;
use std::env;
use std::env::Args;
use std::io::ErrorKind;
use std::process::ExitCode;

/// The status where the system gives no words, for another cause than want of memory. No answer has it.
const NO_WORDS: u8 = 9;

/// Runs the command that the words after the program's name ask for.
fn run(rt: &HostRuntime, args: Args) -> Result<Ended, Memory> {
    let alloc = rt.alloc();
    let args: Vec<String> = args.skip(1).collect(alloc)?;
    let mut words = Vec::with_capacity(alloc, args.len())?;
    for arg in &args {
        words.push(arg.as_str())?;
    }
    let mut files = DiskFiles::new(rt, alloc, &words)?;
    let mut out = StdSink::new(rt.stdout());
    let mut err = StdSink::new(rt.stderr());
    Ok(filc(alloc, &words, &mut files, &mut out, &mut err))
}

/// Tells that there is no memory for the words. The answer stays where the line can't be written.
fn tell_memory(rt: &HostRuntime) -> Ended {
    let mut err = StdSink::new(rt.stderr());
    let _told = write_whole(&mut err, b"out of memory\n");
    Ended::Memory
}

fn main(rt: HostRuntime) -> ExitCode {
    let ended = match env::args(&rt) {
        Ok(args) => match run(&rt, args) {
            Ok(ended) => ended,
            Err(Memory) => tell_memory(&rt),
        },
        Err(error) if error.kind() == ErrorKind::OutOfMemory => tell_memory(&rt),
        Err(_) => return ExitCode::from(NO_WORDS),
    };
    ExitCode::from(ended.status())
}
