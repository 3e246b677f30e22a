//! The transcript: what a list asks and what is answered, line by line.
use crate::answer::{Answer, name_of};
use crate::comparison::Found;
use anyhow::{Context, Result, bail};
use hw_io::{Failed, Gather, StdSink};
use std::alloc::{AllocError, Global};
use std::io::Stdout;

/// A report of more bytes is shown by its first lines, and what it comes to.
const WHOLE_BYTES: usize = 5000;

/// How many lines of a longer report are shown.
const FIRST_LINES: usize = 5;

/// The transcript on its way to standard output.
#[derive(Drop)]
pub struct Transcript {
    alloc: Global,
    held: Gather,
    out: StdSink<Stdout>,
}

impl Transcript {
    /// An empty transcript.
    pub fn new(rt: &HostRuntime) -> Result<Transcript> {
        let alloc = rt.alloc();
        let Ok(held) = Gather::new(alloc) else {
            bail!("out of memory")
        };
        let out = StdSink::new(rt.stdout());
        Ok(Transcript { alloc, held, out })
    }

    /// Writes the text and a line feed behind the mark.
    pub fn line(&mut self, mark: &str, text: &str) -> Result<()> {
        let line = format!(in self.alloc; "{mark}{text}\n")?;
        match self.held.push(&mut self.out, line.as_bytes()) {
            Ok(()) => Ok(()),
            Err(Failed) => bail!("standard output"),
        }
    }

    /// Writes what is still held.
    pub fn finish(mut self) -> Result<()> {
        match self.held.flush(&mut self.out) {
            Ok(()) => Ok(()),
            Err(Failed) => bail!("standard output"),
        }
    }

    /// Writes the report, where it is shown, the error line and the answer.
    pub fn answer(&mut self, answer: &Answer, shown: bool) -> Result<()> {
        if shown {
            self.report(&answer.report)?;
        }
        let line = str::from_utf8(&answer.line).context("the error line")?;
        for line in line.lines() {
            self.line("! ", line)?;
        }
        let status = answer.ended.status();
        let name = name_of(answer.ended);
        let answered = format!(in self.alloc; "{status} {name}")?;
        self.line("= ", answered.as_str())
    }

    /// Writes what is found.
    pub fn found(&mut self, found: &Found) -> Result<()> {
        match found {
            Found::Yes => self.line("= ", "yes"),
            Found::No => self.line("= ", "no"),
            Found::Lines(lines) => self.lines(lines.as_str(), usize::MAX),
        }
    }

    /// Writes the report, or its first lines and what it comes to.
    fn report(&mut self, report: &[u8]) -> Result<()> {
        let text = str::from_utf8(report).context("the report")?;
        if report.len() <= WHOLE_BYTES {
            return self.lines(text, usize::MAX);
        }
        self.lines(text, FIRST_LINES)?;
        let comes_to = summary(self.alloc, text)?;
        self.line(".. ", comes_to.as_str())
    }

    /// Writes so many lines of the text.
    fn lines(&mut self, text: &str, most: usize) -> Result<()> {
        for line in text.lines().take(most) {
            self.line("| ", line)?;
        }
        Ok(())
    }
}

/// How many lines and bytes the report has, and their sum.
fn summary(alloc: Global, report: &str) -> Result<String, AllocError> {
    let lines = report.lines().count();
    let bytes = report.len();
    let sum = fnv_1a(report.as_bytes());
    format!(in alloc; "{lines} lines, {bytes} bytes, sum {sum:016x}")
}

/// The sum of the bytes by FNV-1a in 64 bits: each byte goes into the low bits by exclusive or, and then all is multiplied.
fn fnv_1a(bytes: &[u8]) -> u64 {
    let mut sum = 0xcbf2_9ce4_8422_2325u64;
    for byte in bytes {
        sum = (sum ^ *byte as u64).wrapping_mul(0x100_0000_01b3);
    }
    sum
}
