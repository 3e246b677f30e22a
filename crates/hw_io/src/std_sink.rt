//! A stream as a sink.
ghost use Rattle.std.specs.Prelude.{◌≡◌};

use crate::faults::{Failed, raised};
use crate::retrying::write_some;
use crate::writing::Sink;
use std::io::Write;

/// A stream to which bytes are written, and how often that failed. What was written to it is what
/// the stream holds. A write that takes nothing is a fault; one that a signal interrupts is tried
/// again.
#[derive(Drop)]
pub struct StdSink<W> {
    to: W,
    faults: u64,
}

impl<W: Write> StdSink<W> {
    /// A sink for the stream, in which no fault was met.
    pub fn new(to: W) -> StdSink<W>
        ensures written { ⟦<StdSink<W> as Sink>⟧.written result ≡ W.contents to }
        ensures no_fault { ⟦<StdSink<W> as Sink>⟧.faults result ≡ 0 }
    {
        StdSink { to, faults: 0 }
    }
}

impl<W: Write> Sink for StdSink<W> {
    ghost written = { λ sink. W.contents sink.to };

    ghost faults = { λ sink. sink.faults };

    fn put(&mut self, bytes: &[u8]) -> Result<usize, Failed> {
        if bytes.is_empty() {
            return Ok(0);
        }
        match write_some(&mut self.to, bytes) {
            Ok(count) if count > 0 => Ok(count),
            _ => {
                self.faults = raised(self.faults);
                Err(Failed)
            }
        }
    }
}
