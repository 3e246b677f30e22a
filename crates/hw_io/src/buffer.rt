//! Bytes that are gathered before they go into a sink.
ghost use Rattle.std.specs.Prelude.{◌≡◌, ℕ, ◌+◌, ◌≤◌, List, [], ◌++◌, length, vec_capacity, IfOk, OnOk, OnErr};
ghost use Rattle.std.specs.Io.KnownBytes.{Appends};
ghost use Rattle.hw_io.specs.declared.buffer.TheConstants.{HELD_BYTES};
ghost use Rattle.hw_io.specs.Faults.{Rose};
ghost use Rattle.hw_io.specs.Writing.{AppendsPrefix, Passes};

use crate::faults::Failed;
use crate::writing::{Sink, write_whole};
use hw_bits::Memory;
use std::alloc::Global;
use std::marker::Model;

/// The most bytes that a `Gather` holds.
pub const HELD_BYTES: usize = 65_536;

/// Bytes on their way into a sink, of which few large pieces are made. It is seen as the list of
/// the bytes that it holds, at most `HELD_BYTES`.
#[derive(Debug, Drop)]
pub struct Gather {
    held: Vec<u8>,
}

impl Model for Gather {
    ghost Value = { List ℕ };

    ghost view = { λ gather. gather.held.items };

    ghost invariant = { λ gather. (length gather.held.items ≤ HELD_BYTES)
        × (HELD_BYTES ≤ vec_capacity gather.held) };
}

impl Gather {
    /// Nothing is held.
    pub fn new(alloc: Global) -> Result<Gather, Memory>
        ensures { IfOk result (λ gather. gather ≡ []) }
    {
        Ok(Gather {
            held: Vec::with_capacity(alloc, HELD_BYTES)?,
        })
    }

    /// Passes bytes on to the sink, or holds them. At `Failed` the sink gained a prefix of what was
    /// held and these bytes, and nothing is held. Takes no memory.
    pub fn push<S: Sink>(&mut self, sink: &mut S, bytes: &[u8]) -> Result<(), Failed>
        ensures passed { OnOk result
            (Passes (S.written sink.old) self.old (S.written sink.new) self.new bytes.now) }
        ensures prefix { OnErr result
            (AppendsPrefix (S.written sink.old) (S.written sink.new) (self.old ++ bytes.now)) }
        ensures emptied { OnErr result (self.new ≡ []) }
        ensures few { length self.new ≤ HELD_BYTES }
        ensures failed { OnErr result (Rose (S.faults sink.old) (S.faults sink.new)) }
        ensures never_falls { S.faults sink.old ≤ S.faults sink.new }
    {
        if bytes.len() <= HELD_BYTES - self.held.len() {
            self.hold(bytes);
            return Ok(());
        }
        self.flush(sink)?;
        if bytes.len() > HELD_BYTES {
            return write_whole(sink, bytes);
        }
        self.hold(bytes);
        Ok(())
    }

    /// Writes what is held to the sink. Nothing is held after it, also at `Failed`, where the sink
    /// gained a prefix of what was held. Takes no memory.
    pub fn flush<S: Sink>(&mut self, sink: &mut S) -> Result<(), Failed>
        ensures appended { OnOk result (Appends (S.written sink.old) (S.written sink.new) self.old) }
        ensures prefix { OnErr result (AppendsPrefix (S.written sink.old) (S.written sink.new) self.old) }
        ensures emptied { self.new ≡ [] }
        ensures failed { OnErr result (Rose (S.faults sink.old) (S.faults sink.new)) }
        ensures never_falls { S.faults sink.old ≤ S.faults sink.new }
    {
        let result = write_whole(sink, &self.held);
        self.held.clear();
        result
    }

    // Holds more bytes, for which there is room.
    fn hold(&mut self, bytes: &[u8])
        requires { length self.old + length bytes.now ≤ HELD_BYTES }
        ensures held { self.new ≡ self.old ++ bytes.now }
    {
        match self.held.extend_from_slice(bytes) {
            Ok(()) => {}
            Err(_) => unreachable!(),
        }
    }
}
