//! A sink in memory, with calls that fail as they are told to.
ghost use Rattle.std.specs.Prelude.{◌≡◌, ◌+◌, ◌^◌, ◌-◌, ◌<◌, ◌≤◌, ◌↔◌, ◌⊎◌, [], ◌++◌, length, take, min, vec_len, Some, Contains, IsErr, IfOk, OnOk, OnErr};
ghost use Rattle.std.specs.Io.KnownBytes.{Appends, Keeps};
ghost use Rattle.hw_io.specs.Faults.{Rose};

use crate::faults::{Failed, is_to_fail, raised};
use crate::writing::Sink;
use hw_bits::Memory;
use std::alloc::Global;

/// A sink in memory, which keeps what is written to it.
#[derive(Debug, Drop)]
pub struct MemSink {
    // What was written is the first `filled` bytes. The length is the room, and never changes.
    bytes: Vec<u8>,
    filled: usize,
    // The most bytes that one call takes.
    most: usize,
    // The numbers of the calls that are to fail, counted from 1.
    fails: Vec<u64>,
    // Both counts stay at 2^64 - 1 once they reach it.
    calls: u64,
    faults: u64,
    pub ghost within: { filled ≤ vec_len bytes },
    pub ghost takes: { 1 ≤ most },
}

// Writes the bytes over those at a place.
fn write_over(room: &mut [u8], at: usize, bytes: &[u8])
    requires { at + length bytes.now ≤ length room.old }
    ensures { take (at + length bytes.now) room.new ≡ take at room.old ++ bytes.now }
{
    room[at..at + bytes.len()].copy_from_slice(bytes);
}

impl MemSink {
    ghost use Rattle.hw_io.specs.MemSink.{written_of, room_of, most_of, fails_of, calls_of, faults_of};

    /// A sink with room for `room` bytes, that takes at most `most` in one call and fails in the
    /// calls of these numbers, counted from 1. Nothing is written to it yet.
    pub fn new(alloc: Global, room: usize, most: usize, fails: Vec<u64>) -> Result<MemSink, Memory>
        requires { 1 ≤ most }
        ensures written { IfOk result (λ sink. written_of sink ≡ []) }
        ensures room { IfOk result (λ sink. room_of sink ≡ room) }
        ensures most { IfOk result (λ sink. most_of sink ≡ most) }
        ensures fails { IfOk result (λ sink. fails_of sink ≡ fails.items) }
        ensures counts { IfOk result (λ sink. (calls_of sink ≡ 0) × (faults_of sink ≡ 0)) }
    {
        Ok(MemSink {
            bytes: vec![in alloc; 0u8; room]?,
            filled: 0,
            most,
            fails,
            calls: 0,
            faults: 0,
        })
    }

    /// The bytes that were written.
    pub fn written(&self) -> &[u8]
        ensures { result.now ≡ written_of self.now }
    {
        &self.bytes[..self.filled]
    }
}

impl Sink for MemSink {
    ghost use Rattle.hw_io.specs.MemSink.{written_of, room_of, free_of, most_of, fails_of, calls_of, faults_of, taken_of};

    ghost written = { λ sink. Some (written_of sink) };

    ghost faults = { faults_of };

    fn put(&mut self, bytes: &[u8]) -> Result<usize, Failed>
        ensures fits { IfOk result (λ n. n ≤ length bytes.now) }
        ensures some { IfOk result (λ n. 0 < length bytes.now → 0 < n) }
        ensures appended { IfOk result (λ n.
            Appends (Some (written_of self.old)) (Some (written_of self.new)) (take n bytes.now)) }
        ensures unchanged { OnErr result (Keeps (Some (written_of self.old)) (Some (written_of self.new))) }
        ensures failed { OnErr result (Rose (faults_of self.old) (faults_of self.new)) }
        ensures never_falls { faults_of self.old ≤ faults_of self.new }

        // A call fails exactly where it is told to, or there are bytes and no room is free.
        ensures calls { calls_of self.new ≡ min (calls_of self.old + 1) (2 ^ 64 - 1) }
        ensures failing { IsErr result ↔
            (Contains (fails_of self.old) (calls_of self.new)
            ⊎ ((0 < length bytes.now) × (free_of self.old ≡ 0))) }
        ensures counted { OnErr result (faults_of self.new ≡ min (faults_of self.old + 1) (2 ^ 64 - 1)) }

        // Else it takes as many bytes as fit and as one call takes.
        ensures taken { IfOk result (λ n. n ≡ taken_of self.old bytes.now) }
        ensures not_counted { OnOk result (faults_of self.new ≡ faults_of self.old) }

        ensures room { room_of self.new ≡ room_of self.old }
        ensures most { most_of self.new ≡ most_of self.old }
        ensures fails { fails_of self.new ≡ fails_of self.old }
    {
        self.calls = raised(self.calls);
        let free = self.bytes.len() - self.filled;
        if is_to_fail(&self.fails, self.calls) || (free == 0 && !bytes.is_empty()) {
            self.faults = raised(self.faults);
            return Err(Failed);
        }
        let count = bytes.len().min(self.most.min(free));
        write_over(&mut self.bytes, self.filled, &bytes[..count]);
        self.filled += count;
        Ok(count)
    }
}
