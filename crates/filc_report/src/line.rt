//! A line as it is made.
ghost use Rattle.std.specs.Prelude.{◌≡◌, ◌+◌, ◌<◌, ◌≤◌, [], ◌∷◌, ◌++◌, length, take, decimal};
ghost use Rattle.filc_report.specs.Rows.{marked_port};
ghost use Rattle.filc_report.specs.declared.digits.TheConstants.{NUMBER_BYTES};
ghost use Rattle.filc_report.specs.declared.line.TheConstants.{LINE_BYTES, BESIDE_NAME};

use crate::digits::{NUMBER_BYTES, write_number, write_value};
use std::marker::Model;

/// The most bytes that a `Line` holds.
pub(crate) const LINE_BYTES: usize = 1024;

/// The most bytes that a port has beside its name: a space, `=` and a value.
pub(crate) const BESIDE_NAME: usize = NUMBER_BYTES + 2;

/// The bytes of a line, which goes on as one piece. It is seen as the list of the bytes that it holds, at most `LINE_BYTES`.
#[derive(Drop)]
pub(crate) struct Line {
    bytes: [u8; LINE_BYTES],
    len: usize,
}

impl Model for Line {
    ghost use Rattle.std.specs.Prelude.{ℕ, ◌≤◌, List, take};
    ghost use Rattle.filc_report.specs.declared.line.TheConstants.{LINE_BYTES};

    ghost Value = { List ℕ };

    ghost view = { λ line. take line.len line.bytes };

    ghost invariant = { λ line. line.len ≤ LINE_BYTES };
}

impl Line {
    /// Nothing is held.
    pub(crate) fn new() -> Line
        ensures { result ≡ [] }
    {
        Line {
            bytes: [0; LINE_BYTES],
            len: 0,
        }
    }

    /// The bytes that it holds.
    pub(crate) fn bytes(&self) -> &[u8]
        ensures { result.now ≡ self.now }
    {
        &self.bytes[..self.len]
    }

    /// How many bytes more it can hold.
    pub(crate) fn room(&self) -> usize
        ensures { result + length self.now ≡ LINE_BYTES }
    {
        LINE_BYTES - self.len
    }

    /// Holds nothing any more.
    pub(crate) fn clear(&mut self)
        ensures { self.new ≡ [] }
    {
        self.len = 0;
    }

    /// Holds one byte more.
    pub(crate) fn put_byte(&mut self, byte: u8)
        requires { length self.old < LINE_BYTES }
        ensures { self.new ≡ self.old ++ byte ∷ [] }
    {
        self.len = write_byte(&mut self.bytes, self.len, byte);
    }

    /// Holds the digits of a number more.
    pub(crate) fn put_number(&mut self, number: u64)
        requires { length self.old + NUMBER_BYTES ≤ LINE_BYTES }
        ensures put { self.new ≡ self.old ++ decimal number }
        ensures few { length self.new ≤ length self.old + NUMBER_BYTES }
    {
        self.len = write_number(&mut self.bytes, self.len, number);
    }

    /// Holds a port with its value or a dash more.
    pub(crate) fn put_port(&mut self, port: &[u8], value: u128, shown: bool)
        requires { length self.old + length port.now + BESIDE_NAME ≤ LINE_BYTES }
        ensures put { self.new ≡ self.old ++ marked_port port.now value shown }
        ensures few { length self.new ≤ length self.old + length port.now + BESIDE_NAME }
    {
        self.len = write_port(&mut self.bytes, self.len, port, value, shown);
    }
}

/// Writes a byte over that at a place, and answers where it ends.
fn write_byte(room: &mut [u8], at: usize, byte: u8) -> usize
    requires { at < length room.old }
    ensures written { take result room.new ≡ take at room.old ++ byte ∷ [] }
    ensures end { result ≡ at + 1 }
{
    room[at] = byte;
    at + 1
}

/// Writes a text over the bytes at a place, and answers where it ends.
fn write_text(room: &mut [u8], at: usize, text: &[u8]) -> usize
    requires { at + length text.now ≤ length room.old }
    ensures written { take result room.new ≡ take at room.old ++ text.now }
    ensures end { result ≡ at + length text.now }
{
    let end = at + text.len();
    room[at..end].copy_from_slice(text);
    end
}

/// Writes a port with its value or a dash over the bytes at a place, and answers where it ends.
fn write_port(room: &mut [u8], at: usize, port: &[u8], value: u128, shown: bool) -> usize
    requires { at + length port.now + BESIDE_NAME ≤ length room.old }
    ensures written { take result room.new ≡ take at room.old ++ marked_port port.now value shown }
    ensures few { result ≤ at + length port.now + BESIDE_NAME }
{
    let name = write_byte(room, at, b' ');
    let equals = write_text(room, name, port);
    let from = write_byte(room, equals, b'=');
    if shown {
        write_value(room, from, value)
    } else {
        write_byte(room, from, b'-')
    }
}
