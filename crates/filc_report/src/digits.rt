//! The digits of numbers.
ghost use Rattle.std.specs.Prelude.{◌≡◌, ◌+◌, ◌<◌, ◌≤◌, ◌++◌, length, take, decimal};
ghost use Rattle.filc_report.specs.declared.digits.TheConstants.{NUMBER_BYTES};

use itoa::{Buffer, write_digits};

/// The most bytes that the digits of a value take.
pub(crate) const NUMBER_BYTES: usize = 40;

/// The decimal digits of a value, written into the buffer. A value of 64 bits has its own way, since division by ten costs a value of 128 bits
/// several times as much.
#[inline]
pub(crate) fn digits_of(buffer: &mut Buffer, value: u128) -> &[u8]
    ensures { result.now ≡ decimal value }
{
    if value <= u64::MAX as u128 {
        buffer.format(value as u64).as_bytes()
    } else {
        buffer.format(value).as_bytes()
    }
}

/// Writes the digits of a number at a place, and answers where they end.
#[inline]
pub(crate) fn write_number(room: &mut [u8], at: usize, number: u64) -> usize
    requires { at + NUMBER_BYTES ≤ length room.old }
    ensures written { take result room.new ≡ take at room.old ++ decimal number }
    ensures few { result ≤ at + NUMBER_BYTES }
{
    let end = at + count_digits(number);
    write_digits(number, room, end);
    end
}

/// Writes the digits of a value at a place, and answers where they end. A value of 64 bits has its own way, as in `digits_of`.
#[inline]
pub(crate) fn write_value(room: &mut [u8], at: usize, value: u128) -> usize
    requires { at + NUMBER_BYTES ≤ length room.old }
    ensures written { take result room.new ≡ take at room.old ++ decimal value }
    ensures few { result ≤ at + NUMBER_BYTES }
{
    if value <= u64::MAX as u128 {
        write_number(room, at, value as u64)
    } else {
        write_long(room, at, value)
    }
}

/// The same, for a value of any size.
#[inline(never)]
fn write_long(room: &mut [u8], at: usize, value: u128) -> usize
    requires { at + NUMBER_BYTES ≤ length room.old }
    ensures written { take result room.new ≡ take at room.old ++ decimal value }
    ensures few { result ≤ at + NUMBER_BYTES }
{
    let mut buffer = Buffer::new();
    let digits = buffer.format(value).as_bytes();
    let end = at + digits.len();
    room[at..end].copy_from_slice(digits);
    end
}

/// How many decimal digits a number has.
#[inline]
fn count_digits(number: u64) -> usize
    ensures count { result ≡ length (decimal number) }
    ensures few { result ≤ 20 }
{
    let mut left = number;
    let mut count = 0;
    while left >= 10_000 {
        left /= 10_000;
        count += 4;
    }
    count + count_few(left)
}

/// The same, where there are at most four.
#[inline]
fn count_few(number: u64) -> usize
    requires { number < 10000 }
    ensures { result ≡ length (decimal number) }
{
    if number < 100 {
        if number < 10 { 1 } else { 2 }
    } else if number < 1_000 {
        3
    } else {
        4
    }
}
