//! The addresses of memories: whether they are in range, and which word they name.
ghost use Rattle.std.specs.Prelude.{◌≡◌, ◌^◌, ◌++◌, nat_lt, OnOk};
ghost use Rattle.ver_print.specs.Cells.{below_text, d2_index, d2_within, fitted};
ghost use Rattle.ver_print.specs.inside.Shapes.{bits_of, count_of, is_tested, place_text, test_text, within};
ghost use Rattle.ver_print.specs.Words.{part};

use crate::pieces::Piece::{Number, Part, Words};
use crate::pieces::{put_padded, put_pieces};
use crate::put::gap_after;
use hw_bits::Memory;
use hw_print::put;

/// How many words a memory has, and how many bits its addresses have.
#[derive(Clone, Copy)]
pub(crate) enum Shape {
    /// By addr0.
    D1 {
        size: u64,
        idx: u8,
    },
    /// By addr0 and addr1.
    D2 {
        size0: u64,
        size1: u64,
        idx0: u8,
        idx1: u8,
    },
}

/// The number of words.
pub(crate) fn word_count(shape: Shape) -> u128
    ensures { result ≡ count_of shape }
{
    match shape {
        Shape::D1 { size, .. } => size as u128,
        Shape::D2 { size0, size1, .. } => size0 as u128 * size1 as u128,
    }
}

/// How many bits an index has.
fn index_bits(shape: Shape) -> u8
    ensures { result ≡ bits_of shape }
{
    let last = word_count(shape).saturating_sub(1);
    let bits = 128 - last.leading_zeros();
    if bits == 0 { 1 } else { bits as u8 }
}

/// Whether an address of so many bits can be out of range.
fn can_exceed(idx: u8, size: u64) -> bool
    ensures { result ≡ nat_lt size (2 ^ idx) }
{
    if idx >= 64 {
        return true;
    }
    (size as u128) < 1u128 << idx
}

/// Whether an address of the memory can be out of range.
pub(crate) fn may_miss(shape: Shape) -> bool
    ensures { result ≡ is_tested shape }
{
    match shape {
        Shape::D1 { size, idx } => can_exceed(idx, size),
        Shape::D2 {
            size0,
            size1,
            idx0,
            idx1,
        } => can_exceed(idx0, size0) || can_exceed(idx1, size1),
    }
}

/// That an address is below the size.
fn put_below(
    out: &mut Vec<u8>,
    cell: &[u8],
    address: &str,
    idx: u8,
    size: u64,
) -> Result<(), Memory>
    ensures { OnOk result (out.new.items ≡ out.old.items ++ below_text (part cell.now address.now) idx size) }
{
    put_pieces(
        out,
        cell,
        &[
            Part(address),
            Words("< "),
            Number(idx as u128),
            Words("'d"),
            Number(size as u128),
        ],
    )
}

/// That both addresses are in range: what has to be tested for it.
fn put_both(out: &mut Vec<u8>, cell: &[u8], sizes: (u64, u64), idx: (u8, u8)) -> Result<(), Memory>
    ensures { OnOk result (out.new.items ≡ out.old.items ++ test_text (d2_within cell.now sizes.0 sizes.1 idx.0 idx.1)) }
{
    let rows = can_exceed(idx.0, sizes.0);
    let columns = can_exceed(idx.1, sizes.1);
    match (rows, columns) {
        (false, false) => Ok(()),
        (true, false) => put_below(out, cell, "addr0", idx.0, sizes.0),
        (false, true) => put_below(out, cell, "addr1", idx.1, sizes.1),
        (true, true) => {
            put_below(out, cell, "addr0", idx.0, sizes.0)?;
            put(out, b" && ")?;
            put_below(out, cell, "addr1", idx.1, sizes.1)
        }
    }
}

/// That the addresses are in range: what has to be tested for it.
pub(crate) fn put_within(out: &mut Vec<u8>, cell: &[u8], shape: Shape) -> Result<(), Memory>
    ensures { OnOk result (out.new.items ≡ out.old.items ++ test_text (within cell.now shape)) }
{
    match shape {
        Shape::D1 { size, idx } => {
            if !can_exceed(idx, size) {
                return Ok(());
            }
            put_below(out, cell, "addr0", idx, size)
        }
        Shape::D2 {
            size0,
            size1,
            idx0,
            idx1,
        } => put_both(out, cell, (size0, size1), (idx0, idx1)),
    }
}

/// An address of `idx` bits in as many bits as an index has.
fn put_fitted(
    out: &mut Vec<u8>,
    cell: &[u8],
    address: &str,
    idx: u8,
    bits: u8,
) -> Result<(), Memory>
    ensures { OnOk result (out.new.items ≡ out.old.items ++ fitted (part cell.now address.now) idx bits) }
{
    if bits < idx {
        put_pieces(
            out,
            cell,
            &[
                Part(address),
                Words("["),
                Number(bits.saturating_sub(1) as u128),
                Words(":0]"),
            ],
        )
    } else {
        put_padded(out, cell, address, bits - idx)
    }
}

/// The number of the addressed word, of `bits` bits: the row and the column.
fn put_index(
    out: &mut Vec<u8>,
    cell: &[u8],
    sizes: (u64, u64),
    idx: (u8, u8),
    bits: u8,
) -> Result<(), Memory>
    ensures { OnOk result (out.new.items ≡ out.old.items ++ d2_index cell.now sizes.0 sizes.1 idx.0 idx.1 bits) }
{
    if sizes.0 == 1 {
        return put_fitted(out, cell, "addr1", idx.1, bits);
    }
    put_fitted(out, cell, "addr0", idx.0, bits)?;
    put(out, gap_after(idx.0 == bits))?;
    put_pieces(
        out,
        cell,
        &[
            Words("* "),
            Number(bits as u128),
            Words("'d"),
            Number(sizes.1 as u128),
            Words(" + "),
        ],
    )?;
    put_fitted(out, cell, "addr1", idx.1, bits)
}

/// The number of the addressed word.
pub(crate) fn put_place(out: &mut Vec<u8>, cell: &[u8], shape: Shape) -> Result<(), Memory>
    ensures { OnOk result (out.new.items ≡ out.old.items ++ place_text cell.now shape) }
{
    let bits = index_bits(shape);
    match shape {
        Shape::D1 { idx, .. } => put_fitted(out, cell, "addr0", idx, bits),
        Shape::D2 {
            size0,
            size1,
            idx0,
            idx1,
        } => put_index(out, cell, (size0, size1), (idx0, idx1), bits),
    }
}
