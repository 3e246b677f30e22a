//! Lines of a cell, piece by piece.
ghost use Rattle.std.specs.Prelude.{◌≡◌, ◌++◌, OnOk};
ghost use Rattle.ver_print.specs.inside.Pieces.{piece_text, pieces_text};
ghost use Rattle.ver_print.specs.Words.{counter, inner_line, padded, part, slashed};

use hw_bits::Memory;
use hw_print::{put, put_number};

/// A piece of a line.
#[derive(Clone, Copy)]
pub(crate) enum Piece<'a> {
    /// Words as they stand.
    Words(&'a str),
    /// A port of the cell, or a register of its own.
    Part(&'a str),
    Number(u128),
    /// What counts the words of the cell's memory at the start.
    Counter,
}

/// The escaped name of a port or a register of the cell.
fn put_part(out: &mut Vec<u8>, cell: &[u8], name: &[u8]) -> Result<(), Memory>
    ensures { OnOk result (out.new.items ≡ out.old.items ++ part cell.now name.now) }
{
    put(out, b"\\")?;
    put(out, cell)?;
    put(out, b".")?;
    put(out, name)?;
    put(out, b" ")
}

/// A name with a slash for each dot.
fn put_slashed(out: &mut Vec<u8>, name: &[u8]) -> Result<(), Memory>
    ensures { OnOk result (out.new.items ≡ out.old.items ++ slashed name.now) }
{
    for byte in name {
        let shown = if *byte == b'.' { b'/' } else { *byte };
        out.push(shown)?;
    }
    Ok(())
}

/// The escaped name of what counts the words of a memory at the start.
fn put_counter(out: &mut Vec<u8>, cell: &[u8]) -> Result<(), Memory>
    ensures { OnOk result (out.new.items ≡ out.old.items ++ counter cell.now) }
{
    put(out, b"\\")?;
    put_slashed(out, cell)?;
    put(out, b"/$2 ")
}

fn put_piece(out: &mut Vec<u8>, cell: &[u8], piece: Piece) -> Result<(), Memory>
    ensures { OnOk result (out.new.items ≡ out.old.items ++ piece_text cell.now piece.entry) }
{
    match piece {
        Piece::Words(words) => put(out, words.as_bytes()),
        Piece::Part(name) => put_part(out, cell, name.as_bytes()),
        Piece::Number(number) => put_number(out, number),
        Piece::Counter => put_counter(out, cell),
    }
}

/// Pieces of a line, one after another.
pub(crate) fn put_pieces(out: &mut Vec<u8>, cell: &[u8], pieces: &[Piece]) -> Result<(), Memory>
    ensures { OnOk result (out.new.items ≡ out.old.items ++ pieces_text cell.now pieces.now) }
{
    for piece in pieces {
        put_piece(out, cell, *piece)?;
    }
    Ok(())
}

/// A port of the cell with so many zeros above it.
pub(crate) fn put_padded(
    out: &mut Vec<u8>,
    cell: &[u8],
    port: &str,
    zeros: u8,
) -> Result<(), Memory>
    ensures { OnOk result (out.new.items ≡ out.old.items ++ padded zeros (part cell.now port.now)) }
{
    if zeros == 0 {
        return put_pieces(out, cell, &[Piece::Part(port)]);
    }
    put_pieces(
        out,
        cell,
        &[
            Piece::Words("{"),
            Piece::Number(zeros as u128),
            Piece::Words("'d0, "),
            Piece::Part(port),
            Piece::Words("}"),
        ],
    )
}

/// A whole line of the cell.
pub(crate) fn put_line(out: &mut Vec<u8>, cell: &[u8], pieces: &[Piece]) -> Result<(), Memory>
    ensures { OnOk result (out.new.items ≡ out.old.items ++ inner_line (pieces_text cell.now pieces.now)) }
{
    put(out, b"  ")?;
    put_pieces(out, cell, pieces)?;
    put(out, b"\n")
}
