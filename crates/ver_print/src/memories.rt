//! The lines of memories.
ghost use Rattle.std.specs.Prelude.{◌≡◌, ◌++◌, codes, flat_map, OnOk};
ghost use Rattle.ver_print.specs.Cells.{memory_edge, memory_lines, memory_read, memory_start, memory_words, read_value, word_text, write_test};
ghost use Rattle.ver_print.specs.inside.Shapes.{count_of, place_text, within};
ghost use Rattle.ver_print.specs.Words.{inner_line, part};

use crate::addresses::{Shape, may_miss, put_place, put_within, word_count};
use crate::pieces::Piece::{Counter, Number, Part, Words};
use crate::pieces::{put_line, put_pieces};
use crate::registers::{put_kept, put_shown};
use hw_bits::Memory;
use hw_print::put;

/// The register of the words.
fn put_words(out: &mut Vec<u8>, cell: &[u8], w: u8, shape: Shape) -> Result<(), Memory>
    ensures { OnOk result (out.new.items ≡ out.old.items ++ inner_line (memory_words cell.now w (count_of shape))) }
{
    put_line(
        out,
        cell,
        &[
            Words("reg ["),
            Number(w.saturating_sub(1) as u128),
            Words(":0] "),
            Part("$0"),
            Words("[0:"),
            Number(word_count(shape).saturating_sub(1)),
            Words("];"),
        ],
    )
}

/// The words start with zeros.
fn put_start(out: &mut Vec<u8>, cell: &[u8], w: u8, shape: Shape) -> Result<(), Memory>
    ensures { OnOk result (out.new.items ≡ out.old.items ++ inner_line (memory_start cell.now w (count_of shape))) }
{
    put_line(
        out,
        cell,
        &[
            Words("initial for ("),
            Counter,
            Words("= 0; "),
            Counter,
            Words("< "),
            Number(word_count(shape)),
            Words("; "),
            Counter,
            Words("= "),
            Counter,
            Words("+ 1) "),
            Part("$0"),
            Words("["),
            Counter,
            Words("] = "),
            Number(w as u128),
            Words("'d0;"),
        ],
    )
}

/// The addressed word.
fn put_word(out: &mut Vec<u8>, cell: &[u8], shape: Shape) -> Result<(), Memory>
    ensures { OnOk result (out.new.items ≡ out.old.items ++ word_text cell.now (place_text cell.now shape)) }
{
    put_pieces(out, cell, &[Part("$0"), Words("[")])?;
    put_place(out, cell, shape)?;
    put(out, b"]")
}

/// The addressed word, 0 out of range.
fn put_read_value(out: &mut Vec<u8>, cell: &[u8], w: u8, shape: Shape) -> Result<(), Memory>
    ensures { OnOk result (out.new.items ≡ out.old.items ++ read_value (within cell.now shape) (word_text cell.now (place_text cell.now shape)) w) }
{
    let tested = may_miss(shape);
    if !tested {
        return put_word(out, cell, shape);
    }
    put(out, b"(")?;
    put_within(out, cell, shape)?;
    put(out, b") ? ")?;
    put_word(out, cell, shape)?;
    put_pieces(out, cell, &[Words(" : "), Number(w as u128), Words("'d0")])
}

/// The output shows the addressed word, 0 out of range.
fn put_read(out: &mut Vec<u8>, cell: &[u8], w: u8, shape: Shape) -> Result<(), Memory>
    ensures { OnOk result (out.new.items ≡ out.old.items ++ inner_line (memory_read cell.now w (within cell.now shape) (place_text cell.now shape))) }
{
    put_pieces(
        out,
        cell,
        &[Words("  assign "), Part("read_data"), Words("= ")],
    )?;
    put_read_value(out, cell, w, shape)?;
    put(out, b";\n")
}

/// That the addressed word is to be written, and is in range.
fn put_write_test(out: &mut Vec<u8>, cell: &[u8], shape: Shape) -> Result<(), Memory>
    ensures { OnOk result (out.new.items ≡ out.old.items ++ write_test (within cell.now shape) (part cell.now (codes "write_en"))) }
{
    let tested = may_miss(shape);
    if !tested {
        return put_pieces(out, cell, &[Part("write_en")]);
    }
    put_pieces(out, cell, &[Part("write_en"), Words("&& (")])?;
    put_within(out, cell, shape)?;
    put(out, b")")
}

/// The addressed word takes the data, where it is in range.
fn put_edge(out: &mut Vec<u8>, cell: &[u8], shape: Shape) -> Result<(), Memory>
    ensures { OnOk result (out.new.items ≡ out.old.items ++ inner_line (memory_edge cell.now (within cell.now shape) (place_text cell.now shape))) }
{
    put_pieces(
        out,
        cell,
        &[
            Words("  always @(posedge \\$clk ) begin "),
            Part("$1"),
            Words("<= "),
            Part("write_en"),
            Words("; if ("),
        ],
    )?;
    put_write_test(out, cell, shape)?;
    put(out, b") ")?;
    put_word(out, cell, shape)?;
    put_pieces(
        out,
        cell,
        &[Words(" <= "), Part("write_data"), Words("; end\n")],
    )
}

pub(crate) fn put_memory(out: &mut Vec<u8>, cell: &[u8], w: u8, shape: Shape) -> Result<(), Memory>
    ensures { OnOk result (out.new.items ≡ out.old.items ++ flat_map inner_line (memory_lines cell.now w (count_of shape) (within cell.now shape) (place_text cell.now shape))) }
{
    put_words(out, cell, w, shape)?;
    put_kept(out, cell, "$1", 1)?;
    put_line(out, cell, &[Words("integer "), Counter, Words(";")])?;
    put_start(out, cell, w, shape)?;
    put_read(out, cell, w, shape)?;
    put_shown(out, cell, "done", "$1")?;
    put_edge(out, cell, shape)
}
