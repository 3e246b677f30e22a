//! The lines of cells that keep values from row to row, but for memories.
ghost use Rattle.std.specs.Prelude.{◌≡◌, ◌++◌, codes, flat_map, OnOk};
ghost use Rattle.ver_print.specs.Cells.{delay_lines, fast_mult_lines, keeps, mult_pipe_edge, mult_pipe_lines, register_lines, seq_mult_edge, seq_mult_lines, shows};
ghost use Rattle.ver_print.specs.Words.{inner_line, part};

use crate::pieces::Piece::{Number, Part, Words};
use crate::pieces::put_line;
use hw_bits::Memory;

/// A register of the cell's own, from 0.
pub(crate) fn put_kept(out: &mut Vec<u8>, cell: &[u8], register: &str, w: u8) -> Result<(), Memory>
    ensures { OnOk result (out.new.items ≡ out.old.items ++ inner_line (keeps cell.now register.now w)) }
{
    put_line(
        out,
        cell,
        &[
            Words("reg ["),
            Number(w.saturating_sub(1) as u128),
            Words(":0] "),
            Part(register),
            Words("= "),
            Number(w as u128),
            Words("'d0;"),
        ],
    )
}

/// An output that shows a register.
pub(crate) fn put_shown<'a>(
    out: &mut Vec<u8>,
    cell: &[u8],
    output: &'a str,
    register: &'a str,
) -> Result<(), Memory>
    ensures { OnOk result (out.new.items ≡ out.old.items ++ inner_line (shows cell.now output.now (part cell.now register.now))) }
{
    put_line(
        out,
        cell,
        &[
            Words("assign "),
            Part(output),
            Words("= "),
            Part(register),
            Words(";"),
        ],
    )
}

pub(crate) fn put_register(out: &mut Vec<u8>, cell: &[u8], w: u8) -> Result<(), Memory>
    ensures { OnOk result (out.new.items ≡ out.old.items ++ flat_map inner_line (register_lines cell.now w)) }
{
    put_kept(out, cell, "$0", w)?;
    put_kept(out, cell, "$1", 1)?;
    put_shown(out, cell, "out", "$0")?;
    put_shown(out, cell, "done", "$1")?;
    put_line(
        out,
        cell,
        &[
            Words("always @(posedge \\$clk ) begin "),
            Part("$1"),
            Words("<= "),
            Part("write_en"),
            Words("; if ("),
            Part("write_en"),
            Words(") "),
            Part("$0"),
            Words("<= "),
            Part("in"),
            Words("; end"),
        ],
    )
}

pub(crate) fn put_delay(out: &mut Vec<u8>, cell: &[u8], w: u8) -> Result<(), Memory>
    ensures { OnOk result (out.new.items ≡ out.old.items ++ flat_map inner_line (delay_lines cell.now w)) }
{
    put_kept(out, cell, "$0", w)?;
    put_shown(out, cell, "out", "$0")?;
    put_line(
        out,
        cell,
        &[
            Words("always @(posedge \\$clk ) "),
            Part("$0"),
            Words("<= "),
            Part("in"),
            Words(";"),
        ],
    )
}

pub(crate) fn put_fast_mult(out: &mut Vec<u8>, cell: &[u8], w: u8) -> Result<(), Memory>
    ensures { OnOk result (out.new.items ≡ out.old.items ++ flat_map inner_line (fast_mult_lines cell.now w)) }
{
    put_kept(out, cell, "$0", w)?;
    put_kept(out, cell, "$1", w)?;
    put_shown(out, cell, "out", "$1")?;
    put_line(
        out,
        cell,
        &[
            Words("always @(posedge \\$clk ) begin "),
            Part("$1"),
            Words("<= "),
            Part("$0"),
            Words("; "),
            Part("$0"),
            Words("<= "),
            Part("left"),
            Words("* "),
            Part("right"),
            Words("; end"),
        ],
    )
}

/// What a sequential multiplier does at an edge.
fn put_seq_mult_edge(out: &mut Vec<u8>, cell: &[u8]) -> Result<(), Memory>
    ensures { OnOk result (out.new.items ≡ out.old.items ++ inner_line (seq_mult_edge cell.now)) }
{
    put_line(
        out,
        cell,
        &[
            Words("always @(posedge \\$clk ) begin if ("),
            Part("$0"),
            Words("== 2'd0) begin if ("),
            Part("go"),
            Words(") begin "),
            Part("$1"),
            Words("<= "),
            Part("left"),
            Words("* "),
            Part("right"),
            Words("; "),
            Part("$0"),
            Words("<= 2'd1; end end else if ("),
            Part("$0"),
            Words("== 2'd1) "),
            Part("$0"),
            Words("<= 2'd2; else "),
            Part("$0"),
            Words("<= 2'd0; end"),
        ],
    )
}

pub(crate) fn put_seq_mult(out: &mut Vec<u8>, cell: &[u8], w: u8) -> Result<(), Memory>
    ensures { OnOk result (out.new.items ≡ out.old.items ++ flat_map inner_line (seq_mult_lines cell.now w)) }
{
    put_kept(out, cell, "$0", 2)?;
    put_kept(out, cell, "$1", w)?;
    put_line(
        out,
        cell,
        &[
            Words("assign "),
            Part("out"),
            Words("= ("),
            Part("$0"),
            Words("== 2'd2) ? "),
            Part("$1"),
            Words(": "),
            Number(w as u128),
            Words("'d0;"),
        ],
    )?;
    put_seq_mult_edge(out, cell)
}

/// What a pipelined multiplier does at an edge.
fn put_mult_pipe_edge(out: &mut Vec<u8>, cell: &[u8]) -> Result<(), Memory>
    ensures { OnOk result (out.new.items ≡ out.old.items ++ inner_line (mult_pipe_edge cell.now)) }
{
    put_line(
        out,
        cell,
        &[
            Words("always @(posedge \\$clk ) begin if ("),
            Part("$0"),
            Words("== 2'd3 || !"),
            Part("go"),
            Words(") "),
            Part("$0"),
            Words("<= 2'd0; else "),
            Part("$0"),
            Words("<= "),
            Part("$0"),
            Words("+ 2'd1; if ("),
            Part("$0"),
            Words("== 2'd0 && "),
            Part("go"),
            Words(") "),
            Part("$1"),
            Words("<= "),
            Part("left"),
            Words("* "),
            Part("right"),
            Words("; if ("),
            Part("$0"),
            Words("== 2'd2 && "),
            Part("go"),
            Words(") "),
            Part("$2"),
            Words("<= "),
            Part("$1"),
            Words("; end"),
        ],
    )
}

pub(crate) fn put_mult_pipe(out: &mut Vec<u8>, cell: &[u8], w: u8) -> Result<(), Memory>
    ensures { OnOk result (out.new.items ≡ out.old.items ++ flat_map inner_line (mult_pipe_lines cell.now w)) }
{
    put_kept(out, cell, "$0", 2)?;
    put_kept(out, cell, "$1", w)?;
    put_kept(out, cell, "$2", w)?;
    put_shown(out, cell, "out", "$2")?;
    put_line(
        out,
        cell,
        &[
            Words("assign "),
            Part("done"),
            Words("= ("),
            Part("$0"),
            Words("== 2'd3);"),
        ],
    )?;
    put_mult_pipe_edge(out, cell)
}
