//! The lines of cells, by their primitives.
ghost use Rattle.std.specs.Prelude.{◌≡◌, ◌-◌, ◌++◌, All, codes, flat_map, OnOk};
ghost use Rattle.hw_names.specs.Name.{text_of};
ghost use Rattle.net_core.specs.Netlist.{cell_of};
ghost use Rattle.net_core.specs.Numbers.{CellHasNumbers};
ghost use Rattle.ver_print.specs.Cells.{bits_text, cell_lines, cell_text, choice, concatenation, operation, shows, simple_lines};
ghost use Rattle.ver_print.specs.inside.Pieces.{pieces_text};
ghost use Rattle.ver_print.specs.Words.{inner_line, literal, padded, part};

use crate::addresses::Shape;
use crate::memories::put_memory;
use crate::pieces::Piece::{Number, Part, Words};
use crate::pieces::{put_line, put_padded, put_pieces};
use crate::registers::{put_delay, put_fast_mult, put_mult_pipe, put_register, put_seq_mult};
use hw_bits::Memory;
use hw_names::Names;
use hw_prims::Prim;
use hw_print::put;
use net_core::NetCell;

/// A constant.
fn put_constant(out: &mut Vec<u8>, cell: &[u8], w: u8, v: u128) -> Result<(), Memory>
    ensures { OnOk result (out.new.items ≡ out.old.items ++ flat_map inner_line (simple_lines cell.now (literal w v))) }
{
    put_line(
        out,
        cell,
        &[
            Words("assign "),
            Part("out"),
            Words("= "),
            Number(w as u128),
            Words("'d"),
            Number(v),
            Words(";"),
        ],
    )
}

/// The input as it is.
fn put_same(out: &mut Vec<u8>, cell: &[u8]) -> Result<(), Memory>
    ensures { OnOk result (out.new.items ≡ out.old.items ++ flat_map inner_line (simple_lines cell.now (part cell.now (codes "in")))) }
{
    put_line(
        out,
        cell,
        &[
            Words("assign "),
            Part("out"),
            Words("= "),
            Part("in"),
            Words(";"),
        ],
    )
}

/// The input with so many zeros above it.
fn put_wider(out: &mut Vec<u8>, cell: &[u8], zeros: u8) -> Result<(), Memory>
    ensures { OnOk result (out.new.items ≡ out.old.items ++ flat_map inner_line (simple_lines cell.now (padded zeros (part cell.now (codes "in"))))) }
{
    put_pieces(out, cell, &[Words("  assign "), Part("out"), Words("= ")])?;
    put_padded(out, cell, "in", zeros)?;
    put(out, b";\n")
}

/// Each bit of the input inverted.
fn put_not(out: &mut Vec<u8>, cell: &[u8]) -> Result<(), Memory>
    ensures { OnOk result (out.new.items ≡ out.old.items ++ flat_map inner_line (simple_lines cell.now (codes "~" ++ part cell.now (codes "in")))) }
{
    put_line(
        out,
        cell,
        &[
            Words("assign "),
            Part("out"),
            Words("= ~"),
            Part("in"),
            Words(";"),
        ],
    )
}

/// An operation on left and right.
fn put_operation(out: &mut Vec<u8>, cell: &[u8], operator: &str) -> Result<(), Memory>
    ensures { OnOk result (out.new.items ≡ out.old.items ++ flat_map inner_line (simple_lines cell.now (operation cell.now operator.now))) }
{
    put_line(
        out,
        cell,
        &[
            Words("assign "),
            Part("out"),
            Words("= "),
            Part("left"),
            Words(operator),
            Words(" "),
            Part("right"),
            Words(";"),
        ],
    )
}

/// The bits `high` down to `low` of the input.
fn put_bits(out: &mut Vec<u8>, cell: &[u8], high: u8, low: u8) -> Result<(), Memory>
    ensures { OnOk result (out.new.items ≡ out.old.items ++ flat_map inner_line (simple_lines cell.now (bits_text cell.now high low))) }
{
    put_line(
        out,
        cell,
        &[
            Words("assign "),
            Part("out"),
            Words("= "),
            Part("in"),
            Words("["),
            Number(high as u128),
            Words(":"),
            Number(low as u128),
            Words("];"),
        ],
    )
}

/// One of two inputs.
fn put_choice(out: &mut Vec<u8>, cell: &[u8]) -> Result<(), Memory>
    ensures { OnOk result (out.new.items ≡ out.old.items ++ flat_map inner_line (simple_lines cell.now (choice cell.now))) }
{
    put_line(
        out,
        cell,
        &[
            Words("assign "),
            Part("out"),
            Words("= "),
            Part("sel"),
            Words("? "),
            Part("tru"),
            Words(": "),
            Part("fal"),
            Words(";"),
        ],
    )
}

/// The bits of both inputs.
fn put_concatenation(out: &mut Vec<u8>, cell: &[u8]) -> Result<(), Memory>
    ensures { OnOk result (out.new.items ≡ out.old.items ++ flat_map inner_line (simple_lines cell.now (concatenation cell.now))) }
{
    put_line(
        out,
        cell,
        &[
            Words("assign "),
            Part("out"),
            Words("= {"),
            Part("high"),
            Words(", "),
            Part("low"),
            Words("};"),
        ],
    )
}

/// The lines of a cell of this primitive.
#[tactic(auto, unfolding(crate::specs::Cells::cell_lines))]
fn put_primitive(out: &mut Vec<u8>, cell: &[u8], prim: Prim) -> Result<(), Memory>
    ensures { OnOk result (out.new.items ≡ out.old.items ++ flat_map inner_line (cell_lines cell.now prim)) }
{
    match prim {
        Prim::StdConst { w, v } => put_constant(out, cell, w, v),
        Prim::StdWire { .. } => put_same(out, cell),
        Prim::StdPad { i, o } => put_wider(out, cell, o.saturating_sub(i)),
        Prim::StdAdd { .. } => put_operation(out, cell, "+"),
        Prim::StdSub { .. } => put_operation(out, cell, "-"),
        Prim::StdAnd { .. } => put_operation(out, cell, "&"),
        Prim::StdOr { .. } => put_operation(out, cell, "|"),
        Prim::StdXor { .. } => put_operation(out, cell, "^"),
        Prim::StdNot { .. } => put_not(out, cell),
        Prim::StdEq { .. } => put_operation(out, cell, "=="),
        Prim::StdNeq { .. } => put_operation(out, cell, "!="),
        Prim::StdLt { .. } => put_operation(out, cell, "<"),
        Prim::StdGt { .. } => put_operation(out, cell, ">"),
        Prim::StdLe { .. } => put_operation(out, cell, "<="),
        Prim::StdGe { .. } => put_operation(out, cell, ">="),
        Prim::StdLsh { .. } => put_operation(out, cell, "<<"),
        Prim::StdRsh { .. } => put_operation(out, cell, ">>"),
        Prim::StdSlice { o, .. } => put_bits(out, cell, o.saturating_sub(1), 0),
        Prim::FilSlice { hi, lo, .. } => put_bits(out, cell, hi, lo),
        Prim::FilMux { .. } => put_choice(out, cell),
        Prim::FilConcat { .. } => put_concatenation(out, cell),
        Prim::StdReg { w } => put_register(out, cell, w),
        Prim::FilDelay { w } => put_delay(out, cell, w),
        Prim::FilFastMult { w } => put_fast_mult(out, cell, w),
        Prim::FilSeqMult { w } => put_seq_mult(out, cell, w),
        Prim::StdMultPipe { w } => put_mult_pipe(out, cell, w),
        Prim::StdMemD1 { w, size, idx } => { put_memory(out, cell, w, Shape::D1 { size, idx }) }
        Prim::StdMemD2 {
            w,
            size0,
            size1,
            idx0,
            idx1,
        } => put_memory(
            out,
            cell,
            w,
            Shape::D2 {
                size0,
                size1,
                idx0,
                idx1,
            },
        ),
    }
}

fn put_cell(out: &mut Vec<u8>, names: &Names, cell: &NetCell) -> Result<(), Memory>
    requires { CellHasNumbers names.now cell.now }
    ensures { OnOk result (out.new.items ≡ out.old.items ++ cell_text (cell_of names.now cell.now)) }
{
    match Prim::make(names.text(cell.prim), &cell.params) {
        Ok(prim) => put_primitive(out, names.text(cell.name), prim),
        Err(_) => Ok(()),
    }
}

pub(crate) fn put_cells(out: &mut Vec<u8>, names: &Names, cells: &[NetCell]) -> Result<(), Memory>
    requires { All (CellHasNumbers names.now) cells.now }
    ensures { OnOk result (out.new.items ≡ out.old.items ++ flat_map (λ c. cell_text (cell_of names.now c)) cells.now) }
{
    for cell in cells {
        put_cell(out, names, cell)?;
    }
    Ok(())
}
