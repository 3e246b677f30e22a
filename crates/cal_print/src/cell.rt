//! Signatures and cells.
ghost use Rattle.std.specs.Prelude.{◌≡◌, ◌++◌, flat_map, codes, All, OnOk};
ghost use Rattle.cal_ast.specs.Numbers.{PinHasNumber, CellHasNumbers};
ghost use Rattle.cal_ast.specs.Tree.{pin_tree, cell_tree};
ghost use Rattle.cal_print.specs.Layout.{joined, line_text, pin_text, cell_text};

use crate::put::put_numbers;
use cal_ast::{CalCell, CalPin};
use hw_bits::Memory;
use hw_names::Names;
use hw_print::{put, put_if, put_name, put_number};

fn put_pin(out: &mut Vec<u8>, names: &Names, pin: CalPin) -> Result<(), Memory>
    requires { PinHasNumber names.now pin }
    ensures { OnOk result (out.new.items ≡ out.old.items ++ pin_text (pin_tree names.now pin)) }
{
    put_name(out, names, pin.name)?;
    put(out, b": ")?;
    put_number(out, pin.width)
}

pub(crate) fn put_pins(out: &mut Vec<u8>, names: &Names, pins: &[CalPin]) -> Result<(), Memory>
    requires { All (PinHasNumber names.now) pins.now }
    ensures { OnOk result (out.new.items ≡ out.old.items ++ joined (λ p. pin_text (pin_tree names.now p)) pins.now) }
{
    let [first, others @ ..] = pins else {
        return Ok(());
    };
    put_pin(out, names, *first)?;
    for pin in others {
        put(out, b", ")?;
        put_pin(out, names, *pin)?;
    }
    Ok(())
}

fn put_cell(out: &mut Vec<u8>, names: &Names, cell: &CalCell) -> Result<(), Memory>
    requires { CellHasNumbers names.now cell.now }
    ensures { OnOk result (out.new.items ≡ out.old.items ++ cell_text (cell_tree names.now cell.now)) }
{
    put_if(out, cell.external, b"@external ")?;
    put_name(out, names, cell.name)?;
    put(out, b" = ")?;
    put_name(out, names, cell.made)?;
    put(out, b"(")?;
    put_numbers(out, &cell.params)?;
    put(out, b");")
}

/// The cells, each on a line of its own.
pub(crate) fn put_cells(out: &mut Vec<u8>, names: &Names, cells: &[CalCell]) -> Result<(), Memory>
    requires { All (CellHasNumbers names.now) cells.now }
    ensures { OnOk result (out.new.items ≡ out.old.items ++ flat_map (λ c. line_text (codes "    ") (cell_text (cell_tree names.now c))) cells.now) }
{
    for cell in cells {
        put(out, b"    ")?;
        put_cell(out, names, cell)?;
        put(out, b"\n")?;
    }
    Ok(())
}
