//! Values from the written meaning of each primitive.
ghost use Rattle.std.specs.Prelude.{◌≡◌, IfOk};
ghost use Rattle.hw_prims.specs.Cell.{AreInputs};
ghost use Rattle.hw_prims.specs.Table.{IsMade};

use hw_bits::Bits;
use hw_prims::{Cell, CellState, Primitive};
use std::alloc::Global;
use std::test::Fail;

/// A primitive by its name and parameters, its inputs row by row, and the outputs that it must give, row by row.
type Meaning = (
    &'static str,
    &'static [u128],
    &'static [&'static [u128]],
    &'static [u128],
);

const MEANINGS: [Meaning; 30] = [
    ("std_const", &[8, 200], &[&[]], &[200]),
    ("std_const", &[128, u128::MAX], &[&[]], &[u128::MAX]),
    ("std_wire", &[5], &[&[17]], &[17]),
    ("std_add", &[8], &[&[200, 100], &[1, 2]], &[44, 3]),
    ("std_add", &[128], &[&[u128::MAX, 1]], &[0]),
    ("std_sub", &[8], &[&[3, 5], &[5, 3]], &[254, 2]),
    ("std_and", &[4], &[&[12, 10]], &[8]),
    ("std_or", &[4], &[&[12, 10]], &[14]),
    ("std_xor", &[4], &[&[12, 10]], &[6]),
    ("std_not", &[4], &[&[9]], &[6]),
    ("std_eq", &[4], &[&[3, 3], &[3, 4]], &[1, 0]),
    ("std_neq", &[4], &[&[3, 3], &[3, 4]], &[0, 1]),
    ("std_lt", &[4], &[&[3, 4], &[3, 3], &[4, 3]], &[1, 0, 0]),
    ("std_gt", &[4], &[&[3, 4], &[3, 3], &[4, 3]], &[0, 0, 1]),
    ("std_le", &[4], &[&[3, 4], &[3, 3], &[4, 3]], &[1, 1, 0]),
    ("std_ge", &[4], &[&[3, 4], &[3, 3], &[4, 3]], &[0, 1, 1]),
    (
        "std_lsh",
        &[8],
        &[&[3, 2], &[255, 1], &[255, 8]],
        &[12, 254, 0],
    ),
    ("std_rsh", &[8], &[&[200, 3], &[255, 8]], &[25, 0]),
    ("std_slice", &[8, 3], &[&[181]], &[5]),
    ("std_pad", &[3, 8], &[&[5]], &[5]),
    ("fil_mux", &[8], &[&[1, 7, 9], &[0, 7, 9]], &[7, 9]),
    ("fil_slice", &[8, 5, 2], &[&[181]], &[13]),
    ("fil_concat", &[4, 3], &[&[9, 5]], &[77]),
    (
        "std_reg",
        &[4],
        &[&[9, 1], &[5, 0], &[5, 0]],
        &[0, 0, 9, 1, 9, 0],
    ),
    (
        "std_mem_d1",
        &[8, 3, 2],
        &[&[1, 7, 1], &[1, 0, 0], &[3, 9, 1], &[2, 0, 0], &[1, 0, 0]],
        &[0, 0, 7, 1, 0, 0, 0, 1, 7, 0],
    ),
    (
        "comb_mem_d2",
        &[8, 2, 3, 2, 2],
        &[
            &[1, 2, 5, 1],
            &[1, 2, 0, 0],
            &[2, 0, 6, 1],
            &[0, 3, 6, 1],
            &[1, 0, 0, 0],
        ],
        &[0, 0, 5, 1, 0, 0, 0, 1, 0, 1],
    ),
    (
        "std_mult_pipe",
        &[8],
        &[
            &[1, 20, 20],
            &[1, 0, 0],
            &[1, 0, 0],
            &[0, 0, 0],
            &[1, 3, 5],
            &[0, 0, 0],
            &[1, 0, 0],
            &[0, 0, 0],
        ],
        &[0, 0, 0, 0, 0, 0, 144, 1, 144, 0, 144, 0, 144, 0, 144, 0],
    ),
    ("fil_delay", &[8], &[&[5], &[6], &[7]], &[0, 5, 6]),
    (
        "fil_fast_mult",
        &[8],
        &[&[3, 5], &[20, 20], &[0, 0], &[0, 0]],
        &[0, 0, 15, 144],
    ),
    (
        "fil_seq_mult",
        &[8],
        &[&[1, 3, 5], &[0, 0, 0], &[0, 0, 0], &[0, 0, 0]],
        &[0, 0, 15, 0],
    ),
];

/// The values at the primitive's inputs.
fn inputs_with(alloc: Global, prim: Primitive, values: &[u128]) -> Result<Vec<Bits>, Fail>
    requires { IsMade prim }
    ensures { IfOk result (λ inputs. AreInputs prim inputs.items) }
{
    let mut inputs = Vec::new(alloc);
    let count = prim.inputs();
    for i in 0..count {
        let port = prim.port(i).ok_or("port")?;
        let value = *values.get(i).ok_or("value")?;
        inputs.push(Bits::new(value, port.width).ok_or("width")?)?;
    }
    Ok(inputs)
}

/// Appends the outputs of a row.
fn push_outputs(
    cell: &CellState,
    prim: Primitive,
    inputs: &[Bits],
    to: &mut Vec<u128>,
) -> Result<(), Fail>
    requires prim { cell.now.prim ≡ prim }
    requires made { IsMade prim }
    requires inputs { AreInputs prim inputs.now }
{
    for output in 0..prim.outputs() {
        to.push(cell.comb(inputs, output).value())?;
    }
    Ok(())
}

/// The outputs of a cell of the primitive in each row, one row after another.
fn run(alloc: Global, prim: Primitive, rows: &[&[u128]]) -> Result<Vec<u128>, Fail>
    requires { IsMade prim }
{
    let mut cell = CellState::new(alloc, prim)?;
    let mut outputs = Vec::new(alloc);
    for row in rows {
        let inputs = inputs_with(alloc, prim, row)?;
        push_outputs(&cell, prim, &inputs, &mut outputs)?;
        cell.step(&inputs);
    }
    Ok(outputs)
}

#[test]
fn each_primitive_has_its_values(rt: HostRuntime) -> Result<(), Fail> {
    for (name, params, rows, told) in MEANINGS {
        let prim = Primitive::make(name.as_bytes(), params)?;
        let outputs = run(rt.alloc(), prim, rows)?;
        assert_eq!(rt; outputs.as_slice(), told, "{name}");
    }
    Ok(())
}

#[test]
#[tactic(auto, unfolding(hw_prims::specs::Table::is_made, hw_prims::specs::Memory::word_count, hw_prims::specs::Memory::word_width))]
fn a_loaded_word_is_read(rt: HostRuntime) -> Result<(), Fail> {
    let prim = Primitive::StdMemD1 {
        w: 8,
        size: 4,
        idx: 2,
    };
    let mut cell = CellState::new(rt.alloc(), prim)?;
    let word = Bits::new(77, 8).ok_or("width")?;
    cell.load(3, word);
    assert_eq!(rt; cell.word(3).value(), 77);
    assert_eq!(rt; cell.word(2).value(), 0);
    Ok(())
}
