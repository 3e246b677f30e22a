//! The kinds of cells that netlists are made of.
use crate::cells::Size::{Any, Drawn, Highest, Is, Less, More, Over};

/// The width of a pin, or another number of a cell's line.
#[derive(Clone, Copy)]
pub(crate) enum Size {
    /// The width that is drawn for the cell.
    Drawn,
    /// The second of the netlist's widths.
    Less,
    /// The third, which is greater.
    More,
    /// What the third is over the second.
    Over,
    /// The place of the highest bit of the third.
    Highest,
    /// This number.
    Is(u128),
    /// Any number of the drawn width.
    Any,
}

/// A pin and its width.
pub(crate) type Pin = (&'static str, Size);

/// A primitive, its parameters, the inputs from which outputs may come in the same row, the other inputs, and the outputs.
pub(crate) type Kind = (
    &'static str,
    &'static [Size],
    &'static [Pin],
    &'static [Pin],
    &'static [Pin],
);

const ONE: &[Pin] = &[("in", Drawn)];

const TWO: &[Pin] = &[("left", Drawn), ("right", Drawn)];

const GO_TWO: &[Pin] = &[("go", Is(1)), ("left", Drawn), ("right", Drawn)];

const DATA: &[Pin] = &[("write_data", Drawn), ("write_en", Is(1))];

const OUT: &[Pin] = &[("out", Drawn)];

const BIT: &[Pin] = &[("out", Is(1))];

const OUT_DONE: &[Pin] = &[("out", Drawn), ("done", Is(1))];

const DATA_DONE: &[Pin] = &[("read_data", Drawn), ("done", Is(1))];

/// Those with a state. Memories are shown.
pub(crate) const STATES: [Kind; 8] = [
    (
        "std_reg",
        &[Drawn],
        &[],
        &[("in", Drawn), ("write_en", Is(1))],
        OUT_DONE,
    ),
    (
        "std_reg",
        &[Less],
        &[],
        &[("in", Less), ("write_en", Is(1))],
        &[("out", Less), ("done", Is(1))],
    ),
    (
        "std_mem_d1",
        &[Drawn, Is(6), Less],
        &[("addr0", Less)],
        DATA,
        DATA_DONE,
    ),
    (
        "comb_mem_d2",
        &[Drawn, Is(3), Is(2), Less, Less],
        &[("addr0", Less), ("addr1", Less)],
        DATA,
        DATA_DONE,
    ),
    ("std_mult_pipe", &[Drawn], &[], GO_TWO, OUT_DONE),
    ("fil_delay", &[Drawn], &[], ONE, OUT),
    ("fil_fast_mult", &[Drawn], &[], TWO, OUT),
    ("fil_seq_mult", &[Drawn], &[], GO_TWO, OUT),
];

/// Those without a state.
pub(crate) const GATES: [Kind; 21] = [
    ("std_const", &[Drawn, Any], &[], &[], OUT),
    ("std_wire", &[Drawn], ONE, &[], OUT),
    ("std_add", &[Drawn], TWO, &[], OUT),
    ("std_sub", &[Drawn], TWO, &[], OUT),
    ("std_and", &[Drawn], TWO, &[], OUT),
    ("std_or", &[Drawn], TWO, &[], OUT),
    ("std_xor", &[Drawn], TWO, &[], OUT),
    ("std_lsh", &[Drawn], TWO, &[], OUT),
    ("std_rsh", &[Drawn], TWO, &[], OUT),
    ("std_not", &[Drawn], ONE, &[], OUT),
    ("std_eq", &[Drawn], TWO, &[], BIT),
    ("std_neq", &[Drawn], TWO, &[], BIT),
    ("std_lt", &[Drawn], TWO, &[], BIT),
    ("std_gt", &[Drawn], TWO, &[], BIT),
    ("std_le", &[Drawn], TWO, &[], BIT),
    ("std_ge", &[Drawn], TWO, &[], BIT),
    (
        "std_slice",
        &[More, Less],
        &[("in", More)],
        &[],
        &[("out", Less)],
    ),
    (
        "std_pad",
        &[Less, More],
        &[("in", Less)],
        &[],
        &[("out", More)],
    ),
    (
        "fil_mux",
        &[Drawn],
        &[("sel", Is(1)), ("tru", Drawn), ("fal", Drawn)],
        &[],
        OUT,
    ),
    (
        "fil_slice",
        &[More, Highest, Over],
        &[("in", More)],
        &[],
        &[("out", Less)],
    ),
    (
        "fil_concat",
        &[Over, Less],
        &[("high", Over), ("low", Less)],
        &[],
        &[("out", More)],
    ),
];
