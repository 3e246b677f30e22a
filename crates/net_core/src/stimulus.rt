//! What drives a run of a netlist.
use hw_bits::Bits;
use hw_names::Word;

/// Inputs and memory words for a run of this many cycles.
#[derive(Drop)]
pub struct CycleList {
    pub cycles: u64,
    pub sets: Vec<InputSet>,
    pub loads: Vec<MemLoad>,
}

/// From this row on, counted from 0, an input has this value; inputs are counted from 0 in port order.
#[derive(Clone, Copy, Debug, PartialEq, Eq)]
pub struct InputSet {
    pub from: u64,
    pub input: usize,
    pub value: Bits,
}

/// The first words of an observable memory; such memories are counted from 0 in cell order.
#[derive(Drop)]
pub struct MemLoad {
    pub mem: usize,
    pub words: Vec<Bits>,
}

/// An input that a stimulus may set: its name, and its width in bits.
#[derive(Drop)]
pub struct InputShape {
    pub name: Word,
    pub width: u8,
}

/// An observable memory: the name of its cell, the width of a word in bits, and how many words it has.
#[derive(Drop)]
pub struct MemShape {
    pub name: Word,
    pub width: u8,
    pub size: u64,
}
