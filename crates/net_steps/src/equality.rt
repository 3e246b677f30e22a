//! A number that a slot has.

/// A slot has this number.
#[derive(Clone, Copy, Debug)]
pub struct Equality {
    pub slot: u32,
    pub number: u64,
}
