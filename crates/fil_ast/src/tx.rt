//! Transactions.
use hw_bits::Bits;

/// A transaction: a start of an event of the component, and the values of that event's data inputs.
#[derive(Debug, Drop)]
pub struct Tx {
    /// The component's event, counted from 0.
    pub event: u8,
    /// The row in which the event starts.
    pub start: u64,
    /// A value for each data input of the event, in their order.
    pub values: Vec<Bits>,
}

/// Transactions, and the number whose low bits stand where no transaction gives a value.
#[derive(Debug, Drop)]
pub struct TxList {
    pub txs: Vec<Tx>,
    pub idle: u128,
}
