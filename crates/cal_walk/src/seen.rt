//! What control sees of a row.

/// What the control of an instance sees of a row: which actors are done, and which conditions read 1.
#[derive(Drop)]
pub struct Seen {
    pub done: Vec<bool>,
    pub reads: Vec<bool>,
}
