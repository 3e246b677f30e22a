//! Phases of the multipliers that take several rows.

/// How many rows ago a multiplier took its operands; `Idle` while none are under way.
#[derive(Clone, Copy, Debug, PartialEq, Eq)]
pub enum Phase {
    Idle,
    First,
    Second,
    Third,
}
