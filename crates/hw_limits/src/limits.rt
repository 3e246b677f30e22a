//! The limits, in the order in which a run meets them.

/// The most bytes of a netlist's text.
pub const MOST_NET_BYTES: u64 = 16_777_216;

/// The most bytes of a Filament text.
pub const MOST_FIL_BYTES: u64 = 1_048_576;

/// The most bytes of a Calyx text.
pub const MOST_CAL_BYTES: u64 = 1_048_576;

/// The most that brackets and negations nest in a netlist's text.
pub const MOST_NET_NESTING: u64 = 256;

/// The most that parentheses, negations and blocks nest in a Filament or Calyx text.
pub const MOST_NESTING: usize = 64;

/// The greatest offset and the greatest delay of a Filament text, in rows.
pub const MOST_OFFSET: u128 = 4096;

/// The most events of a component.
pub const MOST_EVENTS: usize = 16;

/// The greatest end of a use of a unit, in rows after the event: an offset and a delay together.
pub const MOST_ROWS: u64 = 8_192;

/// The greatest weight of a design: its cells, assignments and nodes of guards, with those of all its instances.
pub const MOST_WEIGHT: u64 = 1_000_000;

/// The most words of all memories of a design.
pub const MOST_WORDS: u64 = 1_048_576;

/// The most bytes of a stimulus.
pub const MOST_STIMULUS_BYTES: u64 = 16_777_216;

/// The greatest number of entries of a stimulus; transactions are counted after `repeat` is written out.
pub const MOST_TRANSACTIONS: u64 = 100_000;

/// The greatest number of rows of a run.
pub const MOST_CYCLES: u64 = 1_000_000;
