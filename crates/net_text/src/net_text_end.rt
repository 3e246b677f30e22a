//! Why a text is not read.

/// The text spells no netlist, and is refused at this byte; or there was no memory.
#[derive(Clone, Copy, Debug, PartialEq, Eq)]
pub enum NetTextEnd {
    Grammar { at: usize },
    Memory,
}
