//! Terminals.
use crate::sort::Sort;
use hw_names::NameId;

/// A word that has a meaning beside the grammar, as a name or in double quotes.
#[derive(Clone, Copy, Debug, PartialEq, Eq)]
pub enum Special {
    /// `external`, which marks cells.
    External,
    /// `clk`, the clock.
    Clock,
    /// `reset`.
    Reset,
    /// `done`, the port of a group that its done lines set.
    Done,
    /// Any other word.
    Plain,
}

/// A token as grammars see it.
#[derive(Clone, Copy, Debug, PartialEq, Eq)]
pub struct Terminal {
    pub sort: Sort,
    /// The number of a name; 0 at all other sorts.
    pub name: NameId,
    /// What the word of a name or a text means; `Plain` at all other sorts.
    pub special: Special,
    /// The width of a literal; 0 at all other sorts.
    pub width: u128,
    /// The value of a number or a literal; 0 at all other sorts.
    pub value: u128,
}
