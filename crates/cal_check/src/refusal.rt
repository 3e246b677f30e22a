//! How a design ends that is not accepted.
use hw_bits::Memory;
use hw_names::{NameId, Word};

/// Why a design is not accepted.
#[derive(Debug, Drop)]
pub enum CalEnd {
    /// The rule with this number is broken at this item of the component of this name: the first that is broken, by
    /// components in text order, items in order and rules by number. C12 comes after all others, at item 0 of the
    /// first component that has a loop, and shows the full names of the least loop's ports: each reads the next within
    /// a row, and the last reads the first. The other rules show no ports.
    Refused {
        rule: u8,
        comp: NameId,
        item: u64,
        ports: Vec<Word>,
    },
    /// There was no memory.
    Memory,
}

impl From<Memory> for CalEnd {
    ghost use Rattle.std.specs.Prelude.{◌≡◌};
    ghost use Rattle.cal_check.specs.declared.refusal.CalEnd.{CalEnd};

    ghost from_gives = { λ memory end. end ≡ CalEnd.Memory };

    fn from(_memory: Memory) -> CalEnd {
        CalEnd::Memory
    }
}
