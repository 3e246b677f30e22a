//! How a design ends that breaks a rule.
ghost use Rattle.std.specs.Prelude.{◌≡◌};
ghost use Rattle.fil_rules.specs.declared.rules.Evidence.TheVariants as Evidence;

use fil_rules::Evidence;
use hw_bits::Memory;
use hw_names::NameId;

/// Why a design is not accepted.
#[derive(Debug, Drop)]
pub enum FilEnd {
    /// The rule with this number is broken at this item of the component of this name: the first that is
    /// broken, by components in text order, items in order and rules by number; F14 comes after all others.
    Refused {
        rule: u8,
        comp: NameId,
        item: u64,
        evidence: Evidence,
    },
    /// There was no memory.
    Memory,
}

impl From<Memory> for FilEnd {
    ghost use Rattle.std.specs.Prelude.{◌≡◌};
    ghost use Rattle.fil_check.specs.declared.rules.FilEnd.{FilEnd};

    ghost from_gives = { λ memory end. end ≡ FilEnd.Memory };

    fn from(_memory: Memory) -> FilEnd {
        FilEnd::Memory
    }
}
