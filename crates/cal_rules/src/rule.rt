//! The rules by their numbers, and how a component ends that breaks one.
ghost use Rattle.std.specs.Prelude.{◌≡◌, ◌+◌};
ghost use Rattle.cal_rules.specs.LeastRule.{place_of};

use hw_bits::Memory;

/// The rules that are judged item by item, in the order of their numbers. C12 is judged after them.
#[derive(Clone, Copy, Debug, PartialEq, Eq)]
pub enum Rule {
    C1,
    C2,
    C3,
    C4,
    C5,
    C6,
    C7,
    C8,
    C9,
    C10,
    C11,
}

impl Rule {
    /// The number that a refusal tells.
    pub fn number(self) -> u8
        ensures { result ≡ place_of self + 1 }
    {
        match self {
            Rule::C1 => 1,
            Rule::C2 => 2,
            Rule::C3 => 3,
            Rule::C4 => 4,
            Rule::C5 => 5,
            Rule::C6 => 6,
            Rule::C7 => 7,
            Rule::C8 => 8,
            Rule::C9 => 9,
            Rule::C10 => 10,
            Rule::C11 => 11,
        }
    }
}

/// Why a component is not accepted.
#[derive(Debug, Drop)]
pub enum CompEnd {
    /// This is the least rule that is broken at this item, and no rule is broken at an item before it.
    Broken { item: u64, rule: Rule },
    /// There was no memory.
    Memory,
}

impl From<Memory> for CompEnd {
    ghost use Rattle.std.specs.Prelude.{◌≡◌};
    ghost use Rattle.cal_rules.specs.declared.rule.CompEnd.{CompEnd};

    ghost from_gives = { λ memory end. end ≡ CompEnd.Memory };

    fn from(_memory: Memory) -> CompEnd {
        CompEnd::Memory
    }
}
