//! The rules by their numbers, and how a component or an item ends that breaks one.
ghost use Rattle.std.specs.Prelude.{◌≡◌};
ghost use Rattle.fil_rules.specs.LeastRule.{number_of};
ghost use Rattle.fil_rules.specs.declared.rules.Evidence.TheVariants as Evidence;
ghost use Rattle.fil_rules.specs.declared.rules.ItemEnd.TheVariants as ItemEnd;

use fil_share::Meet;
use hw_bits::Memory;
use hw_names::Word;

/// The rules that are judged item by item, in the order of their numbers. F14 is judged after them.
#[derive(Clone, Copy, Debug, PartialEq, Eq)]
pub enum Rule {
    F1,
    F2,
    F3,
    F4,
    F5,
    F6,
    F7,
    F8,
    F9,
    F10,
    F11,
    F12,
    F13,
}

impl Rule {
    /// The number that a refusal tells.
    pub fn number(self) -> u8
        ensures { result ≡ number_of self }
    {
        match self {
            Rule::F1 => 1,
            Rule::F2 => 2,
            Rule::F3 => 3,
            Rule::F4 => 4,
            Rule::F5 => 5,
            Rule::F6 => 6,
            Rule::F7 => 7,
            Rule::F8 => 8,
            Rule::F9 => 9,
            Rule::F10 => 10,
            Rule::F11 => 11,
            Rule::F12 => 12,
            Rule::F13 => 13,
        }
    }
}

/// What a refusal shows besides the rule.
#[derive(Debug, Drop)]
pub enum Evidence {
    /// Nothing.
    Nothing,
    /// F8: the least offset that is needed and not available, of the first argument that breaks the rule.
    Offset(u64),
    /// F11: the later of two times at which the instance is invoked.
    Cycle(u64),
    /// F12: how far apart two transactions start, and the row in which they meet.
    Gap(Meet),
    /// F14: full names of ports. Each reads the next within a row, and the last reads the first.
    Loop(Vec<Word>),
}

/// This rule is the least that is broken, with its evidence.
#[derive(Debug, Drop)]
pub struct Broken {
    pub rule: Rule,
    pub evidence: Evidence,
}

/// This rule, which shows nothing, is the least that is broken at an item.
pub fn breaks(rule: Rule) -> ItemEnd
    ensures { result ≡ ItemEnd.Broken (record { rule = rule; evidence = Evidence.Nothing }) }
{
    ItemEnd::Broken(Broken {
        rule,
        evidence: Evidence::Nothing,
    })
}

/// Why an item is not accepted.
#[derive(Debug, Drop)]
pub enum ItemEnd {
    /// This is the least rule that is broken at the item.
    Broken(Broken),
    /// There was no memory.
    Memory,
}

impl From<Memory> for ItemEnd {
    ghost use Rattle.std.specs.Prelude.{◌≡◌};
    ghost use Rattle.fil_rules.specs.declared.rules.ItemEnd.{ItemEnd};

    ghost from_gives = { λ memory end. end ≡ ItemEnd.Memory };

    fn from(_memory: Memory) -> ItemEnd {
        ItemEnd::Memory
    }
}

/// Why a component is not accepted.
#[derive(Debug, Drop)]
pub enum CompEnd {
    /// This is the least rule that is broken at this item, and no rule is broken at an item before it.
    Broken { item: u64, broken: Broken },
    /// There was no memory.
    Memory,
}

impl From<Memory> for CompEnd {
    ghost use Rattle.std.specs.Prelude.{◌≡◌};
    ghost use Rattle.fil_rules.specs.declared.rules.CompEnd.{CompEnd};

    ghost from_gives = { λ memory end. end ≡ CompEnd.Memory };

    fn from(_memory: Memory) -> CompEnd {
        CompEnd::Memory
    }
}
