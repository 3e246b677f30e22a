//! A walk over the items of a component, which ends at the first that breaks a rule.
ghost use Rattle.std.specs.Prelude.{[], ◌∷◌};
ghost use Rattle.cal_ast.specs.Items.{Item};

use crate::rule::{CompEnd, Rule};

/// How far a walk over items has come.
#[derive(Drop)]
pub struct Walk {
    /// The number of the next item.
    pub item: u64,
}

impl Walk {
    ghost use Rattle.cal_place.specs.Around.{Around, KeepsAt};
    ghost use Rattle.cal_rules.specs.LeastRule.{TellsLeast};
    ghost use Rattle.cal_rules.specs.inside.Walks.{WalksOver};

    /// Goes past an item, at which this rule is the least that is broken, if one is. More than `2^64 - 1` items find no
    /// memory.
    pub fn pass(&mut self, broken: Option<Rule>) -> Result<(), CompEnd>
        ensures { (place : Around) (item : Item) → TellsLeast (KeepsAt place item) broken → WalksOver place (item ∷ []) self.old self.new result }
    {
        let item = self.item;
        if let Some(rule) = broken {
            return Err(CompEnd::Broken { item, rule });
        }
        if item == u64::MAX {
            return Err(CompEnd::Memory);
        }
        self.item = item + 1;
        Ok(())
    }
}
