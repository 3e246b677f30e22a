//! Names with an index, from terminals.
ghost use Rattle.std.specs.Prelude.{option_map};
ghost use Rattle.hw_grammar.specs.Reading.{GivesNamed};
ghost use Rattle.par_parse.specs.Tree.{expression_tree, name_tree};
ghost use Rattle.par_parse.specs.inside.Reading.{index_at, name_at};

use crate::expression::read_atom;
use crate::tree::{Expression, ParamName};
use hw_grammar::{ReadEnd, Sort, Terminal, read_name, read_one, starts};
use std::alloc::Global;

/// `["#" atom]`
#[tactic(auto, unfolding(crate::specs::inside::Reading::index_at))]
fn index_or_none(
    alloc: Global,
    ts: &[Terminal],
) -> Result<(Option<Expression>, &[Terminal]), ReadEnd<'_>>
    ensures { GivesNamed (λ names x. (option_map (expression_tree names) x.0, x.1.now)) result (λ names. index_at names ts.now) }
{
    if starts(ts, Sort::Hash) {
        let (_, rest) = read_one(ts, Sort::Hash)?;
        let (index, rest) = read_atom(alloc, rest)?;
        Ok((Some(index), rest))
    } else {
        Ok((None, ts))
    }
}

/// `NAME ["#" atom]`
#[tactic(auto, unfolding(crate::specs::inside::Reading::name_at))]
pub fn read_indexed(alloc: Global, ts: &[Terminal]) -> Result<(ParamName, &[Terminal]), ReadEnd<'_>>
    ensures { GivesNamed (λ names x. (name_tree names x.0, x.1.now)) result (λ names. name_at names ts.now) }
{
    let (name, rest) = read_name(ts)?;
    let (index, rest) = index_or_none(alloc, rest)?;
    Ok((ParamName { name, index }, rest))
}
