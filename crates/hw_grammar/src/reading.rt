//! What every reader is made of.
ghost use Rattle.std.specs.Prelude.{◌≡◌, [], ◌∷◌};
ghost use Rattle.hw_grammar.specs.Reading.{Gives, one, one_special, any_name, any_number};
ghost use Rattle.hw_grammar.specs.Sort.{has_sort, has};

use crate::end::ReadEnd;
use crate::sort::Sort;
use crate::terminal::{Special, Terminal};
use hw_names::NameId;

/// Whether the first terminal has this sort.
pub fn starts(ts: &[Terminal], sort: Sort) -> bool
    ensures { result ≡ has (sort ∷ []) ts.now }
{
    match ts {
        [] => false,
        [t, ..] => t.sort == sort,
    }
}

/// Whether the first terminal has one of these sorts.
pub fn starts_any(ts: &[Terminal], sorts: &[Sort]) -> bool
    ensures { result ≡ has sorts.now ts.now }
{
    match ts {
        [] => false,
        [t, ..] => is_among(t.sort, sorts),
    }
}

/// Whether the sort is one of these.
fn is_among(sort: Sort, sorts: &[Sort]) -> bool
    ensures { result ≡ has_sort sort sorts.now }
{
    let mut rest = sorts;
    while let [first, others @ ..] = rest {
        if sort == *first {
            return true;
        }
        rest = others;
    }
    false
}

/// The first terminal, which is to have this sort, and those after it.
pub fn read_one(ts: &[Terminal], sort: Sort) -> Result<(Terminal, &[Terminal]), ReadEnd<'_>>
    ensures { Gives (λ x. (x.0, x.1.now)) result (one sort ts.now) }
{
    match ts {
        [] => Err(ReadEnd::Refused(ts)),
        [t, rest @ ..] => {
            if t.sort == sort {
                Ok((*t, rest))
            } else {
                Err(ReadEnd::Refused(ts))
            }
        }
    }
}

/// The name at the front, whose word is to have this meaning, and those after it.
pub fn read_special(
    ts: &[Terminal],
    special: Special,
) -> Result<(Terminal, &[Terminal]), ReadEnd<'_>>
    ensures { Gives (λ x. (x.0, x.1.now)) result (one_special special ts.now) }
{
    let (t, rest) = read_one(ts, Sort::Name)?;
    if t.special == special {
        Ok((t, rest))
    } else {
        Err(ReadEnd::Refused(ts))
    }
}

/// The number of the name at the front, and what follows it.
pub fn read_name(ts: &[Terminal]) -> Result<(NameId, &[Terminal]), ReadEnd<'_>>
    ensures { Gives (λ x. (x.0, x.1.now)) result (any_name ts.now) }
{
    let (t, rest) = read_one(ts, Sort::Name)?;
    Ok((t.name, rest))
}

/// The value of the number at the front, and what follows it.
pub fn read_number(ts: &[Terminal]) -> Result<(u128, &[Terminal]), ReadEnd<'_>>
    ensures { Gives (λ x. (x.0, x.1.now)) result (any_number ts.now) }
{
    let (t, rest) = read_one(ts, Sort::Number)?;
    Ok((t.value, rest))
}
