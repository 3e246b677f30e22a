//! Attributes, which leave no trace but at cells.
ghost use Rattle.std.specs.Prelude.{◌≡◌};
ghost use Rattle.cal_parse.specs.Grammar.{is_external};
ghost use Rattle.cal_parse.specs.inside.Reading.{attribute_word_at, attribute_at, attributes_at, angle_entry_at, more_entries_at, entries_at, angle_at, maybe_angle_at};
ghost use Rattle.hw_grammar.specs.declared.sort.Sort.TheVariants as Sort;
ghost use Rattle.hw_grammar.specs.Reading.{Gives};

use hw_grammar::{ReadEnd, Sort, Special, Terminal, read_number, read_one, starts};

/// Whether the word is that of the attribute which cells keep.
fn is_external(special: Special) -> bool
    ensures { result ≡ is_external special }
{
    special == Special::External
}

/// `"@" NAME ["(" NUMBER ")"]`: whether the name is `external`.
#[tactic(auto, unfolding(crate::specs::inside::Reading::attribute_at))]
fn read_attribute(ts: &[Terminal]) -> Result<(bool, &[Terminal]), ReadEnd<'_>>
    ensures { Gives (λ x. (x.0, x.1.now)) result (attribute_at ts.now) }
{
    let (_, rest) = read_one(ts, Sort::At)?;
    let (name, rest) = read_one(rest, Sort::Name)?;
    let external = is_external(name.special);
    if starts(rest, Sort::LeftParen) {
        let (_, rest) = read_one(rest, Sort::LeftParen)?;
        let (_, rest) = read_number(rest)?;
        let (_, rest) = read_one(rest, Sort::RightParen)?;
        Ok((external, rest))
    } else {
        Ok((external, rest))
    }
}

/// `{"@" NAME ["(" NUMBER ")"]}`: whether a name is `external`.
pub fn read_attributes(ts: &[Terminal]) -> Result<(bool, &[Terminal]), ReadEnd<'_>>
    ensures { Gives (λ x. (x.0, x.1.now)) result (attributes_at ts.now) }
{
    let mut external = false;
    let mut rest = ts;
    // Each round takes a terminal at least.
    for _ in 0..ts.len() {
        if !starts(rest, Sort::At) {
            return Ok((external, rest));
        }
        let (next, after) = read_attribute(rest)?;
        external |= next;
        rest = after;
    }
    if starts(rest, Sort::At) {
        Err(ReadEnd::Refused(rest))
    } else {
        Ok((external, rest))
    }
}

/// `STRING "=" NUMBER`: whether the string is `"external"`.
#[tactic(auto, unfolding(crate::specs::inside::Reading::angle_entry_at))]
fn read_angle_entry(ts: &[Terminal]) -> Result<(bool, &[Terminal]), ReadEnd<'_>>
    ensures { Gives (λ x. (x.0, x.1.now)) result (angle_entry_at ts.now) }
{
    let (text, rest) = read_one(ts, Sort::Text)?;
    let (_, rest) = read_one(rest, Sort::Equals)?;
    let (_, rest) = read_number(rest)?;
    Ok((is_external(text.special), rest))
}

/// `{"," STRING "=" NUMBER}`: whether a string is `"external"`.
fn more_entries(ts: &[Terminal]) -> Result<(bool, &[Terminal]), ReadEnd<'_>>
    ensures { Gives (λ x. (x.0, x.1.now)) result (more_entries_at ts.now) }
{
    let mut external = false;
    let mut rest = ts;
    // Each round takes a terminal at least.
    for _ in 0..ts.len() {
        if !starts(rest, Sort::Comma) {
            return Ok((external, rest));
        }
        let (_, mid) = read_one(rest, Sort::Comma)?;
        let (next, after) = read_angle_entry(mid)?;
        external |= next;
        rest = after;
    }
    if starts(rest, Sort::Comma) {
        Err(ReadEnd::Refused(rest))
    } else {
        Ok((external, rest))
    }
}

/// `STRING "=" NUMBER {"," STRING "=" NUMBER}`: whether a string is `"external"`.
#[tactic(auto, unfolding(crate::specs::inside::Reading::entries_at))]
fn read_entries(ts: &[Terminal]) -> Result<(bool, &[Terminal]), ReadEnd<'_>>
    ensures { Gives (λ x. (x.0, x.1.now)) result (entries_at ts.now) }
{
    let (first, rest) = read_angle_entry(ts)?;
    let (more, rest) = more_entries(rest)?;
    Ok((first | more, rest))
}

/// `"<" STRING "=" NUMBER {"," STRING "=" NUMBER} ">"`: whether a string is `"external"`.
#[tactic(auto, unfolding(crate::specs::inside::Reading::angle_at))]
fn read_angle(ts: &[Terminal]) -> Result<(bool, &[Terminal]), ReadEnd<'_>>
    ensures { Gives (λ x. (x.0, x.1.now)) result (angle_at ts.now) }
{
    let (_, rest) = read_one(ts, Sort::LeftAngle)?;
    let (external, rest) = read_entries(rest)?;
    let (_, rest) = read_one(rest, Sort::RightAngle)?;
    Ok((external, rest))
}

/// Such a list in angles, or nothing.
#[tactic(auto, unfolding(crate::specs::inside::Reading::maybe_angle_at))]
pub fn angle_or_none(ts: &[Terminal]) -> Result<(bool, &[Terminal]), ReadEnd<'_>>
    ensures { Gives (λ x. (x.0, x.1.now)) result (maybe_angle_at ts.now) }
{
    if starts(ts, Sort::LeftAngle) {
        read_angle(ts)
    } else {
        Ok((false, ts))
    }
}
