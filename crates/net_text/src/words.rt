//! Words, numbers and marks at the front of a text.
ghost use Rattle.std.specs.Prelude.{◌≡◌, ℕ, ◌+◌, ◌<◌, ◌≤◌, length, take, drop, Option, option_copied, IfOk, IfSome};
ghost use Rattle.std.specs.List.{list_all};
ghost use Rattle.net_text.specs.Names.{begins_name, continues_name, is_segment, is_path};
ghost use Rattle.net_text.specs.inside.ReadResults.{Gives};
ghost use Rattle.net_text.specs.inside.ReadWords.{after, is_word_byte, word_len, word_at, digits_after, number_of, number_at, whole};

use crate::line_end::LineEnd;

fn begins_name(byte: u8) -> bool
    ensures { result ≡ begins_name byte }
{
    byte >= b'A' && byte <= b'Z' || byte >= b'a' && byte <= b'z' || byte == b'_'
}

fn continues_name(byte: u8) -> bool
    ensures { result ≡ continues_name byte }
{
    begins_name(byte) || byte >= b'0' && byte <= b'9' || byte == b'$'
}

fn all_continue(bytes: &[u8]) -> bool
    ensures { result ≡ list_all continues_name bytes.now }
{
    bytes.iter().all(|byte| continues_name(*byte))
}

/// The word is a letter or `_`, then letters, digits, `_` and `$`.
pub fn is_segment(word: &[u8]) -> bool
    ensures { result ≡ is_segment word.now }
{
    match word {
        [] => false,
        [first, others @ ..] => begins_name(*first) && all_continue(others),
    }
}

/// The word is segments joined by dots.
pub fn is_path(word: &[u8]) -> bool
    ensures { result ≡ is_path word.now }
{
    let mut begins = true;
    for byte in word {
        if begins {
            if !begins_name(*byte) {
                return false;
            }
            begins = false;
        } else if *byte == b'.' {
            begins = true;
        } else if !continues_name(*byte) {
            return false;
        }
    }
    !begins
}

/// How many bytes at the front are of a path or a number.
#[tactic(auto, using(crate::proofs::WordLemmas::prefix_fits))]
fn word_len(text: &[u8]) -> usize
    ensures is { result ≡ word_len text.now }
    ensures fits { result ≤ length text.now }
{
    text.iter()
        .take_while(|byte| continues_name(**byte) || **byte == b'.')
        .count()
}

/// The word at the front, and what follows.
pub fn word(text: &[u8]) -> (&[u8], &[u8])
    ensures word { result.0.now ≡ take (word_len text.now) text.now }
    ensures rest { result.1.now ≡ drop (word_len text.now) text.now }
    ensures length { length result.0.now + length result.1.now ≡ length text.now }
{
    text.split_at(word_len(text))
}

/// What follows this mark, where the text begins with it.
pub fn after<'a>(text: &'a [u8], mark: &[u8]) -> Option<&'a [u8]>
    ensures read { option_copied result ≡ after mark.now text.now }
    ensures length { IfSome result (λ rest. length mark.now + length rest.now ≡ length text.now) }
{
    text.strip_prefix(mark)
}

/// What follows this mark, with which the text has to begin.
pub fn expect<'a>(text: &'a [u8], mark: &[u8]) -> Result<&'a [u8], LineEnd>
    ensures read { Gives (λ rest. rest.now) result (after mark.now text.now) }
    ensures length { IfOk result (λ rest. length mark.now + length rest.now ≡ length text.now) }
{
    after(text, mark).ok_or(LineEnd::Grammar)
}

/// A segment at the front, and what follows.
#[tactic(auto, unfolding(crate::specs::inside::ReadWords::word_at))]
pub fn segment(text: &[u8]) -> Result<(&[u8], &[u8]), LineEnd>
    ensures read { Gives (λ x. (x.0.now, x.1.now)) result (word_at is_segment text.now) }
    ensures some { IfOk result (λ x. 0 < length x.0.now) }
    ensures length { IfOk result (λ x. length x.0.now + length x.1.now ≡ length text.now) }
{
    let (name, rest) = word(text);
    if !is_segment(name) {
        return Err(LineEnd::Grammar);
    }
    Ok((name, rest))
}

/// A path at the front, and what follows.
#[tactic(auto, unfolding(crate::specs::inside::ReadWords::word_at))]
pub fn path(text: &[u8]) -> Result<(&[u8], &[u8]), LineEnd>
    ensures read { Gives (λ x. (x.0.now, x.1.now)) result (word_at is_path text.now) }
    ensures some { IfOk result (λ x. 0 < length x.0.now) }
    ensures length { IfOk result (λ x. length x.0.now + length x.1.now ≡ length text.now) }
{
    let (name, rest) = word(text);
    if !is_path(name) {
        return Err(LineEnd::Grammar);
    }
    Ok((name, rest))
}

/// The number that digits write, below `2 ^ 128`.
fn digits(word: &[u8]) -> Option<u128>
    ensures { result ≡ digits_after 0 word.now }
{
    let mut value: u128 = 0;
    for byte in word {
        if *byte < b'0' || *byte > b'9' {
            return None;
        }
        value = value
            .checked_mul(10)?
            .checked_add(u128::from(*byte - b'0'))?;
    }
    Some(value)
}

/// The number that a word writes without leading zeros, below `2 ^ 128`.
#[tactic(auto, unfolding(crate::specs::inside::ReadWords::number_of))]
fn number_of(word: &[u8]) -> Option<u128>
    ensures { result ≡ number_of word.now }
{
    match word {
        [] | [b'0', _, ..] => None,
        _ => digits(word),
    }
}

/// A number at the front, and what follows.
#[tactic(auto, unfolding(crate::specs::inside::ReadWords::number_at))]
pub fn number(text: &[u8]) -> Result<(u128, &[u8]), LineEnd>
    ensures read { Gives (λ x. (x.0, x.1.now)) result (number_at text.now) }
    ensures length { IfOk result (λ x. length x.1.now ≤ length text.now) }
{
    let (digits, rest) = word(text);
    match number_of(digits) {
        None => Err(LineEnd::Grammar),
        Some(value) => Ok((value, rest)),
    }
}

/// A number that is the whole text.
pub fn whole_number(text: &[u8]) -> Result<u128, LineEnd>
    ensures { Gives (λ x. x) result (whole (number_at text.now)) }
{
    let (value, rest) = number(text)?;
    if !rest.is_empty() {
        return Err(LineEnd::Grammar);
    }
    Ok(value)
}
