//! The token at the front of a text.
ghost use Rattle.std.specs.Prelude.{◌≡◌, ◌+◌, ◌≤◌, ◌<◌, ◌↔◌, ℕ, List, length, drop, IfSome, MatchOption, IsTrue};
ghost use Rattle.std.specs.List.{prefix_len};
ghost use Rattle.hw_lex.specs.declared.token.Kind.{Kind};
ghost use Rattle.hw_lex.specs.Byte.{is_name_byte};
ghost use Rattle.hw_lex.specs.Number.{Fits};
ghost use Rattle.hw_lex.specs.Word.{is_text_byte, Stands};
ghost use Rattle.hw_lex.specs.inside.Front.{literal_tail, numeral, text_len, mark_len, front_word};

use crate::byte::{is_double_mark, is_letter, is_name_byte, is_single_mark};
use crate::number::{Base, read_literal, read_number};
use crate::token::{Dialect, Kind};

/// How many bytes of names the text begins with.
#[tactic(auto, using(crate::proofs::Fronts::prefix_fits))]
fn name_len(dialect: Dialect, text: &[u8]) -> usize
    ensures is { result ≡ prefix_len (is_name_byte dialect) text.now }
    ensures fits { result ≤ length text.now }
{
    text.iter()
        .take_while(|byte| is_name_byte(dialect, **byte))
        .count()
}

/// How many bytes of a literal follow the digits of its width; 0 where no literal goes on here.
fn literal_tail(text: &[u8]) -> usize
    ensures is { result ≡ literal_tail text.now }
    ensures fits { result ≤ length text.now }
{
    match text {
        [b'\'', letter, digits @ ..] => match Base::of(*letter) {
            Some(base) => {
                let count = base.digit_count(digits);
                if count == 0 { 0 } else { count + 2 }
            }
            None => 0,
        },
        _ => 0,
    }
}

/// The number or the literal at a digit.
fn numeral(text: &[u8]) -> (Kind, usize)
    ensures is { result ≡ numeral text.now }
    ensures fits { result.1 ≤ length text.now }
{
    let width = Base::Decimal.digit_count(text);
    let tail = literal_tail(&text[width..]);
    if tail == 0 {
        (Kind::Number, width)
    } else {
        (Kind::Literal, width + tail)
    }
}

/// How many bytes of a text in double quotes the text begins with.
#[tactic(auto, using(crate::proofs::Fronts::prefix_fits))]
fn inner_len(text: &[u8]) -> usize
    ensures is { result ≡ prefix_len is_text_byte text.now }
    ensures fits { result ≤ length text.now }
{
    text.iter()
        .take_while(|byte| **byte != b'"' && **byte != b'\n')
        .count()
}

/// The length of a text in double quotes, of which what follows the first quote is given; 0 where it is not closed.
fn text_len(inner: &[u8]) -> usize
    ensures is { result ≡ text_len inner.now }
    ensures fits { result ≤ length inner.now + 1 }
{
    let count = inner_len(inner);
    match &inner[count..] {
        [b'"', ..] => count + 2,
        _ => 0,
    }
}

/// The length of a mark; 0 where none is here.
fn mark_len(dialect: Dialect, text: &[u8]) -> usize
    ensures is { result ≡ mark_len dialect text.now }
    ensures fits { result ≤ length text.now }
{
    match text {
        [first, second, ..] if is_double_mark(dialect, *first, *second) => 2,
        [first, ..] if is_single_mark(dialect, *first) => 1,
        _ => 0,
    }
}

/// The kind and the length of the longest bytes at the front that have the form of a token.
fn front_word(dialect: Dialect, text: &[u8]) -> Option<(Kind, usize)>
    ensures is { result ≡ front_word dialect text.now }
    ensures fits { IfSome result (λ word. word.1 ≤ length text.now) }
{
    let [first, others @ ..] = text else {
        return None;
    };
    let (kind, len) = if is_letter(*first) {
        (Kind::Name, name_len(dialect, others) + 1)
    } else if Base::Decimal.is_digit(*first) {
        numeral(text)
    } else if *first == b'"' {
        (Kind::Text, text_len(others))
    } else {
        (Kind::Mark, mark_len(dialect, text))
    };
    if len == 0 { None } else { Some((kind, len)) }
}

/// Whether the numbers of a token are below `2^128`.
fn fits(kind: Kind, bytes: &[u8]) -> bool
    ensures { IsTrue result ↔ Fits kind bytes.now }
{
    match kind {
        Kind::Number => read_number(bytes).is_some(),
        Kind::Literal => read_literal(bytes).is_some(),
        _ => true,
    }
}

/// The kind and the length in bytes of the token at the front of the text; `None` where none starts here.
pub fn front_token(dialect: Dialect, text: &[u8]) -> Option<(Kind, usize)>
    ensures token { MatchOption result
        ((kind : Kind) (rest : List ℕ) → Stands dialect kind text.now rest → ⊥)
        (λ token. Stands dialect token.0 text.now (drop token.1 text.now)) }
    ensures bounds { IfSome result (λ token. (0 < token.1) × (token.1 ≤ length text.now)) }
{
    let (kind, len) = front_word(dialect, text)?;
    if fits(kind, &text[..len]) {
        Some((kind, len))
    } else {
        None
    }
}
