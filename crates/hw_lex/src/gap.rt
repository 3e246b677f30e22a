//! Blanks and comments.
ghost use Rattle.std.specs.Prelude.{◌≡◌, ◌≤◌, ℕ, List, length};
ghost use Rattle.std.specs.List.{prefix_len};
ghost use Rattle.std.specs.Option.{option_copied};
ghost use Rattle.hw_lex.specs.Gap.{Space, Gap, is_in_line};
ghost use Rattle.hw_lex.specs.inside.Front.{after_close, after_space};

use crate::byte::is_blank;

/// How many bytes there are up to the line's end.
#[tactic(auto, using(crate::proofs::Fronts::prefix_fits))]
fn line_len(text: &[u8]) -> usize
    ensures is { result ≡ prefix_len is_in_line text.now }
    ensures fits { result ≤ length text.now }
{
    text.iter().take_while(|byte| **byte != b'\n').count()
}

/// What follows the first `*/`.
fn after_close(text: &[u8]) -> Option<&[u8]>
    ensures { option_copied result ≡ after_close text.now }
{
    let mut rest = text;
    while let [first, others @ ..] = rest {
        if *first == b'*' && others.first() == Some(&b'/') {
            return Some(&others[1..]);
        }
        rest = others;
    }
    None
}

/// What follows one blank or comment; `None` where neither starts here.
fn after_space(text: &[u8]) -> Option<&[u8]>
    ensures { option_copied result ≡ after_space text.now }
{
    match text {
        [b'/', b'/', inner @ ..] => Some(&inner[line_len(inner)..]),
        [b'/', b'*', inner @ ..] => after_close(inner),
        [byte, rest @ ..] if is_blank(*byte) => Some(rest),
        _ => None,
    }
}

/// What follows all blanks and comments at the front of the text.
pub fn after_gap(text: &[u8]) -> &[u8]
    ensures gap { Gap text.now result.now }
    ensures whole { (rest : List ℕ) → Space result.now rest → ⊥ }
{
    let mut rest = text;
    while let Some(after) = after_space(rest) {
        rest = after;
    }
    rest
}
