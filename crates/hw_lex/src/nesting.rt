//! How deep brackets and `!` stand in one another.
ghost use Rattle.std.specs.Prelude.{◌≡◌, ◌+◌, ◌<◌, ◌≤◌, ◌^◌};
ghost use Rattle.hw_lex.specs.Nesting.{is_one_of, open_after, nesting_of, byte_tokens};

/// How deep brackets and `!` stand in one another in a text of which each byte counts as a token, as in a netlist's: the
/// greatest number of `(`, `[` and `{` that are open at a byte, plus the length of the run of `!` that ends at it.
/// 0 where the text is empty.
pub fn nesting_of_bytes(text: &[u8]) -> usize
    ensures { result ≡ nesting_of (byte_tokens text.now) }
{
    let mut brackets = 0usize;
    let mut nots = 0usize;
    let mut deepest = 0usize;
    for i in 0..text.len() {
        let token = &text[i..i + 1];
        brackets = brackets_after(brackets, token);
        nots = if is_one_of(b"!", token) { nots + 1 } else { 0 };
        deepest = deepest.max(brackets + nots);
    }
    deepest
}

/// Whether the token is one of these marks of one byte.
pub(crate) fn is_one_of(marks: &[u8], text: &[u8]) -> bool
    ensures { result ≡ is_one_of marks.now text.now }
{
    match text {
        [byte] => marks.contains(byte),
        _ => false,
    }
}

/// How many brackets are open after one more token.
pub(crate) fn brackets_after(count: usize, text: &[u8]) -> usize
    requires { count + 1 < 2 ^ 64 }
    ensures is { result ≡ open_after count text.now }
    ensures most { result ≤ count + 1 }
{
    if is_one_of(b"([{", text) {
        count + 1
    } else if is_one_of(b")]}", text) {
        count.saturating_sub(1)
    } else {
        count
    }
}
