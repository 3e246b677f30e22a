//! Places of refused terminals in a text.
ghost use Rattle.std.specs.Prelude.{◌≡◌, ◌-◌, ◌≤◌, length};
ghost use Rattle.hw_grammar.specs.TextPlace.{byte_of};

use crate::terminal::Terminal;
use hw_lex::Tokens;

/// The byte of the text at which it is refused, where `refused` are its terminals from the refused one on: the first byte
/// of that one's token, or the text's length where there is none.
pub fn refused_byte(tokens: &Tokens<'_>, refused: &[Terminal]) -> usize
    requires { length refused.now ≤ length tokens.now.tokens }
    ensures { result ≡ byte_of tokens.now.source tokens.now.tokens (length tokens.now.tokens - length refused.now) }
{
    let k = tokens.len() - refused.len();
    if k < tokens.len() {
        tokens.token(k).span.from
    } else {
        tokens.source().len()
    }
}
