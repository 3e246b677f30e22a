//! From tokens to terminals.
ghost use Rattle.std.specs.Prelude.{◌≡◌, ◌<◌, length, map, slice_get, unwrap_or, IfOk, Some};
ghost use Rattle.hw_names.specs.Name.{KeepsTexts, HasPlainNames};
ghost use Rattle.hw_lex.specs.declared.token.Dialect.TheVariants.{Fil, Filp, Cal};
ghost use Rattle.hw_lex.specs.declared.token.Kind.TheVariants as Kind;
ghost use Rattle.hw_lex.specs.declared.token.Token.{Token};
ghost use Rattle.hw_lex.specs.Word.{IsName};
ghost use Rattle.hw_lex.specs.Cut.{token_text};
ghost use Rattle.hw_grammar.specs.declared.sort.Sort.TheVariants as Sort;
ghost use Rattle.hw_grammar.specs.Terminals.{keywords, marks, entry_of, special_of, IsTerminal, AreTerminals};

use crate::sort::Sort;
use crate::terminal::{Special, Terminal};
use hw_bits::Memory;
use hw_lex::{Dialect, Kind, Tokens};
use hw_names::{NameId, Names};
use std::alloc::Global;

/// What a table says of a word.
fn entry_of<T: Copy>(table: &[(&str, T)], word: &[u8]) -> Option<T>
    ensures { result ≡ entry_of (map (λ row. (row.0.now, row.1)) table.now) word.now }
{
    let mut rest = table;
    while let [(text, value), others @ ..] = rest {
        if text.len() == word.len() && text.as_bytes() == word {
            return Some(*value);
        }
        rest = others;
    }
    None
}

/// The sort of a keyword of Filament.
fn filament_keyword(word: &[u8]) -> Option<Sort>
    ensures { result ≡ entry_of (keywords Fil) word.now }
{
    entry_of(
        &[
            ("comp", Sort::Comp),
            ("new", Sort::New),
            ("import", Sort::Import),
            ("interface", Sort::Interface),
        ],
        word,
    )
}

/// The sort of a keyword of Filament with parameters.
fn parameter_keyword(word: &[u8]) -> Option<Sort>
    ensures { result ≡ entry_of (keywords Filp) word.now }
{
    entry_of(
        &[
            ("comp", Sort::Comp),
            ("new", Sort::New),
            ("import", Sort::Import),
            ("interface", Sort::Interface),
            ("for", Sort::For),
            ("in", Sort::In),
            ("if", Sort::If),
            ("else", Sort::Else),
            ("lit", Sort::Lit),
        ],
        word,
    )
}

/// The sort of a keyword of Calyx.
fn calyx_keyword(word: &[u8]) -> Option<Sort>
    ensures { result ≡ entry_of (keywords Cal) word.now }
{
    entry_of(
        &[
            ("component", Sort::Component),
            ("cells", Sort::Cells),
            ("wires", Sort::Wires),
            ("control", Sort::Control),
            ("group", Sort::Group),
            ("comb", Sort::Comb),
            ("seq", Sort::Seq),
            ("par", Sort::Par),
            ("if", Sort::If),
            ("else", Sort::Else),
            ("while", Sort::While),
            ("with", Sort::With),
            ("invoke", Sort::Invoke),
            ("import", Sort::Import),
            ("static", Sort::Static),
            ("ref", Sort::Ref),
            ("repeat", Sort::Repeat),
            ("primitive", Sort::Primitive),
            ("extern", Sort::Extern),
            ("metadata", Sort::Metadata),
        ],
        word,
    )
}

/// The sort of a keyword.
fn keyword(dialect: Dialect, word: &[u8]) -> Option<Sort>
    ensures { result ≡ entry_of (keywords dialect) word.now }
{
    match dialect {
        Dialect::Fil => filament_keyword(word),
        Dialect::Filp => parameter_keyword(word),
        Dialect::Cal => calyx_keyword(word),
    }
}

/// The sort of a mark.
fn mark(word: &[u8]) -> Sort
    ensures { result ≡ unwrap_or (entry_of marks word.now) Sort.Text }
{
    let row = entry_of(
        &[
            ("@", Sort::At),
            ("[", Sort::LeftBracket),
            ("]", Sort::RightBracket),
            ("(", Sort::LeftParen),
            (")", Sort::RightParen),
            ("<", Sort::LeftAngle),
            (">", Sort::RightAngle),
            ("{", Sort::LeftBrace),
            ("}", Sort::RightBrace),
            (",", Sort::Comma),
            (":", Sort::Colon),
            (":=", Sort::ColonEquals),
            (";", Sort::Semicolon),
            ("=", Sort::Equals),
            ("+", Sort::Plus),
            ("-", Sort::Minus),
            ("*", Sort::Star),
            ("#", Sort::Hash),
            (".", Sort::Dot),
            ("..", Sort::DotDot),
            ("->", Sort::Arrow),
            ("?", Sort::Question),
            ("!", Sort::Not),
            ("&", Sort::And),
            ("|", Sort::Or),
            ("==", Sort::EqualsEquals),
            ("!=", Sort::NotEquals),
            ("<=", Sort::AtMost),
            (">=", Sort::AtLeast),
        ],
        word,
    );
    row.unwrap_or(Sort::Text)
}

/// What a name means beside the grammar.
fn special_name(word: &[u8]) -> Special
    ensures { result ≡ special_of Kind.Name word.now }
{
    let row = entry_of(
        &[
            ("external", Special::External),
            ("clk", Special::Clock),
            ("reset", Special::Reset),
            ("done", Special::Done),
        ],
        word,
    );
    row.unwrap_or(Special::Plain)
}

/// What a text, with its double quotes, means beside the grammar.
fn special_text(word: &[u8]) -> Special
    ensures { result ≡ special_of Kind.Text word.now }
{
    entry_of(&[("\"external\"", Special::External)], word).unwrap_or(Special::Plain)
}

/// A terminal of this sort without a name and without numbers.
fn bare(sort: Sort, special: Special) -> Terminal
    ensures sort { result.sort ≡ sort }
    ensures name { result.name.0 ≡ 0 }
    ensures special { result.special ≡ special }
    ensures width { result.width ≡ 0 }
    ensures value { result.value ≡ 0 }
{
    Terminal {
        sort,
        name: NameId(0),
        special,
        width: 0,
        value: 0,
    }
}

/// The terminal of a name or a keyword. A new name goes last; after `Memory` the names are as they were.
fn word_terminal(dialect: Dialect, word: &[u8], names: &mut Names) -> Result<Terminal, Memory>
    requires { IsName dialect word.now }
    ensures terminal { IfOk result (IsTerminal dialect names.new Kind.Name word.now) }
    ensures kept { KeepsTexts names.old names.new }
    ensures plain { HasPlainNames names.old → HasPlainNames names.new }
{
    let special = special_name(word);
    if let Some(sort) = keyword(dialect, word) {
        return Ok(bare(sort, special));
    }
    if names.len() >= u32::MAX as usize {
        return Err(Memory);
    }
    let name = names.intern(word)?;
    Ok(Terminal {
        sort: Sort::Name,
        name,
        special,
        width: 0,
        value: 0,
    })
}

/// The terminal of the token with this number.
fn terminal_at(tokens: &Tokens<'_>, i: usize, names: &mut Names) -> Result<Terminal, Memory>
    requires { i < length tokens.now.tokens }
    ensures terminal { IfOk result (λ t. (token : Token) → slice_get tokens.now.tokens i ≡ Some token
        → IsTerminal tokens.now.dialect names.new token.kind (token_text tokens.now.source token) t) }
    ensures kept { KeepsTexts names.old names.new }
    ensures plain { HasPlainNames names.old → HasPlainNames names.new }
{
    let word = tokens.text(i);
    match tokens.token(i).kind {
        Kind::Name => word_terminal(tokens.dialect(), word, names),
        Kind::Number => {
            let mut t = bare(Sort::Number, Special::Plain);
            t.value = tokens.number(i);
            Ok(t)
        }
        Kind::Literal => {
            let literal = tokens.literal(i);
            let mut t = bare(Sort::Literal, Special::Plain);
            t.width = literal.width;
            t.value = literal.value;
            Ok(t)
        }
        Kind::Text => Ok(bare(Sort::Text, special_text(word))),
        Kind::Mark => Ok(bare(mark(word), Special::Plain)),
    }
}

/// The terminals of a text's tokens, one for each and in their order. Names get their numbers in `names`: those that are
/// there keep them, new ones go last. After `Memory` the names may have grown.
pub fn terminals(
    alloc: Global,
    tokens: &Tokens<'_>,
    names: &mut Names,
) -> Result<Vec<Terminal>, Memory>
    ensures terminals { IfOk result (λ ts.
        AreTerminals tokens.now.dialect names.new tokens.now.source tokens.now.tokens ts.items) }
    ensures kept { KeepsTexts names.old names.new }
    ensures plain { HasPlainNames names.old → HasPlainNames names.new }
{
    let mut ts = Vec::with_capacity(alloc, tokens.len())?;
    for i in 0..tokens.len() {
        let t = terminal_at(tokens, i, names)?;
        ts.push(t)?;
    }
    Ok(ts)
}
