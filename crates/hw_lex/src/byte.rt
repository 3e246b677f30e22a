//! Classes of bytes.
ghost use Rattle.std.specs.Prelude.{◌≡◌};
ghost use Rattle.hw_lex.specs.Byte.{is_letter, is_name_byte, is_blank, is_single_mark, is_double_mark};

use crate::token::Dialect;

/// A letter of either case, or `_`.
pub fn is_letter(byte: u8) -> bool
    ensures { result ≡ is_letter byte }
{
    matches!(byte, b'A'..=b'Z' | b'a'..=b'z' | b'_')
}

/// A byte of a name after its first.
pub fn is_name_byte(dialect: Dialect, byte: u8) -> bool
    ensures { result ≡ is_name_byte dialect byte }
{
    match dialect {
        Dialect::Fil | Dialect::Filp => is_letter(byte) || matches!(byte, b'0'..=b'9'),
        Dialect::Cal => is_letter(byte) || matches!(byte, b'0'..=b'9' | b'$'),
    }
}

/// A space, a tab, a carriage return or a line feed.
pub fn is_blank(byte: u8) -> bool
    ensures { result ≡ is_blank byte }
{
    matches!(byte, b' ' | b'\t' | b'\r' | b'\n')
}

/// A mark of one byte.
pub fn is_single_mark(dialect: Dialect, byte: u8) -> bool
    ensures { result ≡ is_single_mark dialect byte }
{
    match dialect {
        Dialect::Fil => b"@[]()<>{},:;=+.".contains(&byte),
        Dialect::Filp => b"@[]()<>{},:;=+.#*-".contains(&byte),
        Dialect::Cal => b"@[]()<>{},:;=.?!&|".contains(&byte),
    }
}

/// A mark of two bytes.
pub fn is_double_mark(dialect: Dialect, first: u8, second: u8) -> bool
    ensures { result ≡ is_double_mark dialect first second }
{
    match dialect {
        Dialect::Fil => matches!((first, second), (b':', b'=') | (b'-', b'>')),
        Dialect::Filp => matches!(
            (first, second),
            (b':' | b'=', b'=') | (b'-', b'>') | (b'.', b'.')
        ),
        Dialect::Cal => matches!(
            (first, second),
            (b'=' | b'!' | b'<' | b'>', b'=') | (b'-', b'>')
        ),
    }
}
