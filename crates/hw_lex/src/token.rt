//! Tokens and their kinds.

/// The language of a text.
#[derive(Clone, Copy, Debug, PartialEq, Eq)]
pub enum Dialect {
    /// Filament.
    Fil,
    /// Filament with parameters.
    Filp,
    /// Calyx.
    Cal,
}

/// What a token is.
#[derive(Clone, Copy, Debug, PartialEq, Eq)]
pub enum Kind {
    /// A name or a keyword.
    Name,
    /// Decimal digits.
    Number,
    /// A number with a width, as `8'd255`.
    Literal,
    /// Bytes in double quotes.
    Text,
    /// A mark, as `:=`.
    Mark,
}

/// The bytes of a text from `from` up to and without `to`.
#[derive(Clone, Copy, Debug, PartialEq, Eq)]
pub struct Span {
    pub from: usize,
    pub to: usize,
}

/// A token and where it stands in its text.
#[derive(Clone, Copy, Debug, PartialEq, Eq)]
pub struct Token {
    pub kind: Kind,
    pub span: Span,
}
