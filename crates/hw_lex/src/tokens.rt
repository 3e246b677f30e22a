//! The tokens of a whole text.
ghost use Rattle.std.specs.Prelude.{◌≡◌, ◌+◌, ◌<◌, ◌≤◌, ◌^◌, ℕ, length, slice_get, slice_range, IfOk, IfSome};
ghost use Rattle.std.specs.Option.{ForSome};
ghost use Rattle.hw_lex.specs.declared.token.Kind.TheVariants as Kind;
ghost use Rattle.hw_lex.specs.Number.{number_of, width_of, value_of, Fits};
ghost use Rattle.hw_lex.specs.Word.{IsWord};
ghost use Rattle.hw_lex.specs.Cut.{AreTokens, FaultsAt, token_texts};
ghost use Rattle.hw_lex.specs.Nesting.{nesting_of};

use crate::gap::after_gap;
use crate::nesting::{brackets_after, is_one_of};
use crate::number::{Literal, read_literal, read_number};
use crate::token::{Dialect, Kind, Span, Token};
use crate::word::front_token;
use hw_bits::Memory;
use std::alloc::{AllocError, AllocFailed, Global};
use std::marker::Model;

/// Why a text has no tokens.
#[derive(Clone, Copy, Debug, PartialEq, Eq)]
pub enum LexEnd {
    /// At this byte of the text no token, blank or comment starts, and at none before it.
    Fault { at: usize },
    /// There was no memory.
    Memory,
}

impl From<Memory> for LexEnd {
    ghost use Rattle.std.specs.Prelude.{◌≡◌};
    ghost use Rattle.hw_lex.specs.declared.tokens.LexEnd.TheVariants as LexEnd;

    ghost from_gives = { λ _ end. end ≡ LexEnd.Memory };

    fn from(_memory: Memory) -> LexEnd {
        LexEnd::Memory
    }
}

impl<T: Drop> From<AllocFailed<T>> for LexEnd {
    ghost use Rattle.std.specs.Prelude.{◌≡◌};
    ghost use Rattle.hw_lex.specs.declared.tokens.LexEnd.TheVariants as LexEnd;

    ghost from_gives = { λ _ end. end ≡ LexEnd.Memory };

    fn from(_failed: AllocFailed<T>) -> LexEnd {
        LexEnd::Memory
    }
}

/// A text and its tokens, in their order.
#[derive(Debug, Drop)]
pub struct Tokens<'a> {
    dialect: Dialect,
    source: &'a [u8],
    tokens: Vec<Token>,
}

impl<'a> Model for Tokens<'a> {
    ghost use Rattle.hw_lex.specs.Cut.{Lexed, AreTokens};

    ghost Value = { Lexed };

    ghost view = { λ t. record { dialect = t.dialect; source = t.source.now; tokens = t.tokens.items } };

    ghost invariant = { λ t. AreTokens t.dialect t.source.now t.tokens.items };
}

/// The tokens of a text. `Fault` exactly where it has none; `at` is the first byte at which nothing starts.
pub fn lex<'a>(alloc: Global, text: &'a [u8], dialect: Dialect) -> Result<Tokens<'a>, LexEnd>
    ensures text { IfOk result (λ t. (t.dialect ≡ dialect) × (t.source ≡ text.now)) }
    ensures tokens { IfOk result (λ t. AreTokens dialect text.now t.tokens) }
    ensures fault { (at : ℕ) → result ≡ Err (LexEnd.Fault at) → FaultsAt dialect text.now at }
{
    let mut tokens = Vec::new(alloc);
    let mut rest = after_gap(text);
    while !rest.is_empty() {
        let from = text.len() - rest.len();
        let Some((kind, len)) = front_token(dialect, rest) else {
            return Err(LexEnd::Fault { at: from });
        };
        let to = from + len;
        tokens.push(Token {
            kind,
            span: Span { from, to },
        })?;
        rest = after_gap(&rest[len..]);
    }
    Ok(Tokens {
        dialect,
        source: text,
        tokens,
    })
}

impl<'a> Tokens<'a> {
    /// Lets the tokens go. Their list is cut short in its place first: a large block that is freed whole has glibc keep blocks
    /// of that size in its heap from then on, where lists that grow leave holes as large as themselves.
    pub fn release(self) {
        let mut tokens = self.tokens;
        tokens.truncate(1);
        tokens.shrink_to_fit();
    }

    /// The language in which the text was cut.
    pub fn dialect(&self) -> Dialect
        ensures { result ≡ self.now.dialect }
    {
        self.dialect
    }

    /// The text that was cut.
    pub fn source(&self) -> &'a [u8]
        ensures { result.now ≡ self.now.source }
    {
        self.source
    }

    /// How many tokens there are.
    pub fn len(&self) -> usize
        ensures { result ≡ length self.now.tokens }
    {
        self.tokens.len()
    }

    /// The token with this number.
    pub fn token(&self, i: usize) -> Token
        requires { i < length self.now.tokens }
        ensures { slice_get self.now.tokens i ≡ Some result }
    {
        self.tokens[i]
    }

    /// The bytes of the token with this number. They have the form of its kind, and the numbers in them are below `2^128`.
    pub fn text(&self, i: usize) -> &'a [u8]
        requires { i < length self.now.tokens }
        ensures bytes { slice_get (token_texts self.now.source self.now.tokens) i ≡ Some result.now }
        ensures form { IfSome (slice_get self.now.tokens i) (λ token.
            IsWord self.now.dialect token.kind result.now × Fits token.kind result.now) }
    {
        bytes_at(self.source, self.tokens[i].span)
    }

    /// The value of the number with this number among the tokens.
    pub fn number(&self, i: usize) -> u128
        requires within { i < length self.now.tokens }
        requires kind { ForSome (slice_get self.now.tokens i) (λ token. token.kind ≡ Kind.Number) }
        ensures { IfSome (slice_get (token_texts self.now.source self.now.tokens) i) (λ text. result ≡ number_of text) }
    {
        read_number(self.text(i)).unwrap()
    }

    /// The width and the value of the literal with this number among the tokens.
    pub fn literal(&self, i: usize) -> Literal
        requires within { i < length self.now.tokens }
        requires kind { ForSome (slice_get self.now.tokens i) (λ token. token.kind ≡ Kind.Literal) }
        ensures { IfSome (slice_get (token_texts self.now.source self.now.tokens) i) (λ text.
            (result.width ≡ width_of text) × (result.value ≡ value_of text)) }
    {
        read_literal(self.text(i)).unwrap()
    }

    /// How deep brackets and `!` stand in one another: the greatest number of `(`, `[` and `{` that are open at a token,
    /// plus the length of the run of `!` that ends at it. 0 where there is no token.
    pub fn nesting(&self) -> usize
        ensures { result ≡ nesting_of (token_texts self.now.source self.now.tokens) }
    {
        let mut brackets = 0usize;
        let mut nots = 0usize;
        let mut deepest = 0usize;
        for i in 0..self.len() {
            let text = self.text(i);
            brackets = brackets_after(brackets, text);
            nots = if is_one_of(b"!", text) { nots + 1 } else { 0 };
            deepest = deepest.max(brackets + nots);
        }
        deepest
    }
}

/// The bytes of a span.
fn bytes_at(source: &[u8], span: Span) -> &[u8]
    requires order { span.from ≤ span.to }
    requires within { span.to ≤ length source.now }
    ensures { result.now ≡ slice_range source.now span.from span.to }
{
    &source[span.from..span.to]
}
