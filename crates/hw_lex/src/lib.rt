//! Tokens of Filament and Calyx texts, and of Filament with parameters.
//!
//! In: the bytes of a text, and its language (`Dialect`). Out: its tokens in their order, each with its kind and the bytes where
//! it stands (`Tokens`), or the first byte at which no token, blank or comment starts.
//!
//!     p := M<G+1>(a, 8'd1); // one         p   :=   M   <   G   +   1   >   (   a   ,   8'd1   )   ;
//!
//! A token is the longest that stands at its place; blanks and comments only part tokens. The languages differ in their marks,
//! and in that a name of Calyx may have `$` after its first byte. `a ! b` is refused in Filament, at byte 2, and has three tokens
//! in Calyx; `1..n` has three tokens with parameters, and four without. A number or literal of `2^128` or more is refused, since it is no token.
//!
//! `Tokens` also gives the value of a number, the width and the value of a literal, and how deep brackets and `!` nest
//! (`nesting`); `nesting_of_bytes` gives that depth of a netlist's text, in which each byte counts as a token.
//!
//! What the layer above uses: `lex` gives exactly the tokens of the text (`AreTokens`), else the byte of the fault (`FaultsAt`);
//! the depth is `nesting_of` of the tokens' texts.
#![tactic(auto)]

mod byte;
mod gap;
mod nesting;
mod number;
mod token;
mod tokens;
mod word;

pub use nesting::nesting_of_bytes;
pub use number::{Base, Literal};
pub use token::{Dialect, Kind, Span, Token};
pub use tokens::{LexEnd, Tokens, lex};
