//! From a text to its design.
ghost use Rattle.std.specs.Prelude.{◌≡◌, ℕ, List, [], ◌∷◌, IfOk, IfErr};
ghost use Rattle.cal_ast.specs.Numbers.{HasNumbers};
ghost use Rattle.cal_ast.specs.Tree.{Design, design_of};
ghost use Rattle.cal_parse.specs.inside.Reading.{file_at};
ghost use Rattle.cal_parse.specs.inside.Refusal.{IsRefusedFrom};
ghost use Rattle.cal_parse.specs.Spelling.{SpellsDesign, KeepsNesting, GrammarEnds, EndsBy, left_out};
ghost use Rattle.cal_ast.specs.Written.{DesignIsWritten};
ghost use Rattle.hw_grammar.specs.Reading.{Gives, whole};
ghost use Rattle.hw_grammar.specs.Sort.{has};
ghost use Rattle.hw_lex.specs.declared.token.Dialect.TheVariants.{Cal};
ghost use Rattle.hw_lex.specs.Cut.{AreTokens};
ghost use Rattle.hw_names.specs.Name.{Text, HasPlainNames};

use crate::component::whole_file;
use cal_ast::CalDesign;
use hw_bits::Memory;
use hw_grammar::{ReadEnd, Sort, Terminal, refused_byte, starts_any, terminals_of};
use hw_lex::{Dialect, LexEnd, Tokens, lex};
use hw_limits::MOST_NESTING;
use hw_names::Names;
use std::alloc::Global;

/// Why a text gives no design.
#[derive(Clone, Copy, Debug, PartialEq, Eq)]
pub enum CalTextEnd {
    /// At this byte no token, blank or comment starts, and at none before it.
    Token { at: usize },
    /// Brackets stand so deep in one another.
    Nesting { count: usize },
    /// At this byte the text is refused by the grammar.
    Grammar { at: usize },
    /// At this byte the text is refused by the grammar, at a word of Calyx that is left out of it.
    LeftOut { at: usize },
    /// There was no memory.
    Memory,
}

impl From<Memory> for CalTextEnd {
    ghost use Rattle.std.specs.Prelude.{◌≡◌};
    ghost use Rattle.cal_parse.specs.declared.parse.CalTextEnd.TheVariants as CalTextEnd;

    ghost from_gives = { λ _ end. end ≡ CalTextEnd.Memory };

    fn from(_memory: Memory) -> Self {
        CalTextEnd::Memory
    }
}

/// The design of terminals with these names.
fn file_of<'a>(alloc: Global, names: Names, ts: &'a [Terminal]) -> Result<CalDesign, ReadEnd<'a>>
    ghost known: { List Text }
    requires { names ≡ known }
    ensures gives { Gives design_of result (whole (file_at known ts.now)) }
    ensures names { IfOk result (λ design. design.names ≡ known) }
{
    let comps = whole_file(alloc, ts)?;
    Ok(CalDesign { names, comps })
}

/// Whether a word that is left out of this profile stands here.
fn starts_left_out(ts: &[Terminal]) -> bool
    ensures { result ≡ has left_out ts.now }
{
    starts_any(
        ts,
        &[
            Sort::Static,
            Sort::Ref,
            Sort::Repeat,
            Sort::Primitive,
            Sort::Extern,
            Sort::Metadata,
        ],
    )
}

/// Where the grammar refuses a text, whose terminals from the refused one on are `bad`. Its tokens, which have the places of
/// terminals, were let go, so it is cut once more.
fn refusal(alloc: Global, source: &[u8], bad: &[Terminal]) -> CalTextEnd
    requires { IsRefusedFrom source.now bad.now }
    ensures { GrammarEnds source.now result }
{
    match lex(alloc, source, Dialect::Cal) {
        Ok(tokens) => {
            let at = refused_byte(&tokens, bad);
            if starts_left_out(bad) {
                CalTextEnd::LeftOut { at }
            } else {
                CalTextEnd::Grammar { at }
            }
        }
        // It has tokens, so this is never met.
        Err(LexEnd::Fault { at }) => CalTextEnd::Token { at },
        Err(LexEnd::Memory) => CalTextEnd::Memory,
    }
}

/// The design that the tokens spell. They are let go before it is read, so that they don't take memory beside its terminals
/// and the design.
fn read_tokens(alloc: Global, tokens: Tokens<'_>) -> Result<CalDesign, CalTextEnd>
    requires dialect { tokens.dialect ≡ Cal }
    requires tokens { AreTokens Cal tokens.source tokens.tokens }
    ensures spelled { IfOk result (λ design. SpellsDesign tokens.entry.source (design_of design)) }
    ensures plain { IfOk result (λ design. HasPlainNames design.names) }
    ensures refused { IfErr result (GrammarEnds tokens.entry.source) }
{
    let source = tokens.source();
    let mut names = Names::keyed_by(alloc, source);
    let ts = terminals_of(alloc, &tokens, &mut names)?;
    tokens.release();
    match file_of(alloc, names, &ts) {
        Ok(design) => Ok(design),
        Err(ReadEnd::Memory) => Err(CalTextEnd::Memory),
        Err(ReadEnd::Refused(bad)) => Err(refusal(alloc, source, bad)),
    }
}

/// The design that a text spells, whatever numbers its names have. A text with so many causes against it is refused by the
/// first of them, in the order of `CalTextEnd`; `LeftOut` stands in the place of `Grammar`.
pub fn parse_calyx(alloc: Global, text: &[u8]) -> Result<CalDesign, CalTextEnd>
    // What is read is spelled so, and keeps the limit.
    ensures read { IfOk result (λ design. SpellsDesign text.now (design_of design) × KeepsNesting text.now) }
    ensures written { IfOk result (λ design. DesignIsWritten (design_of design)) }
    ensures numbers { IfOk result HasNumbers }
    ensures plain { IfOk result (λ design. HasPlainNames design.names) }

    // What is not read has this cause.
    ensures ends { IfErr result (EndsBy text.now) }
{
    let tokens = match lex(alloc, text, Dialect::Cal) {
        Ok(tokens) => tokens,
        Err(LexEnd::Fault { at }) => return Err(CalTextEnd::Token { at }),
        Err(LexEnd::Memory) => return Err(CalTextEnd::Memory),
    };
    let count = tokens.nesting();
    if count > MOST_NESTING {
        return Err(CalTextEnd::Nesting { count });
    }
    read_tokens(alloc, tokens)
}

/// A text spells at most one design.
pub fn one_calyx()
    ensures { (text : List ℕ) (a b : Design) → SpellsDesign text a → SpellsDesign text b → a ≡ b }
{}
