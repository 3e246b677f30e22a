//! From a text to its design.
ghost use Rattle.std.specs.Prelude.{◌≡◌, ℕ, List, IfOk, IfErr};
ghost use Rattle.hw_grammar.specs.Reading.{Gives, whole};
ghost use Rattle.hw_lex.specs.declared.token.Dialect.TheVariants.{Filp};
ghost use Rattle.hw_lex.specs.Cut.{AreTokens};
ghost use Rattle.hw_names.specs.Name.{Text};
ghost use Rattle.par_parse.specs.Numbers.{HasNumbers};
ghost use Rattle.par_parse.specs.Spelling.{SpellsDesign, KeepsNesting, GrammarEnds, EndsBy};
ghost use Rattle.par_parse.specs.Tree.{DesignTree, design_of};
ghost use Rattle.par_parse.specs.Written.{DesignIsWritten};
ghost use Rattle.par_parse.specs.inside.Reading.{file_at};
ghost use Rattle.par_parse.specs.inside.Refusal.{IsRefusedFrom};

use crate::component::whole_file;
use crate::tree::ParamDesign;
use hw_bits::Memory;
use hw_grammar::{ReadEnd, Terminal, refused_byte, terminals_of};
use hw_lex::{Dialect, LexEnd, Tokens, lex};
use hw_limits::MOST_NESTING;
use hw_names::Names;
use std::alloc::Global;

/// Why a text gives no design.
#[derive(Clone, Copy, Debug, PartialEq, Eq)]
pub enum FilpTextEnd {
    /// At this byte no token, blank or comment starts, and at none before it.
    Token { at: usize },
    /// Brackets stand so deep in one another.
    Nesting { count: usize },
    /// At this byte the text is refused by the grammar.
    Grammar { at: usize },
    /// There was no memory.
    Memory,
}

impl From<Memory> for FilpTextEnd {
    ghost use Rattle.std.specs.Prelude.{◌≡◌};
    ghost use Rattle.par_parse.specs.declared.parse.FilpTextEnd.TheVariants as FilpTextEnd;

    ghost from_gives = { λ _ end. end ≡ FilpTextEnd.Memory };

    fn from(_memory: Memory) -> Self {
        FilpTextEnd::Memory
    }
}

/// The design of terminals with these names.
fn file_of<'a>(alloc: Global, names: Names, ts: &'a [Terminal]) -> Result<ParamDesign, ReadEnd<'a>>
    ghost known: { List Text }
    requires { names ≡ known }
    ensures { Gives design_of result (whole (file_at known ts.now)) }
{
    let comps = whole_file(alloc, ts)?;
    Ok(ParamDesign { names, comps })
}

/// Where the grammar refuses a text, whose terminals from the refused one on are `bad`. Its tokens, which have the places of
/// terminals, were let go, so it is cut once more.
fn refusal(alloc: Global, source: &[u8], bad: &[Terminal]) -> FilpTextEnd
    requires { IsRefusedFrom source.now bad.now }
    ensures { GrammarEnds source.now result }
{
    match lex(alloc, source, Dialect::Filp) {
        Ok(tokens) => FilpTextEnd::Grammar {
            at: refused_byte(&tokens, bad),
        },
        // It has tokens, so this is never met.
        Err(LexEnd::Fault { at }) => FilpTextEnd::Token { at },
        Err(LexEnd::Memory) => FilpTextEnd::Memory,
    }
}

/// The design that the tokens spell. They are let go before it is read, so that they don't take memory beside its terminals
/// and the design.
fn read_tokens(alloc: Global, tokens: Tokens<'_>) -> Result<ParamDesign, FilpTextEnd>
    requires dialect { tokens.dialect ≡ Filp }
    requires tokens { AreTokens Filp tokens.source tokens.tokens }
    ensures spelled { IfOk result (λ design. SpellsDesign tokens.entry.source (design_of design)) }
    ensures refused { IfErr result (GrammarEnds tokens.entry.source) }
{
    let source = tokens.source();
    let mut names = Names::keyed_by(alloc, source);
    let ts = terminals_of(alloc, &tokens, &mut names)?;
    tokens.release();
    match file_of(alloc, names, &ts) {
        Ok(design) => Ok(design),
        Err(ReadEnd::Memory) => Err(FilpTextEnd::Memory),
        Err(ReadEnd::Refused(bad)) => Err(refusal(alloc, source, bad)),
    }
}

/// The design that a text spells, whatever numbers its names have. A text with so many causes against it is refused by the
/// first of them, in the order of `FilpTextEnd`.
pub fn parse_filp(alloc: Global, text: &[u8]) -> Result<ParamDesign, FilpTextEnd>
    // What is read is spelled so, and keeps the limit.
    ensures spelled { IfOk result (λ design. SpellsDesign text.now (design_of design)) }
    ensures nested { IfOk result (λ design. KeepsNesting text.now) }
    ensures written { IfOk result (λ design. DesignIsWritten (design_of design)) }
    ensures numbers { IfOk result HasNumbers }

    // What is not read has this cause.
    ensures refused { IfErr result (EndsBy text.now) }
{
    let tokens = match lex(alloc, text, Dialect::Filp) {
        Ok(tokens) => tokens,
        Err(LexEnd::Fault { at }) => return Err(FilpTextEnd::Token { at }),
        Err(LexEnd::Memory) => return Err(FilpTextEnd::Memory),
    };
    let count = tokens.nesting();
    if count > MOST_NESTING {
        return Err(FilpTextEnd::Nesting { count });
    }
    read_tokens(alloc, tokens)
}

/// A text spells at most one design.
pub fn one_filp()
    ensures { (text : List ℕ) (a b : DesignTree) → SpellsDesign text a → SpellsDesign text b → a ≡ b }
{}
