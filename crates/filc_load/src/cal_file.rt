//! The Calyx design of a file.
ghost use Rattle.std.specs.Prelude.{◌≡◌, IfOk, IfErr, OnOk, IsErrOf, IsSome, map, option_map};
ghost use Rattle.hw_io.specs.Reading.{KeepsFiles, IsReadFault};
ghost use Rattle.cal_ast.specs.Numbers.{HasNumbers};
ghost use Rattle.cal_ast.specs.Rules.{CalRules};
ghost use Rattle.cal_ast.specs.Tree.{design_of};
ghost use Rattle.cal_check.specs.Refusals.{TellsRefusal};
ghost use Rattle.cal_parse.specs.Spelling.{EndsBy};
ghost use Rattle.cal_parse.specs.declared.parse.CalTextEnd.{CalTextEnd};
ghost use Rattle.cal_ast.specs.Written.{DesignIsWritten};
ghost use Rattle.filc_stop.specs.Stops.{IsOfSource};
ghost use Rattle.filc_load.specs.Built.{KnowsFile, IsCalDesignOf, IsCalBuiltFrom, IsCalReady, IsOverweightCal, IsUnbuilt, IsUnfitCal, IsUnread};
ghost use Rattle.filc_load.specs.CalFile.{HasFewWords, IsLight, LeavesOutAt, first_word};
ghost use Rattle.filc_load.specs.Source.{FileGivesCal};

use crate::source::read_source;
use cal_ast::{CalDesign, CalOk};
use cal_check::{CalEnd, cal_weight, cal_words, check_calyx};
use cal_parse::{CalTextEnd, parse_calyx};
use filc_stop::{Language, Refusal, Stop};
use hw_bits::Memory;
use hw_io::Files;
use hw_limits::{MOST_WEIGHT, MOST_WORDS};
use hw_names::Word;
use std::alloc::Global;

/// A design that keeps the rules.
#[derive(Drop)]
pub struct CalBuilt {
    pub design: CalDesign,
}

/// The words of Calyx that this profile leaves out.
const LEFT_OUT: [&str; 6] = ["static", "ref", "repeat", "primitive", "extern", "metadata"];

/// The design of this file, which is accepted.
pub fn load<F: Files>(alloc: Global, file: &str, files: &mut F) -> Result<CalBuilt, Stop>
    ensures files { KeepsFiles F.names F.content F.faults file.now files.old files.new }
    ensures read { IsSome (F.content files.old file.now) → IfOk result (λ b. FileGivesCal (F.content files.old) file.now (design_of b.design)) }
    ensures ready { IfOk result IsCalReady }
    ensures unread { IsSome (F.content files.old file.now) → IfErr result (IsUnread (F.content files.old) Language.Calyx file.now) }
    ensures known { KnowsFile (F.names files.old) file.now result }
    ensures read_fault { IsErrOf result Stop.ReadFault
        → IsReadFault (F.names files.old) file.now (F.faults files.old file.now) (F.faults files.new file.now) }
    ensures stops { IfErr result IsOfSource }
{
    let text = read_source(alloc, Language::Calyx, file, files)?;
    build(alloc, &text)
}

/// The design that a text gives.
fn build(alloc: Global, text: &[u8]) -> Result<CalBuilt, Stop>
    ensures built { IfOk result (IsCalBuiltFrom text.now) }
    ensures refused { IfErr result (IsUnbuilt Language.Calyx text.now) }
{
    let design = read(alloc, text)?;
    judge(alloc, &design)?;
    Ok(CalBuilt { design })
}

/// The design that a text spells, within the limits.
fn read(alloc: Global, text: &[u8]) -> Result<CalDesign, Stop>
    ensures read { IfOk result (IsCalDesignOf text.now) }
    ensures written { IfOk result (λ d. DesignIsWritten (design_of d)) }
    ensures refused { IfErr result (IsUnbuilt Language.Calyx text.now) }
{
    match parse_calyx(alloc, text) {
        Ok(design) => Ok(design),
        Err(end) => Err(stop_of(alloc, text, end)),
    }
}

/// Why a text of which reading ends so gives no design.
fn stop_of(alloc: Global, text: &[u8], end: CalTextEnd) -> Stop
    requires { EndsBy text.now end }
    ensures { IsUnbuilt Language.Calyx text.now result }
{
    match end {
        CalTextEnd::Token { at } => Stop::Refused(Refusal::HasNoTokens { at: at as u64 }),
        CalTextEnd::Nesting { count } => Stop::Refused(Refusal::NestsTooDeep {
            language: Language::Calyx,
            depth: count as u64,
        }),
        CalTextEnd::Grammar { at } => Stop::Refused(Refusal::HasNoGrammar { at: at as u64 }),
        CalTextEnd::LeftOut { at } => left_out(alloc, text, at),
        CalTextEnd::Memory => Stop::Memory,
    }
}

/// The refusal of a text with a word at this byte that is left out.
fn left_out(alloc: Global, text: &[u8], at: usize) -> Stop
    requires { EndsBy text.now (CalTextEnd.LeftOut at) }
    ensures { IsUnbuilt Language.Calyx text.now result }
{
    match Word::make(alloc, left_out_word(text, at).as_bytes()) {
        Ok(word) => Stop::Refused(Refusal::LeavesOut {
            word,
            at: at as u64,
        }),
        Err(Memory) => Stop::Memory,
    }
}

/// The word at this byte that is left out.
fn left_out_word(text: &[u8], at: usize) -> &'static str
    requires { EndsBy text.now (CalTextEnd.LeftOut at) }
    ensures { LeavesOutAt text.now at result.now }
{
    match first_word(&LEFT_OUT, &text[at..]) {
        Some(word) => word,
        None => unreachable!(),
    }
}

/// The first of these words that stands at the front of a text.
fn first_word(words: &[&'static str], text: &[u8]) -> Option<&'static str>
    ensures { option_map (λ word. word.now) result ≡ first_word (map (λ word. word.now) words.now) text.now }
{
    let mut rest = words;
    while let [word, others @ ..] = rest {
        if text.starts_with(word.as_bytes()) {
            return Some(*word);
        }
        rest = others;
    }
    None
}

/// Judges a design by the rules, and by what a run of it costs.
fn judge(alloc: Global, design: &CalDesign) -> Result<(), Stop>
    requires numbers { HasNumbers design.now }
    requires written { DesignIsWritten (design_of design.now) }
    ensures kept { OnOk result (CalRules (design_of design.now)) }
    ensures light { OnOk result (IsLight (design_of design.now)) }
    ensures few_words { OnOk result (HasFewWords (design_of design.now)) }
    ensures refused { IfErr result (IsUnfitCal design.now) }
{
    match check_calyx(alloc, design) {
        Ok(ok) => weigh(alloc, &ok),
        Err(end) => Err(unfit(alloc, design, end)),
    }
}

/// Why a design of which judging ends so isn't accepted.
fn unfit(alloc: Global, design: &CalDesign, end: CalEnd) -> Stop
    requires written { DesignIsWritten (design_of design.now) }
    requires first { TellsRefusal design.now end }
    ensures { IsUnfitCal design.now result }
{
    match end {
        CalEnd::Refused {
            rule,
            comp,
            item,
            ports,
        } => match Word::make(alloc, design.names.text(comp)) {
            Ok(name) => Stop::Refused(Refusal::BreaksRule {
                language: Language::Calyx,
                rule,
                name,
                item,
                ports,
            }),
            Err(Memory) => Stop::Memory,
        },
        CalEnd::Memory => Stop::Memory,
    }
}

/// Judges what a run of a design costs.
fn weigh(alloc: Global, ok: &CalOk) -> Result<(), Stop>
    ensures light { OnOk result (IsLight (design_of ok.now)) }
    ensures few_words { OnOk result (HasFewWords (design_of ok.now)) }
    ensures refused { IfErr result (IsOverweightCal ok.now) }
{
    let weight = cal_weight(alloc, ok)?;
    if weight > MOST_WEIGHT {
        return Err(Stop::Refused(Refusal::IsTooHeavy { weight }));
    }
    let words = cal_words(alloc, ok)?;
    if words > MOST_WORDS {
        return Err(Stop::Refused(Refusal::HasTooManyWords { words }));
    }
    Ok(())
}
