//! The Filament design of a file.
ghost use Rattle.std.specs.Prelude.{List, ℕ, IfOk, IfErr, OnOk, IsErrOf, IsSome};
ghost use Rattle.hw_io.specs.Reading.{KeepsFiles, IsReadFault};
ghost use Rattle.fil_ast.specs.Limits.{HasSmallOffsets};
ghost use Rattle.hw_names.specs.Name.{text_of};
ghost use Rattle.fil_ast.specs.Numbers.{HasNumbers, IsNumberOf};
ghost use Rattle.fil_ast.specs.Refusal.{IsRefusal};
ghost use Rattle.fil_ast.specs.Rules.{FilRules};
ghost use Rattle.fil_ast.specs.Top.{IsTop};
ghost use Rattle.fil_ast.specs.Tree.{design_of};
ghost use Rattle.fil_check.specs.First.{TellsFirst};
ghost use Rattle.fil_check.specs.Least.{evidence_of};
ghost use Rattle.fil_parse.specs.Spelling.{EndsBy};
ghost use Rattle.fil_parse.specs.Written.{DesignIsWritten};
ghost use Rattle.filc_stop.specs.Stops.{IsOfSource};
ghost use Rattle.filc_load.specs.Built.{KnowsFile, IsDesignOf, IsFilBuiltFrom, IsFilReady, IsOverweightDesign, IsUnbuilt, IsUnfitDesign, IsUnread};
ghost use Rattle.filc_load.specs.FilFile.{IsLight};
ghost use Rattle.filc_load.specs.Source.{FileGivesFil};

use crate::source::read_source;
use crate::top::top_of;
use fil_ast::{FilDesign, FilOk};
use fil_check::{Evidence, FilEnd, check_fil, fil_weight};
use fil_parse::{FilTextEnd, parse_fil};
use filc_stop::{Language, Refusal, Stop};
use hw_bits::Memory;
use hw_io::Files;
use hw_limits::MOST_WEIGHT;
use hw_names::{NameId, Word};
use std::alloc::Global;

/// A design that keeps the rules, and the number of its top component.
#[derive(Drop)]
pub struct FilBuilt {
    pub design: FilDesign,
    pub top: usize,
}

/// The design of this file, which is accepted.
pub fn load<F: Files>(alloc: Global, file: &str, files: &mut F) -> Result<FilBuilt, Stop>
    ensures files { KeepsFiles F.names F.content F.faults file.now files.old files.new }
    ensures read { IsSome (F.content files.old file.now) → IfOk result (λ b. FileGivesFil (F.content files.old) file.now (design_of b.design)) }
    ensures ready { IfOk result IsFilReady }
    ensures unread { IsSome (F.content files.old file.now) → IfErr result (IsUnread (F.content files.old) Language.Filament file.now) }
    ensures known { KnowsFile (F.names files.old) file.now result }
    ensures read_fault { IsErrOf result Stop.ReadFault
        → IsReadFault (F.names files.old) file.now (F.faults files.old file.now) (F.faults files.new file.now) }
    ensures stops { IfErr result IsOfSource }
{
    let text = read_source(alloc, Language::Filament, file, files)?;
    build(alloc, &text)
}

/// The design that a text gives, as a file with it does.
pub fn build(alloc: Global, text: &[u8]) -> Result<FilBuilt, Stop>
    ensures built { IfOk result (IsFilBuiltFrom text.now) }
    ensures refused { IfErr result (IsUnbuilt Language.Filament text.now) }
{
    let design = read(alloc, text)?;
    let top = judge(alloc, &design)?;
    Ok(FilBuilt { design, top })
}

/// The design that a text spells, within the limits.
fn read(alloc: Global, text: &[u8]) -> Result<FilDesign, Stop>
    ensures read { IfOk result (IsDesignOf text.now) }
    ensures written { IfOk result (λ d. DesignIsWritten (design_of d)) }
    ensures refused { IfErr result (IsUnbuilt Language.Filament text.now) }
{
    match parse_fil(alloc, text) {
        Ok(design) => Ok(design),
        Err(end) => Err(stop_of(end)),
    }
}

/// Why a text of which reading ends so gives no design.
fn stop_of(end: FilTextEnd) -> Stop
    ensures { (text : List ℕ) → EndsBy text end → IsUnbuilt Language.Filament text result }
{
    match end {
        FilTextEnd::Token { at } => Stop::Refused(Refusal::HasNoTokens { at: at as u64 }),
        FilTextEnd::Nesting { count } => Stop::Refused(Refusal::NestsTooDeep {
            language: Language::Filament,
            depth: count as u64,
        }),
        FilTextEnd::Grammar { at } => Stop::Refused(Refusal::HasNoGrammar { at: at as u64 }),
        FilTextEnd::Offset { count } => Stop::Refused(Refusal::HasLargeOffset { offset: count }),
        FilTextEnd::Memory => Stop::Memory,
    }
}

/// Judges a design by the rules and by its weight, and answers the number of its top component.
fn judge(alloc: Global, design: &FilDesign) -> Result<usize, Stop>
    requires numbers { HasNumbers design.now }
    requires small { HasSmallOffsets design.now }
    requires written { DesignIsWritten (design_of design.now) }
    ensures kept { OnOk result (FilRules (design_of design.now)) }
    ensures light { OnOk result (IsLight (design_of design.now)) }
    ensures top { IfOk result (IsTop (design_of design.now)) }
    ensures refused { IfErr result (IsUnfitDesign design.now) }
{
    match check_fil(alloc, design) {
        Ok(ok) => weigh(alloc, &ok),
        Err(end) => Err(unfit(alloc, design, end)),
    }
}

/// Why a design of which judging ends so isn't accepted.
fn unfit(alloc: Global, design: &FilDesign, end: FilEnd) -> Stop
    requires written { DesignIsWritten (design_of design.now) }
    requires first { TellsFirst design.now end }
    ensures { IsUnfitDesign design.now result }
{
    match end {
        FilEnd::Refused {
            rule,
            comp,
            item,
            evidence,
        } => broken(alloc, design, rule, comp, item, evidence),
        FilEnd::Memory => Stop::Memory,
    }
}

/// The refusal of a design that breaks this rule first, at this item of this component.
fn broken(
    alloc: Global,
    design: &FilDesign,
    rule: u8,
    comp: NameId,
    item: u64,
    evidence: Evidence,
) -> Stop
    requires numbered { IsNumberOf design.now.names comp }
    requires first { IsRefusal (design_of design.now) (text_of design.now.names comp) item (evidence_of evidence) rule }
    ensures { IsUnfitDesign design.now result }
{
    match Word::make(alloc, design.names.text(comp)) {
        Ok(name) => Stop::Refused(Refusal::BreaksFilamentRule {
            rule,
            name,
            item,
            evidence,
        }),
        Err(Memory) => Stop::Memory,
    }
}

/// Judges what a run of a design costs, and answers the number of its top component.
fn weigh(alloc: Global, ok: &FilOk) -> Result<usize, Stop>
    requires { DesignIsWritten (design_of ok.now) }
    ensures light { OnOk result (IsLight (design_of ok.now)) }
    ensures top { IfOk result (IsTop (design_of ok.now)) }
    ensures refused { IfErr result (IsOverweightDesign ok.now) }
{
    let top = top_of(ok.design());
    let weight = fil_weight(alloc, ok, top)?;
    if weight > MOST_WEIGHT {
        return Err(Stop::Refused(Refusal::IsTooHeavy { weight }));
    }
    Ok(top)
}
