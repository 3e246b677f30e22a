//! Why what is asked for is refused, and the line that says so.
ghost use Rattle.std.specs.Prelude.{◌≡◌, ◌≤◌, OnOk, OnErr};
ghost use Rattle.std.specs.Io.KnownBytes.{Appends};
ghost use Rattle.hw_io.specs.Faults.{Rose};
ghost use Rattle.hw_io.specs.Writing.{AppendsPrefix};
ghost use Rattle.filc_stop.specs.Lines.{as_line, counted_name};
ghost use Rattle.filc_stop.specs.Stops.{answer_of, refusal_line};

use crate::ended::Ended;
use crate::language::Language;
use crate::line::{
    write_conflict, write_filament_rule, write_grammar, write_left_out, write_limit, write_rule,
    write_stimulus, write_token,
};
use fil_check::Evidence;
use hw_io::{Failed, Sink};
use hw_limits::{MOST_CYCLES, MOST_OFFSET, MOST_STIMULUS_BYTES, MOST_WEIGHT, MOST_WORDS};
use hw_names::Word;

/// Why what is asked for is refused, or its run ends early.
#[derive(Debug, Drop)]
pub enum Refusal {
    /// The file has more bytes than the limit of its language.
    SourceTooLong {
        language: Language,
    },
    /// No token of the language starts at this byte.
    HasNoTokens {
        at: u64,
    },
    /// Brackets and negations nest so deep, which is over the limit of the language.
    NestsTooDeep {
        language: Language,
        depth: u64,
    },
    /// The text has not the grammar of its language; the place is a byte.
    HasNoGrammar {
        at: u64,
    },
    /// The text has not the grammar of its language, since at this byte a word stands that the language has and this profile
    /// leaves out.
    LeavesOut {
        word: Word,
        at: u64,
    },
    /// This is the first offset or delay that is over the limit.
    HasLargeOffset {
        offset: u128,
    },
    /// The netlist or the Calyx component of this name breaks this rule of its language at this item, and none is broken
    /// before. The ports are those of a loop, from the least on, where the rule is that there is none.
    BreaksRule {
        language: Language,
        rule: u8,
        name: Word,
        item: u64,
        ports: Vec<Word>,
    },
    /// The Filament component of this name breaks this rule of Filament at this item, and none is broken before.
    BreaksFilamentRule {
        rule: u8,
        name: Word,
        item: u64,
        evidence: Evidence,
    },
    /// The weight is over the limit.
    IsTooHeavy {
        weight: u64,
    },
    /// All memories together have more words than the limit.
    HasTooManyWords {
        words: u64,
    },
    /// More cycles are asked for than the limit.
    TooManyCycles {
        cycles: u64,
    },
    /// The stimulus has more bytes than the limit.
    StimulusTooLong,
    /// The stimulus breaks this rule S1 to S7 in this entry, and none before; for S5 the two starts and the delay
    /// between them are told.
    BreaksStimulusRule {
        rule: u8,
        entry: u64,
        first: u64,
        second: u64,
        delay: u64,
    },
    /// The stimulus has more transactions, or more cycles where `cycles` says so, than the limit.
    StimulusTooLarge {
        count: u64,
        limit: u64,
        cycles: bool,
    },
    /// Two assignments or more drive the port in this cycle.
    Conflict {
        cycle: u64,
        port: Word,
    },
}

impl Refusal {
    /// The answer that it is.
    pub(crate) fn answer(&self) -> Ended
        ensures { result ≡ answer_of self.now }
    {
        match self {
            Refusal::HasNoTokens { .. }
            | Refusal::HasNoGrammar { .. }
            | Refusal::LeavesOut { .. }
            | Refusal::BreaksRule { .. }
            | Refusal::BreaksFilamentRule { .. } => Ended::Refused,
            Refusal::BreaksStimulusRule { .. } => Ended::Stimulus,
            Refusal::Conflict { .. } => Ended::Conflict,
            _ => Ended::Limit,
        }
    }

    /// Writes its line.
    pub(crate) fn write_line<E: Sink>(&self, err: &mut E) -> Result<(), Failed>
        ensures appended { OnOk result (Appends (E.written err.old) (E.written err.new) (as_line (refusal_line self.now))) }
        ensures prefix { OnErr result (AppendsPrefix (E.written err.old) (E.written err.new) (as_line (refusal_line self.now))) }
        ensures failed { OnErr result (Rose (E.faults err.old) (E.faults err.new)) }
        ensures never_falls { E.faults err.old ≤ E.faults err.new }
    {
        match self {
            Refusal::SourceTooLong { language } => {
                let most = language.most_bytes() as u128;
                write_limit(err, "source", most + 1, most)
            }
            Refusal::HasNoTokens { at } => write_token(err, *at),
            Refusal::NestsTooDeep { language, depth } => {
                let most = language.most_nesting() as u128;
                write_limit(err, "nesting", *depth as u128, most)
            }
            Refusal::HasNoGrammar { at } => write_grammar(err, *at),
            Refusal::LeavesOut { word, at } => write_left_out(err, word.bytes(), *at),
            Refusal::HasLargeOffset { offset } => {
                write_limit(err, "offset", *offset, MOST_OFFSET)
            }
            Refusal::BreaksRule {
                language,
                rule,
                name,
                item,
                ports,
            } => write_rule(err, *language, *rule, name.bytes(), *item, ports),
            Refusal::BreaksFilamentRule {
                rule,
                name,
                item,
                evidence,
            } => write_filament_rule(err, *rule, name.bytes(), *item, evidence),
            Refusal::IsTooHeavy { weight } => {
                write_limit(err, "weight", *weight as u128, MOST_WEIGHT as u128)
            }
            Refusal::HasTooManyWords { words } => {
                write_limit(err, "words", *words as u128, MOST_WORDS as u128)
            }
            Refusal::TooManyCycles { cycles } => {
                write_limit(err, "cycles", *cycles as u128, MOST_CYCLES as u128)
            }
            Refusal::StimulusTooLong => {
                let most = MOST_STIMULUS_BYTES as u128;
                write_limit(err, "stimulus", most + 1, most)
            }
            Refusal::BreaksStimulusRule {
                rule,
                entry,
                first,
                second,
                delay,
            } => write_stimulus(err, *rule, *entry, *first, *second, *delay),
            Refusal::StimulusTooLarge {
                count,
                limit,
                cycles,
            } => write_limit(err, counted(*cycles), *count as u128, *limit as u128),
            Refusal::Conflict { cycle, port } => write_conflict(err, *cycle, port.bytes()),
        }
    }
}

/// What a stimulus has too much of: cycles, or transactions.
fn counted(cycles: bool) -> &'static str
    ensures { result.now ≡ counted_name cycles }
{
    if cycles { "cycles" } else { "transactions" }
}
