//! The shapes of what follows a command's word, and how arguments are read from words of each.
ghost use Rattle.std.specs.Prelude.{IsTrue, ◌↔◌, map, MatchOption};
ghost use Rattle.filc_core.specs.Shape.{AreOf, IsOfNone, Spells};
ghost use Rattle.filc_core.specs.Words.{IsFileIn};
ghost use Rattle.filc_core.specs.inside.Told.{arguments_told};

use crate::arguments::Arguments;
use crate::words::{count_of, is_stimulus_name, language_of};
use filc_stop::Language;

/// In which languages a command's design may be.
#[derive(Clone, Copy, Debug, PartialEq, Eq)]
pub(crate) enum Designs {
    /// In each.
    All,
    /// In those that netlists are made of.
    Sources,
    /// In this one.
    In(Language),
}

/// What follows a command's word.
#[derive(Clone, Copy, Debug, PartialEq, Eq)]
pub(crate) enum Shape {
    /// The file of a design.
    Design(Designs),
    /// The file of a design, and that of a stimulus for it.
    DesignAndStimulus(Designs),
    /// The file of a design, and a count.
    DesignAndCount(Designs),
    /// A count.
    Count,
}

impl Designs {
    /// Whether designs in this language are among them.
    fn has(self, language: Language) -> bool
        ensures { IsTrue result ↔ AreOf self language }
    {
        match self {
            Designs::All => true,
            Designs::Sources => language != Language::Netlists,
            Designs::In(one) => language == one,
        }
    }

    /// The language of the design's file of this name, if it is one of these.
    fn language(self, file: &str) -> Option<Language>
        ensures { MatchOption result (IsOfNone self file.now) (λ language. AreOf self language × IsFileIn language file.now) }
    {
        let language = language_of(file)?;
        if self.has(language) {
            Some(language)
        } else {
            None
        }
    }

    /// The arguments of a command with this word that is given the file of such a design.
    fn alone<'a>(self, command: &str, words: &[&'a str]) -> Option<Arguments<'a>>
        ensures { MatchOption result ((a : _) → Spells (map (λ w. w.now) words.now) command.now (Shape.Design self) a → ⊥)
            (λ a. Spells (map (λ w. w.now) words.now) command.now (Shape.Design self) (arguments_told a)) }
    {
        let [word, design] = words else {
            return None;
        };
        if *word != command {
            return None;
        }
        Some(Arguments {
            language: self.language(design)?,
            design,
            stimulus: "",
            count: 0,
        })
    }

    /// The same of one that is given a stimulus too.
    fn with_stimulus<'a>(self, command: &str, words: &[&'a str]) -> Option<Arguments<'a>>
        ensures { MatchOption result ((a : _) → Spells (map (λ w. w.now) words.now) command.now (Shape.DesignAndStimulus self) a → ⊥)
            (λ a. Spells (map (λ w. w.now) words.now) command.now (Shape.DesignAndStimulus self) (arguments_told a)) }
    {
        let [word, design, stimulus] = words else {
            return None;
        };
        if *word != command || !is_stimulus_name(stimulus) {
            return None;
        }
        Some(Arguments {
            language: self.language(design)?,
            design,
            stimulus,
            count: 0,
        })
    }

    /// The same of one that is given a count too.
    fn with_count<'a>(self, command: &str, words: &[&'a str]) -> Option<Arguments<'a>>
        ensures { MatchOption result ((a : _) → Spells (map (λ w. w.now) words.now) command.now (Shape.DesignAndCount self) a → ⊥)
            (λ a. Spells (map (λ w. w.now) words.now) command.now (Shape.DesignAndCount self) (arguments_told a)) }
    {
        let [word, design, count] = words else {
            return None;
        };
        if *word != command {
            return None;
        }
        Some(Arguments {
            language: self.language(design)?,
            design,
            stimulus: "",
            count: count_of(count)?,
        })
    }
}

/// The arguments of a command with this word that is given a count alone.
fn count_alone<'a>(command: &str, words: &[&'a str]) -> Option<Arguments<'a>>
    ensures { MatchOption result ((a : _) → Spells (map (λ w. w.now) words.now) command.now Shape.Count a → ⊥)
        (λ a. Spells (map (λ w. w.now) words.now) command.now Shape.Count (arguments_told a)) }
{
    let [word, count] = words else {
        return None;
    };
    if *word != command {
        return None;
    }
    Some(Arguments {
        language: Language::Netlists,
        design: "",
        stimulus: "",
        count: count_of(count)?,
    })
}

impl Shape {
    /// The arguments of a command with this word, if the words are its word and arguments of this shape.
    pub(crate) fn arguments<'a>(self, command: &str, words: &[&'a str]) -> Option<Arguments<'a>>
        ensures { MatchOption result ((a : _) → Spells (map (λ w. w.now) words.now) command.now self a → ⊥)
            (λ a. Spells (map (λ w. w.now) words.now) command.now self (arguments_told a)) }
    {
        match self {
            Shape::Design(designs) => designs.alone(command, words),
            Shape::DesignAndStimulus(designs) => designs.with_stimulus(command, words),
            Shape::DesignAndCount(designs) => designs.with_count(command, words),
            Shape::Count => count_alone(command, words),
        }
    }
}
