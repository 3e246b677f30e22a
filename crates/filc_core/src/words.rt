//! The words of the command line: names of files, counts.
ghost use Rattle.std.specs.Prelude.{IsTrue, ◌↔◌, MatchOption};
ghost use Rattle.filc_core.specs.Words.{IsFileName, IsFileIn, IsStimulusName, IsNoFileName, IsCount, IsNoCount, HasSignOrZero};

use filc_stop::Language;

/// Whether the word is the name of a file in this language.
pub(crate) fn is_file_in(language: Language, word: &str) -> bool
    ensures { IsTrue result ↔ IsFileIn language word.now }
{
    is_file_name(word, language.ending())
}

/// Whether the word names a stimulus: it is not empty, and no option.
pub(crate) fn is_stimulus_name(word: &str) -> bool
    ensures { IsTrue result ↔ IsStimulusName word.now }
{
    !word.is_empty() && !word.starts_with('-')
}

/// The language whose files have names like this word.
pub(crate) fn language_of(word: &str) -> Option<Language>
    ensures { MatchOption result (IsNoFileName word.now) (λ language. IsFileIn language word.now) }
{
    if is_file_in(Language::Netlists, word) {
        Some(Language::Netlists)
    } else if is_file_in(Language::Filament, word) {
        Some(Language::Filament)
    } else if is_file_in(Language::Calyx, word) {
        Some(Language::Calyx)
    } else {
        None
    }
}

/// Whether the word is a file's name with this ending: there is a byte before it, and the word is no option.
fn is_file_name(word: &str, ending: &str) -> bool
    ensures { IsTrue result ↔ IsFileName ending.now word.now }
{
    match word.strip_suffix(ending) {
        Some(stem) => !stem.is_empty() && !word.starts_with('-'),
        None => false,
    }
}

/// Whether the word begins with a plus, or with a zero that isn't all of it: `parse` would let these pass.
fn has_sign_or_zero(word: &str) -> bool
    ensures { IsTrue result ↔ HasSignOrZero word.now }
{
    word.starts_with('+') || (word.starts_with('0') && word.len() > 1)
}

/// The count that the word spells in decimal digits without a leading zero.
#[tactic(auto, using(crate::proofs::WordLemmas::parsed_count, crate::proofs::WordLemmas::no_count))]
pub(crate) fn count_of(word: &str) -> Option<u64>
    ensures { MatchOption result (IsNoCount word.now) (IsCount word.now) }
{
    if has_sign_or_zero(word) {
        return None;
    }
    word.parse().ok()
}
