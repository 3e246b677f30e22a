//! The languages of files.
ghost use Rattle.std.specs.Prelude.{◌≡◌, ◌≤◌, ◌^◌};
ghost use Rattle.filc_stop.specs.Language.{ending_of, letter_of, most_bytes, most_nesting};

use hw_limits::{MOST_CAL_BYTES, MOST_FIL_BYTES, MOST_NESTING, MOST_NET_BYTES, MOST_NET_NESTING};

/// The language of a file, which the end of its name tells.
#[derive(Clone, Copy, Debug, PartialEq, Eq)]
pub enum Language {
    /// Flat netlists.
    Netlists,
    /// Filament (PLDI 2023).
    Filament,
    /// Calyx (ASPLOS 2021).
    Calyx,
}

impl Language {
    /// How the names of its files end.
    pub fn ending(self) -> &'static str
        ensures { result.now ≡ ending_of self }
    {
        match self {
            Language::Netlists => ".net",
            Language::Filament => ".fil",
            Language::Calyx => ".futil",
        }
    }

    /// The most bytes of a text.
    pub fn most_bytes(self) -> u64
        ensures limit { result ≡ most_bytes self }
        ensures few { result ≤ 2 ^ 32 }
    {
        match self {
            Language::Netlists => MOST_NET_BYTES,
            Language::Filament => MOST_FIL_BYTES,
            Language::Calyx => MOST_CAL_BYTES,
        }
    }

    /// How deep brackets may stand in one another.
    pub fn most_nesting(self) -> u64
        ensures { result ≡ most_nesting self }
    {
        match self {
            Language::Netlists => MOST_NET_NESTING,
            Language::Filament => MOST_NESTING as u64,
            Language::Calyx => MOST_NESTING as u64,
        }
    }

    /// What stands before the number of a rule.
    pub fn letter(&self) -> &str
        ensures { result.now ≡ letter_of self.now }
    {
        match self {
            Language::Netlists => "N",
            Language::Filament => "F",
            Language::Calyx => "C",
        }
    }
}
