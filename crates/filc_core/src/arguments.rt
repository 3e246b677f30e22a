//! What the words of the command line give a command.
use filc_stop::Language;

/// What a command is given. What it isn't asked for is empty: a name without bytes, 0, and of the languages the netlists'.
#[derive(Clone, Copy, Debug, PartialEq, Eq)]
pub(crate) struct Arguments<'a> {
    /// The language of its design's file.
    pub(crate) language: Language,
    /// The name of that file.
    pub(crate) design: &'a str,
    /// The name of its stimulus's file.
    pub(crate) stimulus: &'a str,
    /// A number of cycles, or of transactions.
    pub(crate) count: u64,
}
