//! Full names by the numbers of texts.

/// The full name of a port, by the numbers of texts.
#[derive(Clone, Copy)]
pub enum FullName {
    /// A text alone.
    Own(usize),
    /// Two texts with a dot between them.
    Dotted { owner: usize, name: usize },
    /// None: what has none stands after all that have one.
    Nameless,
}
