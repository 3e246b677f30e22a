//! The reader of texts of Filament with parameters.
//!
//! In: the bytes of a text. Out: the design that it spells, with expressions where Filament has numbers, or the first cause
//! against it (`FilpTextEnd`): a byte at which no token starts, brackets that nest deeper than `MOST_NESTING`, or the byte that the
//! grammar refuses.
//!
//!     comp A[w]<G: 1>() -> () {}                      a component with a parameter
//!     v#i := new Delay[w]<G+i>(v#(i-1).out);          an instance and its invocation, the names of which have an index
//!     for i in 1..n { .. }                            its body is read once, whatever `n` is
//!     comp A[]<G: 1>() -> () {}                       Grammar { at: 7 }: there a name is wanted
//!
//! Nothing is worked out here: the tree has each expression as it is written, and names that nothing gives a value are read as
//! any others.
//!
//! How it goes: `hw_lex` cuts the text into tokens, `hw_grammar` makes terminals of them. `expression`, `name`, `time`, `value`,
//! `statement`, `block`, `port`, `event` and `component` each read one part of the grammar; only parentheses in `expression` and
//! blocks in `block` make the reading recur, so the limit on nesting bounds its depth. `tree` has the types of what is read.
//!
//! What the layer above uses: `parse_filp` is `Ok` only with the design that the text spells by the written grammar
//! (`SpellsDesign`), which has numbers for its names; else the end is the cause, and each cause says that those before it are not
//! met (`EndsBy`). The law `one_filp` says that a text spells at most one design.
#![tactic(auto)]

mod block;
mod component;
mod event;
mod expression;
mod name;
mod parse;
mod port;
mod statement;
mod time;
mod tree;
mod value;

pub use parse::{FilpTextEnd, one_filp, parse_filp};
pub use tree::{
    Expression, ParamComponent, ParamDesign, ParamEvent, ParamGo, ParamName, ParamPort,
    ParamStatement, ParamTime, ParamValue,
};
