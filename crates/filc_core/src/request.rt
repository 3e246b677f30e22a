//! What the words of the command line ask for.
ghost use Rattle.std.specs.Prelude.{map, MatchOption};
ghost use Rattle.filc_core.specs.Request.{AskNothing, Asks};
ghost use Rattle.filc_core.specs.inside.Told.{AskNoneOf, request_told};

use crate::arguments::Arguments;
use crate::name::{COMMANDS, CommandName};

/// A command, and what it is given.
#[derive(Clone, Copy, Debug, PartialEq, Eq)]
pub(crate) struct Request<'a> {
    pub(crate) command: CommandName,
    pub(crate) arguments: Arguments<'a>,
}

/// What the words after the program's name ask for; `None` where they aren't well formed.
pub(crate) fn asked<'a>(words: &[&'a str]) -> Option<Request<'a>>
    ensures { MatchOption result (AskNothing (map (λ w. w.now) words.now)) (λ request. Asks (map (λ w. w.now) words.now) (request_told request)) }
{
    first_asked(COMMANDS, words)
}

/// The first of these commands that the words ask for.
fn first_asked<'a>(commands: &[CommandName], words: &[&'a str]) -> Option<Request<'a>>
    ensures { MatchOption result (AskNoneOf commands.now (map (λ w. w.now) words.now)) (λ request. Asks (map (λ w. w.now) words.now) (request_told request)) }
{
    for command in commands {
        let (word, shape) = command.key();
        if let Some(arguments) = shape.arguments(word, words) {
            return Some(Request {
                command: *command,
                arguments,
            });
        }
    }
    None
}
