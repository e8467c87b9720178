//! The three command lines.

ghost use Rattle.std.specs.Prelude.{◌≡◌, map};
ghost use Rattle.ts_cli.specs.CommandLine.{group_named, group_of};

use std::convert::AsStr;

/// Whose words a command line has.
#[derive(Clone, Copy, Debug, PartialEq, Eq)]
pub(crate) enum Group {
    /// The program's own.
    Program,
    /// Those of `trustd command`.
    Command,
    /// Those of `trustd question`.
    Question,
}

/// The group that a second word names.
fn group_named(word: &str) -> Group
    ensures { result ≡ group_named word.now }
{
    if word == "command" {
        Group::Command
    } else if word == "question" {
        Group::Question
    } else {
        Group::Program
    }
}

/// Whose words these are.
pub(crate) fn group_of<S: AsStr>(words: &[S]) -> Group
    ensures { result ≡ group_of (map S.text words.now) }
{
    match words {
        [_, word, ..] => group_named(word.as_str()),
        _ => Group::Program,
    }
}
