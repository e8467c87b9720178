//! What the command line asks for.

ghost use Rattle.std.specs.Prelude.{◌≡◌, [], IfErr, IfOk, IsOk, drop, map, option_map};
ghost use Rattle.clap.specs.Matches.{found_of};
ghost use Rattle.clap.specs.Simple.{subcommand_rows_of};
ghost use Rattle.clap.specs.Walk.{rows_of};
ghost use Rattle.clap.specs.Words.{fault_of};
ghost use Rattle.ts_cli.specs.declared.fault.CommandFault.TheVariants.{Memory};
ghost use Rattle.ts_cli.specs.CommandLine.{AskForLab, faults_in};
ghost use Rattle.ts_cli.specs.Says.{Asks, AsksFor, IsInRange};
ghost use Rattle.ts_cli.specs.Shapes as shapes;

use crate::command_shape::commands;
use crate::command_words::command_named;
use crate::fault::{CommandFault, WrongValue};
use crate::group::{Group, group_of};
use crate::program_shape::program;
use crate::program_task::task_named;
use crate::question_shape::questions;
use crate::question_words::question_named;
use crate::task::Task;
use clap::ArgMatches;
use std::alloc::Global;
use std::convert::AsStr;
use std::rt::Env;
use std::{env, io};

/// The task that the process's own words ask for.
pub fn task_of_process(rt: &(impl AllocGlobal + Env)) -> Result<Task, CommandFault>
    ensures ranges { IfOk result IsInRange }
{
    let words = match env::args(rt) {
        Ok(words) => words,
        Err(error) if error.kind() == io::ErrorKind::OutOfMemory => return Err(
            CommandFault::Memory,
        ),
        Err(_) => return Err(CommandFault::NotText),
    };
    let words: Vec<String> = words.collect(rt.alloc())?;
    task_of(rt.alloc(), words.as_slice())
}

/// The subcommand that was named, with what it was given.
fn subcommand_given<'m, 'a>(matches: &'m ArgMatches<'a>) -> Option<(&'a str, &'m ArgMatches<'a>)>
    ensures { option_map (λ p. (p.0.now, rows_of (found_of p.1.now))) result
        ≡ subcommand_rows_of matches.now }
{
    matches.subcommand()
}

/// The task that the program's own words ask for.
fn program_task<'a, S: AsStr>(alloc: Global, words: &'a [S]) -> Result<Task, CommandFault>
    ensures lab { AskForLab (map S.text words.entry.now) → IfErr result (λ fault. fault ≡ Memory) }
    ensures taken { IsOk result → fault_of shapes.program (map S.text words.entry.now) ≡ [] }
    ensures asked { IfOk result (Asks shapes.program (map S.text words.entry.now)) }
{
    let matches = program(alloc)?.try_get_matches_from(words)?;
    match subcommand_given(&matches) {
        Some((name, inner)) => task_named(alloc, name, inner),
        None => Err(CommandFault::Value(WrongValue::Missing)),
    }
}

/// The task that the words of `trustd command` ask for.
fn command_task<'a, S: AsStr>(alloc: Global, words: &'a [S]) -> Result<Task, CommandFault>
    ensures taken { IsOk result → fault_of shapes.commands (map S.text words.entry.now) ≡ [] }
    ensures asked { IfOk result (Asks shapes.commands (map S.text words.entry.now)) }
{
    let matches = commands(alloc)?.try_get_matches_from(words)?;
    match subcommand_given(&matches) {
        Some((name, inner)) => {
            let words = command_named(alloc, &matches, name, inner)?;
            Ok(Task::Command(words))
        }
        None => Err(CommandFault::Value(WrongValue::Missing)),
    }
}

/// The task that the words of `trustd question` ask for.
fn question_task<'a, S: AsStr>(alloc: Global, words: &'a [S]) -> Result<Task, CommandFault>
    ensures taken { IsOk result → fault_of shapes.questions (map S.text words.entry.now) ≡ [] }
    ensures asked { IfOk result (Asks shapes.questions (map S.text words.entry.now)) }
{
    let matches = questions(alloc)?.try_get_matches_from(words)?;
    match subcommand_given(&matches) {
        Some((name, inner)) => {
            let words = question_named(alloc, name, inner)?;
            Ok(Task::Question(words))
        }
        None => Err(CommandFault::Value(WrongValue::Missing)),
    }
}

/// The words after the first.
fn behind_first<S: AsStr>(words: &[S]) -> &[S]
    ensures { map S.text result.now ≡ drop 1 (map S.text words.now) }
{
    match words {
        [_, rest @ ..] => rest,
        [] => words,
    }
}

/// The task that these words ask for, by their group.
fn task_by_group<'a, S: AsStr>(alloc: Global, words: &'a [S]) -> Result<Task, CommandFault>
    ensures lab { AskForLab (map S.text words.entry.now) → IfErr result (λ fault. fault ≡ Memory) }
    ensures taken { IsOk result → faults_in (map S.text words.entry.now) ≡ [] }
    ensures asked { IfOk result (AsksFor (map S.text words.entry.now)) }
{
    match group_of(words) {
        Group::Program => program_task(alloc, words),
        Group::Command => command_task(alloc, behind_first(words)),
        Group::Question => question_task(alloc, behind_first(words)),
    }
}

/// The task that these words ask for; the first is the program's name.
///
/// # Errors
///
/// `Words` where the parser takes no such words, or where they ask for help. `Value` where it takes
/// them, and a value is none that the task may have. Out of memory.
pub fn task_of<'a, S: AsStr>(alloc: Global, words: &'a [S]) -> Result<Task, CommandFault>
    // Only out of memory keeps `trustd lab` from the lab.
    ensures lab { AskForLab (map S.text words.entry.now) → IfErr result (λ fault. fault ≡ Memory) }
    // A task comes only from words in which the parser has no fault to find.
    ensures taken { IsOk result → faults_in (map S.text words.entry.now) ≡ [] }
    // It is what the subcommand says that they name, with what they give it.
    ensures asked { IfOk result (AsksFor (map S.text words.entry.now)) }
    // Its numbers are in range.
    ensures ranges { IfOk result IsInRange }
{
    task_by_group(alloc, words)
}
