//! The tasks that print what a node's store holds.

ghost use Rattle.std.specs.Prelude.{IfOk, codes};
ghost use Rattle.clap.specs.Matches.{found_of};
ghost use Rattle.clap.specs.Walk.{rows_of};
ghost use Rattle.ts_cli.specs.Says.{SaysTask};

use crate::fault::{CommandFault, WrongValue};
use crate::matched::{is_set, number_at, number_or};
use crate::question_words::position_at;
use crate::reach::reach_at;
use crate::task::Task;
use clap::ArgMatches;
use std::alloc::Global;
use ts_question::MAX_POSITION;

/// What a store holds.
pub(crate) fn store(alloc: Global, matches: &ArgMatches<'_>) -> Result<Task, CommandFault>
    ensures { IfOk result (SaysTask (codes "store") (rows_of (found_of matches.now))) }
{
    Ok(Task::Store {
        reach: reach_at(alloc, matches)?,
        k: position_at(matches)?,
        json: is_set(matches, "json"),
    })
}

/// The commands that a store took.
pub(crate) fn log(alloc: Global, matches: &ArgMatches<'_>) -> Result<Task, CommandFault>
    ensures { IfOk result (SaysTask (codes "log") (rows_of (found_of matches.now))) }
{
    Ok(Task::Log {
        reach: reach_at(alloc, matches)?,
        from: number_or(matches, "from", 1, MAX_POSITION, 1, WrongValue::From)?,
        k: position_at(matches)?,
        json: is_set(matches, "json"),
    })
}

/// What changed in a store.
pub(crate) fn diff(alloc: Global, matches: &ArgMatches<'_>) -> Result<Task, CommandFault>
    ensures { IfOk result (SaysTask (codes "diff") (rows_of (found_of matches.now))) }
{
    Ok(Task::Diff {
        reach: reach_at(alloc, matches)?,
        old: number_at(matches, "old", 0, MAX_POSITION, WrongValue::Positions)?,
        new: number_at(matches, "new", 0, MAX_POSITION, WrongValue::Positions)?,
    })
}
