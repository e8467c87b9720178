//! The tasks of the program's own words.

ghost use Rattle.std.specs.Prelude.{◌≡◌, Ok, IfOk, codes};
ghost use Rattle.clap.specs.Matches.{found_of};
ghost use Rattle.clap.specs.Walk.{rows_of};
ghost use Rattle.ts_cli.specs.Says.{SaysTask};
ghost use Rattle.ts_cli.specs.declared.task.Task.TheVariants.{Lab};

use crate::fault::{CommandFault, WrongValue};
use crate::listing_task::{diff, log, store};
use crate::matched::{are_addresses, is_set, number_at, number_or, string_at, strings_at};
use crate::reach::{reach_at, role_at};
use crate::serve_words::serve_words;
use crate::sync_words::sync_words;
use crate::task::Task;
use crate::verify_words::verify_words;
use clap::ArgMatches;
use std::alloc::Global;

/// The most rounds of carrying.
const MANY: u32 = 1_000_000;

/// The most nodes, which is the most addresses.
const MAX_NODES: usize = 9;

/// The task that `trustd format` asks for, where the number of nodes is 1 to 9 and the node is one
/// of them.
fn format(alloc: Global, matches: &ArgMatches<'_>) -> Result<Task, CommandFault>
    ensures { IfOk result (SaysTask (codes "format") (rows_of (found_of matches.now))) }
{
    let nodes = number_at(matches, "nodes", 1, 9, WrongValue::Nodes)?;
    let id = number_at(matches, "id", 1, nodes, WrongValue::Node)?;
    Ok(Task::Format {
        file: string_at(alloc, matches, "file")?,
        id: id as u8,
        nodes: nodes as u8,
        group: number_or(matches, "group", 1, u32::MAX, 0, WrongValue::Group)?,
    })
}

/// The task that `trustd migrate` asks for.
fn migrate(alloc: Global, matches: &ArgMatches<'_>) -> Result<Task, CommandFault>
    ensures { IfOk result (SaysTask (codes "migrate") (rows_of (found_of matches.now))) }
{
    Ok(Task::Migrate {
        old: string_at(alloc, matches, "old")?,
        new: string_at(alloc, matches, "new")?,
    })
}

/// The task that `trustd submit` asks for. It waits for 0 seconds where no time is given.
fn submit(alloc: Global, matches: &ArgMatches<'_>) -> Result<Task, CommandFault>
    ensures { IfOk result (SaysTask (codes "submit") (rows_of (found_of matches.now))) }
{
    Ok(Task::Submit {
        reach: reach_at(alloc, matches)?,
        file: string_at(alloc, matches, "file")?,
        wait: number_or(matches, "wait", 1, 3600, 0, WrongValue::Wait)?,
    })
}

/// The task that `trustd replay` asks for. It waits for 10 seconds where no time is given.
fn replay(alloc: Global, matches: &ArgMatches<'_>) -> Result<Task, CommandFault>
    ensures { IfOk result (SaysTask (codes "replay") (rows_of (found_of matches.now))) }
{
    Ok(Task::Replay {
        file: string_at(alloc, matches, "file")?,
        reach: reach_at(alloc, matches)?,
        wait: number_or(matches, "wait", 1, 3600, 10, WrongValue::Wait)?,
    })
}

/// The task that `trustd ask` asks for.
fn ask(alloc: Global, matches: &ArgMatches<'_>) -> Result<Task, CommandFault>
    ensures { IfOk result (SaysTask (codes "ask") (rows_of (found_of matches.now))) }
{
    Ok(Task::Ask {
        reach: reach_at(alloc, matches)?,
        file: string_at(alloc, matches, "file")?,
        check: is_set(matches, "check"),
        explain: is_set(matches, "explain"),
    })
}

/// The task that `trustd carry` asks for, where 1 to 9 addresses are given and each has the form of
/// an address.
fn carry(alloc: Global, matches: &ArgMatches<'_>) -> Result<Task, CommandFault>
    ensures { IfOk result (SaysTask (codes "carry") (rows_of (found_of matches.now))) }
{
    let rounds = number_at(matches, "rounds", 1, MANY, WrongValue::Rounds)?;
    let addresses = strings_at(alloc, matches, "addresses")?;
    if addresses.is_empty() || addresses.len() > MAX_NODES {
        return Err(CommandFault::Value(WrongValue::Addresses));
    }
    if !are_addresses(addresses.as_slice()) {
        return Err(CommandFault::Value(WrongValue::Address));
    }
    Ok(Task::Carry { addresses, rounds })
}

/// The task of a subcommand of the program.
pub(crate) fn task_named(
    alloc: Global,
    name: &str,
    matches: &ArgMatches<'_>,
) -> Result<Task, CommandFault>
    ensures says { IfOk result (SaysTask name.now (rows_of (found_of matches.now))) }
    ensures lab { name.now ≡ codes "lab" → result ≡ Ok Lab }
{
    match name {
        "lab" => Ok(Task::Lab),
        "format" => format(alloc, matches),
        "migrate" => migrate(alloc, matches),
        "serve" => Ok(Task::Serve(serve_words(alloc, matches)?)),
        "verify" => Ok(Task::Verify(verify_words(alloc, matches)?)),
        "submit" => submit(alloc, matches),
        "ask" => ask(alloc, matches),
        "carry" => carry(alloc, matches),
        "status" => Ok(Task::Status {
            reach: reach_at(alloc, matches)?,
        }),
        "identify" => Ok(Task::Identify {
            reach: reach_at(alloc, matches)?,
        }),
        "catchup" => Ok(Task::CatchUp {
            reach: reach_at(alloc, matches)?,
        }),
        "compact" => Ok(Task::Compact {
            reach: reach_at(alloc, matches)?,
        }),
        "store" => store(alloc, matches),
        "log" => log(alloc, matches),
        "diff" => diff(alloc, matches),
        "sync" => Ok(Task::Sync(sync_words(alloc, matches)?)),
        "replay" => replay(alloc, matches),
        "keygen" => Ok(Task::Keygen {
            role: role_at(matches)?,
        }),
        "id" => Ok(Task::Id {
            file: string_at(alloc, matches, "file")?,
        }),
        "show" => Ok(Task::Show {
            file: string_at(alloc, matches, "file")?,
        }),
        _ => Err(CommandFault::Value(WrongValue::Missing)),
    }
}
