//! A task of a client is run.

ghost use Rattle.std.specs.Prelude.{◌≡◌, ◌-◌, IsErr, Ok, OnErr, OnOk};
ghost use Rattle.ts_cli.specs.Says.{IsInRange};
ghost use Rattle.ts_exchange.specs.declared.ending.Ending.TheVariants.{Well};
ghost use Rattle.ts_exchange.specs.declared.walk.Rows.TheVariants.{Log, Store};

use crate::listing::{print_diff, print_rows};
use crate::replaying::replay_record;
use crate::requests::{ask_file, carry_messages, submit_file};
use crate::syncing::sync_store;
use crate::upkeep::{print_state, tend_server};
use std::io::Print;
use std::net::Net;
use std::random::RandomSource;
use std::rt::{Clock, Files};
use ts_cli::Task;
use ts_exchange::{Ending, PageWalk, Rows, Upkeep};
use ts_files::TaskFault;

/// A task that asks for no answer ends well, unless it fails.
pub fn well(ended: Result<(), TaskFault>) -> Result<Ending, TaskFault>
    ensures done { OnOk ended (result ≡ Ok Well) }
    ensures failed { OnErr ended (IsErr result) }
{
    match ended {
        Ok(()) => Ok(Ending::Well),
        Err(fault) => Err(fault),
    }
}

/// The walk over what a store holds.
fn store_walk(k: Option<u32>) -> PageWalk
    ensures { result ≡ record { rows = Store; k = k; from = 0 } }
{
    PageWalk {
        rows: Rows::Store,
        k,
        from: 0,
    }
}

/// The walk over the commands that a store took, from a position on.
fn log_walk(from: u32, k: Option<u32>) -> PageWalk
    ensures { result ≡ record { rows = Log; k = k; from = from - 1 } }
{
    PageWalk {
        rows: Rows::Log,
        k,
        from: from.saturating_sub(1),
    }
}

/// Runs a task of a client, which asks a node. Nothing is done for the lab, for a verdict without a
/// node, for tasks of files alone, and for tasks of a node itself (`trustd`).
///
/// # Errors
///
/// Why the task fails.
pub fn run<R: AllocGlobal + Files + Net + Clock + RandomSource + Print + Eprint + Clone + Drop>(
    rt: &R,
    task: &Task,
) -> Result<Ending, TaskFault>
    requires { IsInRange task.now }
{
    match task {
        Task::Submit { reach, file, wait } => submit_file(rt, reach, file.as_str(), *wait),
        Task::Ask {
            reach,
            file,
            check,
            explain,
        } => ask_file(rt, reach, file.as_str(), *check, *explain),
        Task::Store { reach, k, json } => print_rows(rt, reach, store_walk(*k), *json),
        Task::Log {
            reach,
            from,
            k,
            json,
        } => print_rows(rt, reach, log_walk(*from, *k), *json),
        Task::Diff { reach, old, new } => print_diff(rt, reach, *old, *new),
        Task::Sync(words) => sync_store(rt, words),
        other => well(run_other(rt, other)),
    }
}

/// Runs a task that ends well unless it fails.
fn run_other<R: AllocGlobal + Files + Net + Clock + RandomSource + Print + Eprint>(
    rt: &R,
    task: &Task,
) -> Result<(), TaskFault>
    requires { IsInRange task.now }
{
    match task {
        Task::Lab | Task::Verify(_) | Task::Submit { .. } | Task::Ask { .. } => Ok(()),
        Task::Store { .. } | Task::Log { .. } | Task::Diff { .. } | Task::Sync(_) => Ok(()),
        Task::Format { .. } | Task::Migrate { .. } | Task::Serve(_) => Ok(()),
        Task::Keygen { .. } | Task::Command(_) | Task::Question(_) => Ok(()),
        Task::Id { .. } | Task::Show { .. } => Ok(()),
        Task::Replay { file, reach, wait } => replay_record(rt, reach, file.as_str(), *wait),
        Task::Carry { addresses, rounds } => carry_messages(rt, addresses, *rounds),
        Task::Status { reach } => print_state(rt, reach),
        Task::Identify { reach } => tend_server(rt, reach, Upkeep::Identify),
        Task::CatchUp { reach } => tend_server(rt, reach, Upkeep::CatchUp),
        Task::Compact { reach } => tend_server(rt, reach, Upkeep::Compact),
    }
}
