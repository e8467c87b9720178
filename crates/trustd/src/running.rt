//! A task is run.

ghost use Rattle.ts_cli.specs.Says.{IsInRange};

use std::fs::File;
use std::io::Print;
use std::net::{Net, TcpListener, TcpStream};
use std::random::RandomSource;
use std::rt::{Clock, Files};
use ts_cli::Task;
use ts_client::well;
use ts_daemon::{format_record, migrate_record, serve_record};
use ts_exchange::Ending;
use ts_files::TaskFault;
use ts_offline::{make_command, make_question, print_id, print_key, show_file};

/// Runs a task of a node (`ts_daemon`), of files alone (`ts_offline`) or of a client (`ts_client`),
/// but the lab and a verdict without a node, which end with statuses of their own.
///
/// # Errors
///
/// Why the task fails.
pub fn run<
    R: AllocGlobal
        + Files<File = File>
        + Net<Listener = TcpListener, Stream = TcpStream>
        + Clock
        + RandomSource
        + Print
        + Eprint
        + Clone
        + Drop,
>(rt: &R, task: &Task) -> Result<Ending, TaskFault>
    requires { IsInRange task.now }
{
    match task {
        Task::Format {
            file,
            id,
            nodes,
            group,
        } => well(format_record(rt, file.as_str(), *id, *nodes, *group)),
        Task::Migrate { old, new } => well(migrate_record(rt, old.as_str(), new.as_str())),
        Task::Serve(words) => well(serve_record(rt, words)),
        Task::Keygen { role } => well(print_key(rt, *role)),
        Task::Command(words) => well(make_command(rt, words)),
        Task::Question(words) => well(make_question(rt, words)),
        Task::Id { file } => well(print_id(rt, file.as_str())),
        Task::Show { file } => well(show_file(rt, file.as_str())),
        other => ts_client::run(rt, other),
    }
}
