//! The log of a record is brought to another group.

use crate::keyed::ReachedNode;
use crate::requests::{answer_to, server_at, tell};
use crate::waiting::submit_and_wait;
use std::alloc::Global;
use std::io::Print;
use std::net::Net;
use std::random::RandomSource;
use std::rt::{Clock, Files};
use std::time::Duration;
use ts_cli::Reach;
use ts_command::Command;
use ts_files::{TaskFault, read_record, say};
use ts_replay::{Replay, Step, commands_in, known_in, settled_in};
use ts_serve::Peer;
use ts_wire::{Frame, FrameFault};

/// How many commands a node knows.
fn known_by<P: Peer>(alloc: Global, server: &mut P) -> Result<u32, TaskFault>
    requires { P.is_ready server.old }
    ensures { P.is_ready server.new }
{
    let answer = answer_to(alloc, server, Frame::Status)?;
    let known = known_in(&answer);
    drop(answer);
    known.ok_or(TaskFault::Frame(FrameFault::Kind))
}

/// Where a node has a command, if it has it.
fn look<P: Peer>(alloc: Global, server: &mut P, command: &Command) -> Result<Option<u32>, TaskFault>
    requires { P.is_ready server.old }
    ensures { P.is_ready server.new }
{
    let answer = answer_to(alloc, server, Frame::Outcome { id: command.id() })?;
    let settled = settled_in(&answer);
    drop(answer);
    Ok(settled)
}

/// Submits a command, and waits for so many seconds until it is known to be chosen. Where that is.
///
/// # Errors
///
/// Those of the exchange; `Unknown` where it is not known in time, which standard error says.
fn bring<R: Net + Clock + RandomSource + Eprint>(
    rt: &R,
    alloc: Global,
    reach: &Reach,
    server: &mut ReachedNode<'_, R>,
    command: &Command,
    seconds: u32,
) -> Result<u32, TaskFault> {
    let longest = Duration::from_secs(seconds as u64);
    let answer = submit_and_wait(rt, alloc, server, command.try_copy(alloc)?, longest);
    let answer = tell(rt, reach, answer)?;
    let settled = settled_in(&answer);
    drop(answer);
    if settled.is_none() {
        let _ = eprintln!(rt; "trustd: not chosen within {seconds} seconds; it may be later");
    }
    settled.ok_or(TaskFault::Unknown)
}

/// Says on standard error that a position of a record has another command at the node, or none; or
/// that it has the command of an earlier position, which no node takes twice.
fn say_other_log(rt: &impl Eprint, file: &str, done: u32, settled: Option<u32>) {
    let position = u64::from(done) + 1;
    let _said = match settled {
        Some(earlier) if earlier <= done => {
            eprintln!(rt;
                "trustd: position {position} of {file} has the command of position {earlier} again"
            )
        }
        _ => eprintln!(rt; "trustd: position {position} of {file} has another command there"),
    };
}

/// Makes the steps of a replay, up to the first command that the node has at another position, or
/// has not. How many commands are at their positions.
///
/// # Errors
///
/// Those of the exchanges; `Unknown` where a command is not known to be chosen in time; `OtherLog`.
fn make_steps<R: Net + Clock + RandomSource + Eprint>(
    rt: &R,
    alloc: Global,
    reach: &Reach,
    server: &mut ReachedNode<'_, R>,
    file: &str,
    commands: &[Command],
    seconds: u32,
) -> Result<u32, TaskFault> {
    let known = tell(rt, reach, known_by(alloc, server))?;
    let mut replay = Replay::begin(known);
    for _step in 0..u32::MAX {
        let settled = match replay.next(commands) {
            Step::Look(command) => tell(rt, reach, look(alloc, server, command))?,
            Step::Submit(command) => Some(bring(rt, alloc, reach, server, command, seconds)?),
            Step::Done => return Ok(replay.done),
        };
        match replay.after(settled) {
            Some(next) => replay = next,
            None => {
                say_other_log(rt, file, replay.done, settled);
                return Err(TaskFault::OtherLog);
            }
        }
    }
    Err(TaskFault::OtherLog)
}

/// Submits the commands of a record to the server at an address, each to the position that it has
/// in the record, and prints how many are there. Those that the server knows are looked at first.
///
/// # Errors
///
/// Those of the files and of the record; those of the exchanges; `Unknown` where a command is not
/// known to be chosen in time; `OtherLog` at the first position that has another command there, or
/// none: nothing is submitted behind it.
pub(crate) fn replay_record(
    rt: &(impl AllocGlobal + Files + Net + Clock + RandomSource + Print + Eprint),
    reach: &Reach,
    file: &str,
    seconds: u32,
) -> Result<(), TaskFault> {
    let alloc = rt.alloc();
    let (first, second) = read_record(rt, alloc, file)?;
    let commands = commands_in(alloc, first, second)?;
    let mut server = server_at(rt, alloc, reach)?;
    let replayed = make_steps(rt, alloc, reach, &mut server, file, &commands, seconds)?;
    let line = format!(in alloc; "replayed {replayed}\n")?;
    say(rt, line.as_str())
}
