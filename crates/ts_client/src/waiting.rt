//! A command is submitted, and waited for.

ghost use Rattle.std.specs.Prelude.{◌≡◌, max};

use crate::keyed::ReachedNode;
use crate::pausing::pause;
use crate::requests::answer_of;
use std::alloc::Global;
use std::net::Net;
use std::random::RandomSource;
use std::rt::Clock;
use std::time::{Duration, Instant};
use ts_command::Command;
use ts_files::TaskFault;
use ts_wire::Frame;

/// How many milliseconds pass before the node is first asked for a command's outcome. Each time it
/// is twice as long, up to [`LONGEST`].
const FIRST: u64 = 1;

/// The longest pause between two looks, in milliseconds.
const LONGEST: u64 = 320;

/// After how many looks the command is submitted again, in case that the node was started anew.
const LOOKS: u32 = 20;

/// How many milliseconds an exchange has at least, so that a node can be asked.
const LEAST: u64 = 1_000;

/// How many milliseconds an exchange has, where so many are left.
fn share_of(left: u64) -> u64
    ensures { result ≡ max left 1000 }
{
    left.max(LEAST)
}

/// How much time is left, in milliseconds.
fn time_left<R: Clock>(rt: &R, start: Instant, longest: Duration) -> Result<u64, TaskFault> {
    let Ok(elapsed) = start.elapsed(rt) else {
        return Err(TaskFault::Clock);
    };
    let left = longest.saturating_sub(elapsed).as_millis();
    Ok(u64::try_from(left).unwrap_or(u64::MAX))
}

/// Asks a node, which has what is left of the time to answer, and a second at least. `Unknown`
/// where it does not answer in time.
fn ask_in_time<R: Net + Clock + RandomSource>(
    rt: &R,
    alloc: Global,
    server: &mut ReachedNode<'_, R>,
    next: &Frame,
    start: Instant,
    longest: Duration,
) -> Result<Frame, TaskFault> {
    server.limit(share_of(time_left(rt, start, longest)?));
    let answer = answer_of(alloc, server, next);
    let is_over = time_left(rt, start, longest) == Ok(0);
    match answer {
        Err(TaskFault::Read) if is_over => Err(TaskFault::Unknown),
        answer => answer,
    }
}

/// Hands a node a request, and asks it then, until the command is known to be chosen or the time is
/// over. Gives the node's last answer.
fn look_until<R: Net + Clock + RandomSource>(
    rt: &R,
    alloc: Global,
    server: &mut ReachedNode<'_, R>,
    request: &Frame,
    asked: &Frame,
    start: Instant,
    longest: Duration,
) -> Result<Frame, TaskFault> {
    let mut millis = FIRST;
    for look in 0..u32::MAX {
        let next = if look % LOOKS == 0 { request } else { asked };
        let answer = ask_in_time(rt, alloc, server, next, start, longest)?;
        let left = time_left(rt, start, longest);
        let is_settled = matches!(&answer, Frame::Settled { .. });
        if left == Ok(0) || (is_settled && left.is_ok()) {
            return Ok(answer);
        }
        drop(answer);
        pause(rt, alloc, millis.min(left?))?;
        millis = millis.saturating_mul(2).min(LONGEST);
    }
    ask_in_time(rt, alloc, server, asked, start, longest)
}

/// Submits a command, and waits for at most so long until the node knows it to be chosen. Gives the
/// node's last answer. An exchange has what is left of the time, and a second at least.
///
/// # Errors
///
/// Those of an exchange; `Unknown` where the node does not answer in time; `Clock`.
pub(crate) fn submit_and_wait<R: Net + Clock + RandomSource>(
    rt: &R,
    alloc: Global,
    server: &mut ReachedNode<'_, R>,
    command: Command,
    longest: Duration,
) -> Result<Frame, TaskFault> {
    let Ok(start) = Instant::now(rt) else {
        return Err(TaskFault::Clock);
    };
    let asked = Frame::Outcome { id: command.id() };
    let request = Frame::Submit { command };
    let answer = look_until(rt, alloc, server, &request, &asked, start, longest);
    server.limit(u64::MAX);
    drop(asked);
    drop(request);
    answer
}
