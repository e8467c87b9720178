//! What keeps a node in order: its state is asked for, what it missed is asked of the others, its
//! record is rewritten.

use crate::requests::{answer_to, server_at, tell};
use std::alloc::Global;
use std::io::Print;
use std::net::Net;
use std::random::RandomSource;
use std::rt::{Clock, Files};
use ts_cli::Reach;
use ts_exchange::{Upkeep, upkeep_line};
use ts_files::{TaskFault, say};
use ts_serve::Peer;
use ts_wire::FrameFault;

/// Asks this of a peer, and gives the line that says what it is answered ([`upkeep_line`]).
///
/// # Errors
///
/// Those of the exchange; the node's; `Frame` where the answer is none to this.
pub fn tend<P: Peer>(alloc: Global, peer: &mut P, upkeep: Upkeep) -> Result<String, TaskFault>
    requires { P.is_ready peer.old }
    ensures { P.is_ready peer.new }
{
    let answer = answer_to(alloc, peer, upkeep.request())?;
    let line = upkeep_line(alloc, upkeep, &answer);
    drop(answer);
    Ok(line?)
}

/// Adds the line that says what a peer is answered to this. A peer of an earlier version doesn't
/// know it, and nothing is added.
fn add_line<P: Peer>(
    alloc: Global,
    peer: &mut P,
    upkeep: Upkeep,
    text: &mut String,
) -> Result<(), TaskFault>
    requires { P.is_ready peer.old }
    ensures { P.is_ready peer.new }
{
    match tend(alloc, peer, upkeep) {
        Ok(line) => Ok(text.push_str(line.as_str())?),
        Err(TaskFault::Frame(FrameFault::Kind)) => Ok(()),
        Err(fault) => Err(fault),
    }
}

/// Asks a peer how it does: how many commands it knows, which node of which group it is, and its
/// report. A peer of an earlier version has no report.
///
/// # Errors
///
/// Those of the exchanges; the node's.
pub fn state_of<P: Peer>(alloc: Global, peer: &mut P) -> Result<String, TaskFault>
    requires { P.is_ready peer.old }
    ensures { P.is_ready peer.new }
{
    let mut text = tend(alloc, peer, Upkeep::Status)?;
    add_line(alloc, peer, Upkeep::Identify, &mut text)?;
    add_line(alloc, peer, Upkeep::Report, &mut text)?;
    Ok(text)
}

/// Asks the server at an address how it does, and prints it.
///
/// # Errors
///
/// Those of [`state_of`] and of the key's file; `Write`.
pub fn print_state(
    rt: &(impl AllocGlobal + Files + Net + Clock + RandomSource + Print + Eprint),
    reach: &Reach,
) -> Result<(), TaskFault> {
    let alloc = rt.alloc();
    let text = state_of(alloc, &mut server_at(rt, alloc, reach)?);
    say(rt, tell(rt, reach, text)?.as_str())
}

/// Asks this of the server at an address, and prints what it is answered.
///
/// # Errors
///
/// Those of [`tend`] and of the key's file; `Write`.
pub fn tend_server(
    rt: &(impl AllocGlobal + Files + Net + Clock + RandomSource + Print + Eprint),
    reach: &Reach,
    upkeep: Upkeep,
) -> Result<(), TaskFault> {
    let alloc = rt.alloc();
    let line = tend(alloc, &mut server_at(rt, alloc, reach)?, upkeep);
    say(rt, tell(rt, reach, line)?.as_str())
}
