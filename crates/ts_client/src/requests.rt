//! The programs of a client: a command is submitted, a question asked, and messages are carried.

ghost use Rattle.std.specs.Prelude.{All};

use crate::explaining::explain_answer;
use crate::keyed::ReachedNode;
use crate::waiting::submit_and_wait;
use std::alloc::Global;
use std::io::Print;
use std::net::Net;
use std::random::RandomSource;
use std::rt::{Clock, Files};
use std::time::Duration;
use ts_cli::Reach;
use ts_command::Command;
use ts_exchange::{
    Ending, Saying, answer_in, answer_to_question, ask_line, ending_by, request_octets,
    submit_saying,
};
use ts_files::{TaskFault, key_in, read_file, say, say_other};
use ts_question::{Answer, Question};
use ts_serve::{Peer, TcpPeer, carry};
use ts_show::Kind;
use ts_wire::{Frame, FrameFault};

/// Sends a request to a peer, and returns the frame that it is answered with. It is answered with
/// one, and no more is taken than one has at most.
pub fn answer_of<P: Peer>(alloc: Global, peer: &mut P, request: &Frame) -> Result<Frame, TaskFault>
    requires { P.is_ready peer.old }
    ensures { P.is_ready peer.new }
{
    let octets = request_octets(alloc, request)?;
    let answered = peer.exchange(&octets, 1)?;
    Ok(answer_in(alloc, &answered)?)
}

/// Sends a request that is not needed afterwards, and returns the frame that it is answered with.
pub(crate) fn answer_to<P: Peer>(
    alloc: Global,
    peer: &mut P,
    request: Frame,
) -> Result<Frame, TaskFault>
    requires { P.is_ready peer.old }
    ensures { P.is_ready peer.new }
{
    let answer = answer_of(alloc, peer, &request);
    drop(request);
    answer
}

/// Submits a command to a peer. The line that says what it is answered, and how the task ends.
///
/// # Errors
///
/// Those of the exchange; the node's; `Frame` where the answer is none to a command.
pub fn submit<P: Peer>(alloc: Global, peer: &mut P, command: Command) -> Result<Saying, TaskFault>
    requires { P.is_ready peer.old }
    ensures { P.is_ready peer.new }
{
    let answer = answer_to(alloc, peer, Frame::Submit { command })?;
    let said = submit_saying(alloc, &answer);
    drop(answer);
    Ok(said?)
}

/// Asks a peer a question, and gives the answer.
pub(crate) fn answer_from<P: Peer>(
    alloc: Global,
    peer: &mut P,
    question: Question,
) -> Result<Answer, TaskFault>
    requires { P.is_ready peer.old }
    ensures { P.is_ready peer.new }
{
    let frame = answer_to(alloc, peer, Frame::Question { question })?;
    Ok(answer_to_question(frame)?)
}

/// Asks a peer a question, and gives the line that says the answer.
///
/// # Errors
///
/// Those of the exchange; the node's; `Frame` where the answer is none to a question.
pub fn ask<P: Peer>(alloc: Global, peer: &mut P, question: Question) -> Result<String, TaskFault>
    requires { P.is_ready peer.old }
    ensures { P.is_ready peer.new }
{
    let answer = answer_from(alloc, peer, question)?;
    Ok(ask_line(alloc, &answer)?)
}

/// Says on standard error what kept a server from answering, where one did not. What it is given.
pub(crate) fn tell<T: Drop>(
    rt: &impl Eprint,
    reach: &Reach,
    ended: Result<T, TaskFault>,
) -> Result<T, TaskFault> {
    let address = reach.address.as_str();
    let _said = match &ended {
        Err(TaskFault::Write) if reach.key.is_none() => {
            eprintln!(rt; "trustd: {address}: can't be reached, or ended the connection")
        }
        Err(TaskFault::Frame(FrameFault::Version)) if reach.key.is_none() => {
            eprintln!(rt; "trustd: {address}: wants a key: --key FILE")
        }
        Err(TaskFault::Frame(FrameFault::Version)) => {
            eprintln!(rt; "trustd: {address}: wants no key")
        }
        Err(TaskFault::Cut | TaskFault::Read | TaskFault::Write) if reach.key.is_some() =>
            eprintln!(rt;
                "trustd: {address}: can't be reached, gives no answer, or does not know this key"
            ),
        Err(TaskFault::Frame(FrameFault::Kind)) if reach.key.is_some() => {
            eprintln!(rt; "trustd: {address}: this key's role may not ask this")
        }
        Err(TaskFault::Read) => {
            eprintln!(rt;
                "trustd: {address}: gave no answer in time, or broke off: see that it runs"
            )
        }
        Err(TaskFault::Unknown) => {
            eprintln!(rt;
                "trustd: {address}: gave no answer in time; the command may be chosen: try again"
            )
        }
        Err(TaskFault::ReadLimit) => {
            eprintln!(rt; "trustd: {address}: answers more than a node does: it is none")
        }
        _ => Ok(()),
    };
    ended
}

/// The server that is reached so.
pub(crate) fn server_at<'a, R: Files + Net + Clock + RandomSource + Eprint>(
    rt: &'a R,
    alloc: Global,
    reach: &Reach,
) -> Result<ReachedNode<'a, R>, TaskFault> {
    let key = key_in(rt, alloc, &reach.key)?;
    let address = String::from_str(alloc, reach.address.as_str())?;
    Ok(ReachedNode::new(alloc, rt, address, key))
}

/// Submits a command to the server at an address, and waits for so many seconds until it is known
/// to be chosen. Gives the line that says its position and its outcome.
fn submit_for<R: Files + Net + Clock + RandomSource + Eprint>(
    rt: &R,
    alloc: Global,
    reach: &Reach,
    command: Command,
    seconds: u32,
) -> Result<Saying, TaskFault> {
    let mut server = server_at(rt, alloc, reach)?;
    let longest = Duration::from_secs(seconds as u64);
    let answer = submit_and_wait(rt, alloc, &mut server, command, longest);
    let answer = tell(rt, reach, answer)?;
    if !matches!(&answer, Frame::Settled { .. }) {
        drop(answer);
        let _ = eprintln!(rt; "trustd: not chosen within {seconds} seconds; it may be later");
        return Err(TaskFault::Unknown);
    }
    let said = submit_saying(alloc, &answer);
    drop(answer);
    Ok(said?)
}

/// The fault of a file that is no command or no question. Standard error says what it is, and what
/// makes one.
fn no_such(rt: &impl Eprint, alloc: Global, file: &str, wanted: Kind, octets: &[u8]) -> TaskFault {
    if say_other(rt, alloc, file, wanted, octets).is_err() {
        return TaskFault::Memory;
    }
    let word = match wanted {
        Kind::Command => "command",
        _ => "question",
    };
    let _ = eprintln!(rt; "trustd: {file}: is no {word}; `trustd {word}` makes one");
    TaskFault::Field
}

/// Submits the command that a file holds to the server at an address, and prints what it is
/// answered: at once, or after at most so many seconds where it is known to be chosen.
///
/// # Errors
///
/// `Field` where the file is not one whole command; those of the file and of [`submit`]; `Unknown`
/// where it was waited for, and is not known to be chosen.
pub fn submit_file(
    rt: &(impl AllocGlobal + Files + Net + Clock + RandomSource + Print + Eprint),
    reach: &Reach,
    file: &str,
    wait: u32,
) -> Result<Ending, TaskFault> {
    let alloc = rt.alloc();
    let octets = read_file(rt, alloc, file)?;
    let Some(command) = Command::read(alloc, &octets)? else {
        return Err(no_such(rt, alloc, file, Kind::Command, &octets));
    };
    let said = if wait == 0 {
        let said = submit(alloc, &mut server_at(rt, alloc, reach)?, command);
        tell(rt, reach, said)?
    } else {
        submit_for(rt, alloc, reach, command, wait)?
    };
    say(rt, said.line.as_str())?;
    Ok(said.ended)
}

/// Asks the server at an address the question that a file holds, and prints the answer. It ends
/// well, unless a valid chain is checked for and none is answered.
///
/// # Errors
///
/// `Field` where the file is not one whole question; those of the file and of [`ask`].
pub fn ask_file(
    rt: &(impl AllocGlobal + Files + Net + Clock + RandomSource + Print + Eprint),
    reach: &Reach,
    file: &str,
    check: bool,
    explain: bool,
) -> Result<Ending, TaskFault> {
    let alloc = rt.alloc();
    let octets = read_file(rt, alloc, file)?;
    let Some(question) = Question::read(alloc, &octets)? else {
        return Err(no_such(rt, alloc, file, Kind::Question, &octets));
    };
    let mut server = server_at(rt, alloc, reach)?;
    let answer = answer_from(alloc, &mut server, question);
    let answer = tell(rt, reach, answer)?;
    say(rt, ask_line(alloc, &answer)?.as_str())?;
    if explain {
        let explained = explain_answer(rt, alloc, &mut server, &octets, &answer);
        tell(rt, reach, explained)?;
    }
    Ok(ending_by(check, answer.reply()))
}

/// Carries messages between the servers at these addresses, the first being node 1, for so many
/// rounds, and prints how many were delivered. None of them may want keys.
///
/// # Errors
///
/// `Memory`, `Write`.
pub fn carry_messages(
    rt: &(impl AllocGlobal + Net + Clock + Print),
    addresses: &[String],
    rounds: u32,
) -> Result<(), TaskFault> {
    let alloc = rt.alloc();
    let mut peers = Vec::new(alloc);
    for address in addresses {
        let address = String::from_str(alloc, address.as_str())?;
        peers.push(TcpPeer::new(alloc, rt, address))?;
    }
    let delivered = carry(alloc, &mut peers, rounds)?;
    let line = format!(in alloc; "carried {delivered}\n")?;
    say(rt, line.as_str())
}
