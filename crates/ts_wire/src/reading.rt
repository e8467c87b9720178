//! The fields of frames are read.

ghost use Rattle.std.specs.Prelude.{◌≡◌};
ghost use Rattle.ts_codec.specs.Reading.{Gives, lookup, within_blob_at};
ghost use Rattle.ts_question.specs.QuestionReading.{question_at};
ghost use Rattle.ts_wire.specs.Frames.{is_kind};
ghost use Rattle.ts_wire.specs.inside.FrameReading.{blob_command_at, vote_at, taken_at, peer};
ghost use Rattle.ts_wire.specs.inside.FrameReading.{prepare_at};
ghost use Rattle.ts_wire.specs.inside.FrameReading.{promise_at, busy_at, accept_at, accepted_at};
ghost use Rattle.ts_wire.specs.inside.FrameReading.{ask_at};
ghost use Rattle.ts_wire.specs.inside.FrameReading.{give_at, started_at, refused_at};
ghost use Rattle.ts_wire.specs.inside.FrameReading.{outcome_at};
ghost use Rattle.ts_wire.specs.inside.FrameReading.{settled_at, node_faults, frame_faults};
ghost use Rattle.ts_wire.specs.inside.FrameReading.{identity_at};
ghost use Rattle.ts_wire.specs.inside.FrameReading.{fields_at};

use crate::fault::FrameFault;
use crate::frame::Frame;
use crate::route::{Route, head};
use std::alloc::Global;
use ts_codec::ReadFault;
use ts_codec::reading::{ballot, blob32, id, node, number32, octet, position, prefix};
use ts_command::{Command, Outcome, Refusal};
use ts_octets::Octets;
use ts_question::{Answer, Question};
use ts_synod::{Body, Message, NodeFault, Vote};

/// The command whose encoding is the blob that begins here, and what follows the blob. A blob that
/// is no command is refused.
#[tactic(auto, unfolding(crate::specs::inside::FrameReading::blob_command_at, ts_codec::specs::Reading::within_blob_at))]
fn command(alloc: Global, octets: &[u8]) -> Result<(Command, &[u8]), ReadFault>
    ensures { Gives (λ x. (x.0, x.1.now)) result (blob_command_at octets.now) }
{
    let (content, rest) = blob32(octets)?;
    match Command::read(alloc, content)? {
        Some(command) => Ok((command, rest)),
        None => Err(ReadFault::Form),
    }
}

/// The question whose encoding is the blob that begins here, and what follows the blob. A blob that
/// is no question is refused.
#[tactic(auto, unfolding(ts_codec::specs::Reading::within_blob_at))]
fn question(alloc: Global, octets: &[u8]) -> Result<(Question, &[u8]), ReadFault>
    ensures { Gives (λ x. (x.0, x.1.now)) result (within_blob_at question_at octets.now) }
{
    let (content, rest) = blob32(octets)?;
    match Question::read(alloc, content)? {
        Some(question) => Ok((question, rest)),
        None => Err(ReadFault::Form),
    }
}

/// The vote that begins here, a ballot and a command, and what follows it.
#[tactic(auto, unfolding(crate::specs::inside::FrameReading::vote_at))]
fn vote(alloc: Global, octets: &[u8]) -> Result<(Vote<Command>, &[u8]), ReadFault>
    ensures { Gives (λ x. (x.0, x.1.now)) result (vote_at octets.now) }
{
    let (ballot, rest) = ballot(octets)?;
    let (command, rest) = command(alloc, rest)?;
    Ok((Vote { ballot, command }, rest))
}

/// The vote that a promise reports, or none, and what follows it. A flag that is neither 0 nor 1 is
/// refused.
#[tactic(auto, unfolding(crate::specs::inside::FrameReading::taken_at, ts_codec::specs::Reading::of_kind))]
fn vote_taken(alloc: Global, octets: &[u8]) -> Result<(Option<Vote<Command>>, &[u8]), ReadFault>
    ensures { Gives (λ x. (x.0, x.1.now)) result (taken_at octets.now) }
{
    let (flag, rest) = octet(octets)?;
    match flag {
        0 => Ok((None, rest)),
        1 => {
            let (vote, rest) = vote(alloc, rest)?;
            Ok((Some(vote), rest))
        }
        _ => Err(ReadFault::Form),
    }
}

/// The message of these first fields.
fn peer(route: Route, body: Body<Command>) -> Frame
    ensures { result ≡ peer route body }
{
    Frame::Peer(Message {
        from: route.from,
        to: route.to,
        body,
    })
}

/// A prepare request, from the fields after its kind, and what follows them.
#[tactic(auto, unfolding(crate::specs::inside::FrameReading::prepare_at))]
fn prepare(octets: &[u8]) -> Result<(Frame, &[u8]), ReadFault>
    ensures { Gives (λ x. (x.0, x.1.now)) result (prepare_at octets.now) }
{
    let (route, rest) = head(octets)?;
    let (ballot, rest) = ballot(rest)?;
    let position = route.position;
    Ok((peer(route, Body::Prepare { position, ballot }), rest))
}

/// A promise, from the fields after its kind, and what follows them.
#[tactic(auto, unfolding(crate::specs::inside::FrameReading::promise_at))]
fn promise(alloc: Global, octets: &[u8]) -> Result<(Frame, &[u8]), ReadFault>
    ensures { Gives (λ x. (x.0, x.1.now)) result (promise_at octets.now) }
{
    let (route, rest) = head(octets)?;
    let (ballot, rest) = ballot(rest)?;
    let (taken, rest) = vote_taken(alloc, rest)?;
    let position = route.position;
    let body = Body::Promise {
        position,
        ballot,
        taken,
    };
    Ok((peer(route, body), rest))
}

/// The message that a greater ballot was promised, from the fields after its kind, and what follows
/// them.
#[tactic(auto, unfolding(crate::specs::inside::FrameReading::busy_at))]
fn busy(octets: &[u8]) -> Result<(Frame, &[u8]), ReadFault>
    ensures { Gives (λ x. (x.0, x.1.now)) result (busy_at octets.now) }
{
    let (route, rest) = head(octets)?;
    let (number, rest) = ballot(rest)?;
    let (promised, rest) = ballot(rest)?;
    let body = Body::Busy {
        position: route.position,
        ballot: number,
        promised,
    };
    Ok((peer(route, body), rest))
}

/// An accept request, from the fields after its kind, and what follows them.
#[tactic(auto, unfolding(crate::specs::inside::FrameReading::accept_at))]
fn accept(alloc: Global, octets: &[u8]) -> Result<(Frame, &[u8]), ReadFault>
    ensures { Gives (λ x. (x.0, x.1.now)) result (accept_at octets.now) }
{
    let (route, rest) = head(octets)?;
    let (ballot, rest) = ballot(rest)?;
    let (command, rest) = command(alloc, rest)?;
    let body = Body::Accept {
        position: route.position,
        ballot,
        command,
    };
    Ok((peer(route, body), rest))
}

/// The message that a vote was taken, from the fields after its kind, and what follows them.
#[tactic(auto, unfolding(crate::specs::inside::FrameReading::accepted_at))]
fn accepted_message(alloc: Global, octets: &[u8]) -> Result<(Frame, &[u8]), ReadFault>
    ensures { Gives (λ x. (x.0, x.1.now)) result (accepted_at octets.now) }
{
    let (route, rest) = head(octets)?;
    let (ballot, rest) = ballot(rest)?;
    let (command, rest) = command(alloc, rest)?;
    let body = Body::Accepted {
        position: route.position,
        ballot,
        command,
    };
    Ok((peer(route, body), rest))
}

/// The message that asks for the command of a position, from the fields after its kind, and what
/// follows them.
#[tactic(auto, unfolding(crate::specs::inside::FrameReading::ask_at))]
fn ask(octets: &[u8]) -> Result<(Frame, &[u8]), ReadFault>
    ensures { Gives (λ x. (x.0, x.1.now)) result (ask_at octets.now) }
{
    let (route, rest) = head(octets)?;
    let position = route.position;
    Ok((peer(route, Body::Ask { position }), rest))
}

/// The message that gives the command of a position, from the fields after its kind, and what
/// follows them.
#[tactic(auto, unfolding(crate::specs::inside::FrameReading::give_at))]
fn give(alloc: Global, octets: &[u8]) -> Result<(Frame, &[u8]), ReadFault>
    ensures { Gives (λ x. (x.0, x.1.now)) result (give_at octets.now) }
{
    let (route, rest) = head(octets)?;
    let (command, rest) = command(alloc, rest)?;
    let position = route.position;
    Ok((peer(route, Body::Give { position, command }), rest))
}

/// The frame that says that a round began, from the fields after its kind, and what follows them.
#[tactic(auto, unfolding(crate::specs::inside::FrameReading::started_at))]
fn started_frame(octets: &[u8]) -> Result<(Frame, &[u8]), ReadFault>
    ensures { Gives (λ x. (x.0, x.1.now)) result (started_at octets.now) }
{
    let (position, rest) = position(octets)?;
    let (ballot, rest) = ballot(rest)?;
    Ok((Frame::Started { position, ballot }, rest))
}

/// The outcome that a command was refused, from the code that begins here, and what follows it. An
/// unknown code is refused.
#[tactic(auto, unfolding(crate::specs::inside::FrameReading::refused_at, ts_codec::specs::Reading::code_at))]
fn refused_outcome(octets: &[u8]) -> Result<(Outcome, &[u8]), ReadFault>
    ensures { Gives (λ x. (x.0, x.1.now)) result (refused_at octets.now) }
{
    let (code, rest) = octet(octets)?;
    match Refusal::of_code(u32::from(code)) {
        Some(refusal) => Ok((Outcome::Refused(refusal), rest)),
        None => Err(ReadFault::Form),
    }
}

/// The outcome of a command that begins here, and what follows it. An unknown form is refused.
#[tactic(auto, unfolding(crate::specs::inside::FrameReading::outcome_at, ts_codec::specs::Reading::of_kind))]
fn outcome(octets: &[u8]) -> Result<(Outcome, &[u8]), ReadFault>
    ensures { Gives (λ x. (x.0, x.1.now)) result (outcome_at octets.now) }
{
    let (form, rest) = octet(octets)?;
    match form {
        0 => Ok((Outcome::Applied, rest)),
        1 => {
            let (position, rest) = position(rest)?;
            Ok((Outcome::Repeated(position), rest))
        }
        2 => refused_outcome(rest),
        _ => Err(ReadFault::Form),
    }
}

/// The frame that says where a command is and its outcome, from the fields after its kind, and what
/// follows them.
#[tactic(auto, unfolding(crate::specs::inside::FrameReading::settled_at))]
fn settled_frame(octets: &[u8]) -> Result<(Frame, &[u8]), ReadFault>
    ensures { Gives (λ x. (x.0, x.1.now)) result (settled_at octets.now) }
{
    let (position, rest) = position(octets)?;
    let (outcome, rest) = outcome(rest)?;
    Ok((Frame::Settled { position, outcome }, rest))
}

/// The node's fault of this code; none where no fault has it.
fn node_fault_of(code: u8) -> Option<NodeFault>
    ensures { result ≡ lookup code node_faults }
{
    Some(match code {
        1 => NodeFault::Memory,
        2 => NodeFault::DiskFailed,
        3 => NodeFault::Broken,
        4 => NodeFault::RoundsExhausted,
        5 => NodeFault::PositionsExhausted,
        6 => NodeFault::GenerationsExhausted,
        _ => return None,
    })
}

/// The frame that reports a node's fault, from the code after its kind, and what follows it. An
/// unknown code is refused.
#[tactic(auto, unfolding(crate::specs::inside::FrameReading::fields_at, ts_codec::specs::Reading::of_kind, ts_codec::specs::Reading::code_at))]
fn node_fault(octets: &[u8]) -> Result<(Frame, &[u8]), ReadFault>
    ensures { Gives (λ x. (x.0, x.1.now)) result (fields_at 0x25 octets.now) }
{
    let (code, rest) = octet(octets)?;
    match node_fault_of(code) {
        Some(fault) => Ok((Frame::NodeFault { fault }, rest)),
        None => Err(ReadFault::Form),
    }
}

/// The frame's fault of this code; none where no fault has it.
fn frame_fault_of(code: u8) -> Option<FrameFault>
    ensures { result ≡ lookup code frame_faults }
{
    Some(match code {
        1 => FrameFault::Length,
        2 => FrameFault::Version,
        3 => FrameFault::Kind,
        4 => FrameFault::Field,
        5 => FrameFault::Trailing,
        _ => return None,
    })
}

/// The frame that reports a wrong frame, from the code after its kind, and what follows it. An
/// unknown code is refused.
#[tactic(auto, unfolding(crate::specs::inside::FrameReading::fields_at, ts_codec::specs::Reading::of_kind, ts_codec::specs::Reading::code_at))]
fn frame_fault(octets: &[u8]) -> Result<(Frame, &[u8]), ReadFault>
    ensures { Gives (λ x. (x.0, x.1.now)) result (fields_at 0x26 octets.now) }
{
    let (code, rest) = octet(octets)?;
    match frame_fault_of(code) {
        Some(fault) => Ok((Frame::FrameFault { fault }, rest)),
        None => Err(ReadFault::Form),
    }
}

/// The frame that says which node of which group it is, from the fields after its kind, and what
/// follows them.
#[tactic(auto, unfolding(crate::specs::inside::FrameReading::identity_at))]
fn identity(octets: &[u8]) -> Result<(Frame, &[u8]), ReadFault>
    ensures { Gives (λ x. (x.0, x.1.now)) result (identity_at octets.now) }
{
    let (number, rest) = node(octets)?;
    let (nodes, rest) = node(rest)?;
    let (group, rest) = number32(rest)?;
    let identity = Frame::Identity {
        node: number,
        nodes,
        group,
    };
    Ok((identity, rest))
}

/// The frame that submits a command, from the fields after its kind, and what follows them.
#[tactic(auto, unfolding(crate::specs::inside::FrameReading::fields_at, ts_codec::specs::Reading::of_kind))]
fn submit(alloc: Global, octets: &[u8]) -> Result<(Frame, &[u8]), ReadFault>
    ensures { Gives (λ x. (x.0, x.1.now)) result (fields_at 0x10 octets.now) }
{
    let (command, rest) = command(alloc, octets)?;
    Ok((Frame::Submit { command }, rest))
}

/// The frame that asks a question, from the fields after its kind, and what follows them.
#[tactic(auto, unfolding(crate::specs::inside::FrameReading::fields_at, ts_codec::specs::Reading::of_kind))]
fn question_frame(alloc: Global, octets: &[u8]) -> Result<(Frame, &[u8]), ReadFault>
    ensures { Gives (λ x. (x.0, x.1.now)) result (fields_at 0x11 octets.now) }
{
    let (question, rest) = question(alloc, octets)?;
    Ok((Frame::Question { question }, rest))
}

/// The frame that asks for the outcome of a command, from the id after its kind, and what follows
/// it.
#[tactic(auto, unfolding(crate::specs::inside::FrameReading::fields_at, ts_codec::specs::Reading::of_kind))]
fn inquiry(octets: &[u8]) -> Result<(Frame, &[u8]), ReadFault>
    ensures { Gives (λ x. (x.0, x.1.now)) result (fields_at 0x13 octets.now) }
{
    let (id, rest) = id(octets)?;
    Ok((Frame::Outcome { id }, rest))
}

/// The frame that says that it was done, or how many messages were given, from the fields after its
/// kind, and what follows them.
#[tactic(auto, unfolding(crate::specs::inside::FrameReading::fields_at, ts_codec::specs::Reading::of_kind))]
fn done(octets: &[u8]) -> Result<(Frame, &[u8]), ReadFault>
    ensures { Gives (λ x. (x.0, x.1.now)) result (fields_at 0x20 octets.now) }
{
    let (count, rest) = number32(octets)?;
    Ok((Frame::Done { count }, rest))
}

/// The frame that carries an answer, from the fields after its kind, and what follows them.
#[tactic(auto, unfolding(crate::specs::inside::FrameReading::fields_at, ts_codec::specs::Reading::of_kind))]
fn answer_frame(alloc: Global, octets: &[u8]) -> Result<(Frame, &[u8]), ReadFault>
    ensures { Gives (λ x. (x.0, x.1.now)) result (fields_at 0x23 octets.now) }
{
    let (answer, rest) = Answer::read_front(alloc, octets)?;
    Ok((Frame::Answer { answer }, rest))
}

/// The frame that says how many commands are known, from the fields after its kind, and what
/// follows them.
#[tactic(auto, unfolding(crate::specs::inside::FrameReading::fields_at, ts_codec::specs::Reading::of_kind))]
fn known(octets: &[u8]) -> Result<(Frame, &[u8]), ReadFault>
    ensures { Gives (λ x. (x.0, x.1.now)) result (fields_at 0x27 octets.now) }
{
    let (prefix, rest) = prefix(octets)?;
    Ok((Frame::Prefix { prefix }, rest))
}

/// The text of a report, which is copied.
#[tactic(auto, unfolding(crate::specs::inside::FrameReading::fields_at, ts_codec::specs::Reading::of_kind))]
fn report_frame(alloc: Global, octets: &[u8]) -> Result<(Frame, &[u8]), ReadFault>
    ensures { Gives (λ x. (x.0, x.1.now)) result (fields_at 0x29 octets.now) }
{
    let (content, rest) = blob32(octets)?;
    let text = Octets::copy_of(alloc, content)?;
    Ok((Frame::Reported { text }, rest))
}

/// Whether frames are of this kind.
pub(crate) fn is_kind(kind: u8) -> bool
    ensures { result ≡ is_kind kind }
{
    (0x01 <= kind && kind <= 0x07)
        || (0x10 <= kind && kind <= 0x18)
        || (0x20 <= kind && kind <= 0x29)
}

/// The fields of a frame of this kind, and what follows them.
#[tactic(auto, unfolding(crate::specs::inside::FrameReading::fields_at, ts_codec::specs::Reading::of_kind))]
pub(crate) fn fields(alloc: Global, kind: u8, octets: &[u8]) -> Result<(Frame, &[u8]), ReadFault>
    ensures { Gives (λ x. (x.0, x.1.now)) result (fields_at kind octets.now) }
{
    match kind {
        0x01 => prepare(octets),
        0x02 => promise(alloc, octets),
        0x03 => busy(octets),
        0x04 => accept(alloc, octets),
        0x05 => accepted_message(alloc, octets),
        0x06 => ask(octets),
        0x07 => give(alloc, octets),
        0x10 => submit(alloc, octets),
        0x11 => question_frame(alloc, octets),
        0x12 => Ok((Frame::Take, octets)),
        0x13 => inquiry(octets),
        0x14 => Ok((Frame::CatchUp, octets)),
        0x15 => Ok((Frame::Status, octets)),
        0x16 => Ok((Frame::Compact, octets)),
        0x17 => Ok((Frame::Identify, octets)),
        0x18 => Ok((Frame::Report, octets)),
        0x20 => done(octets),
        0x21 => started_frame(octets),
        0x22 => settled_frame(octets),
        0x23 => answer_frame(alloc, octets),
        0x24 => Ok((Frame::Unknown, octets)),
        0x25 => node_fault(octets),
        0x26 => frame_fault(octets),
        0x27 => known(octets),
        0x28 => identity(octets),
        0x29 => report_frame(alloc, octets),
        _ => Err(ReadFault::Form),
    }
}
