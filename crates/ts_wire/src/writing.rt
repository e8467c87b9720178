//! Frames are written.

ghost use Rattle.std.specs.Prelude.{◌≡◌, ◌≤◌, ◌<◌, ◌+◌, ◌++◌, ◌∷◌, length, IfOk, OnOk, OnErr, Err};
ghost use Rattle.std.specs.Int.{to_be_bytes, w32, w64};
ghost use Rattle.ts_codec.specs.Parts.{blob32};
ghost use Rattle.ts_command.specs.Commands.{command_encoding as command_octets};
ghost use Rattle.ts_question.specs.Question.{question_encoding as question_octets};
ghost use Rattle.ts_wire.specs.Outcomes.{outcome_encoding};
ghost use Rattle.ts_wire.specs.Frames.{body_kind, frame_kind, taken_encoding, body_encoding};
ghost use Rattle.ts_wire.specs.Frames.{frame_fields};
ghost use Rattle.ts_wire.specs.Frames.{frame_encoding};
ghost use Rattle.ts_wire.specs.declared.wire_error.WriteError.TheVariants.{Length};

use crate::fault::code_of;
use crate::frame::Frame;
use crate::wire_error::WriteError;
use std::alloc::{AllocError, Global};
use ts_codec::writing::{push_blob32, push_number32, push_number64};
use ts_command::{Command, Outcome};
use ts_octets::Octets;
use ts_question::Question;
use ts_synod::{Body, Vote};

/// The most octets after a frame's length.
pub const MAX_LENGTH: usize = 8_388_608;

/// Writes a command's encoding behind its length in four octets.
fn push_command(alloc: Global, out: &mut Vec<u8>, command: &Command) -> Result<(), AllocError>
    ensures { OnOk result (out.new.items ≡ out.old.items ++ blob32 (command_octets command.now)) }
{
    let octets = command.octets(alloc)?;
    push_blob32(out, octets.as_slice())
}

/// Writes a question's encoding behind its length in four octets.
fn push_question(alloc: Global, out: &mut Vec<u8>, question: &Question) -> Result<(), AllocError>
    ensures { OnOk result (out.new.items ≡ out.old.items ++ blob32 (question_octets question.now)) }
{
    let _ = question.target();
    let octets = question.octets(alloc)?;
    push_blob32(out, octets.as_slice())
}

/// Writes the vote that a promise reports behind an octet 1, or an octet 0 where it reports none.
#[tactic(auto, using(crate::proofs::Joins::two, crate::proofs::Joins::behind))]
fn push_taken(
    alloc: Global,
    out: &mut Vec<u8>,
    taken: &Option<Vote<Command>>,
) -> Result<(), AllocError>
    ensures { OnOk result (out.new.items ≡ out.old.items ++ taken_encoding taken.now) }
{
    match taken {
        None => out.push(0)?,
        Some(vote) => {
            out.push(1)?;
            push_number64(out, vote.ballot)?;
            push_command(alloc, out, &vote.command)?;
        }
    }
    Ok(())
}

/// The kind of the frame of a message with this body.
fn body_kind(body: &Body<Command>) -> u8
    ensures { result ≡ body_kind body.now }
{
    match body {
        Body::Prepare { .. } => 0x01,
        Body::Promise { .. } => 0x02,
        Body::Busy { .. } => 0x03,
        Body::Accept { .. } => 0x04,
        Body::Accepted { .. } => 0x05,
        Body::Ask { .. } => 0x06,
        Body::Give { .. } => 0x07,
    }
}

/// Writes the fields of a message's body, in the order in which they are read.
#[tactic(auto, using(crate::proofs::Joins::two, crate::proofs::Joins::three))]
fn push_body(alloc: Global, out: &mut Vec<u8>, body: &Body<Command>) -> Result<(), AllocError>
    ensures { OnOk result (out.new.items ≡ out.old.items ++ body_encoding body.now) }
{
    match body {
        Body::Prepare { position, ballot } => {
            push_number32(out, *position)?;
            push_number64(out, *ballot)?;
        }
        Body::Promise {
            position,
            ballot,
            taken,
        } => {
            push_number32(out, *position)?;
            push_number64(out, *ballot)?;
            push_taken(alloc, out, taken)?;
        }
        Body::Busy {
            position,
            ballot,
            promised,
        } => {
            push_number32(out, *position)?;
            push_number64(out, *ballot)?;
            push_number64(out, *promised)?;
        }
        Body::Accept {
            position,
            ballot,
            command,
        } => {
            push_number32(out, *position)?;
            push_number64(out, *ballot)?;
            push_command(alloc, out, command)?;
        }
        Body::Accepted {
            position,
            ballot,
            command,
        } => {
            push_number32(out, *position)?;
            push_number64(out, *ballot)?;
            push_command(alloc, out, command)?;
        }
        Body::Ask { position } => push_number32(out, *position)?,
        Body::Give { position, command } => {
            push_number32(out, *position)?;
            push_command(alloc, out, command)?;
        }
    }
    Ok(())
}

/// Writes an outcome: its form, and the position of a repeated command or the code of a refusal.
fn push_outcome(out: &mut Vec<u8>, outcome: Outcome) -> Result<(), AllocError>
    ensures { OnOk result (out.new.items ≡ out.old.items ++ outcome_encoding outcome) }
{
    match outcome {
        Outcome::Applied => out.push(0)?,
        Outcome::Repeated(position) => {
            out.push(1)?;
            push_number32(out, position)?;
        }
        Outcome::Refused(refusal) => {
            out.push(2)?;
            out.push(refusal.code())?;
        }
    }
    Ok(())
}

/// The kind of a frame.
fn kind_of(frame: &Frame) -> u8
    ensures { result ≡ frame_kind frame.now }
{
    match frame {
        Frame::Peer(message) => body_kind(&message.body),
        Frame::Submit { .. } => 0x10,
        Frame::Question { .. } => 0x11,
        Frame::Take => 0x12,
        Frame::Outcome { .. } => 0x13,
        Frame::CatchUp => 0x14,
        Frame::Status => 0x15,
        Frame::Compact => 0x16,
        Frame::Identify => 0x17,
        Frame::Report => 0x18,
        Frame::Done { .. } => 0x20,
        Frame::Started { .. } => 0x21,
        Frame::Settled { .. } => 0x22,
        Frame::Answer { .. } => 0x23,
        Frame::Unknown => 0x24,
        Frame::NodeFault { .. } => 0x25,
        Frame::FrameFault { .. } => 0x26,
        Frame::Prefix { .. } => 0x27,
        Frame::Identity { .. } => 0x28,
        Frame::Reported { .. } => 0x29,
    }
}

/// Writes a text as a blob. One of 2^32 octets or more, which no frame can have, is refused as if
/// memory were.
fn push_text(out: &mut Vec<u8>, text: &Octets) -> Result<(), AllocError>
    ensures { OnOk result (out.new.items ≡ out.old.items ++ blob32 text.now) }
{
    let octets = text.as_slice();
    if octets.len() >= 1 << 32 {
        return Err(AllocError);
    }
    push_blob32(out, octets)
}

/// Writes the fields of a frame, which follow its kind.
#[tactic(auto, using(crate::proofs::Joins::two))]
fn push_fields(alloc: Global, out: &mut Vec<u8>, frame: &Frame) -> Result<(), AllocError>
    ensures { OnOk result (out.new.items ≡ out.old.items ++ frame_fields frame.now) }
{
    match frame {
        Frame::Peer(message) => {
            out.push(message.from)?;
            out.push(message.to)?;
            push_body(alloc, out, &message.body)?;
        }
        Frame::Submit { command } => push_command(alloc, out, command)?,
        Frame::Question { question } => push_question(alloc, out, question)?,
        Frame::Outcome { id } => out.extend_from_slice(id)?,
        Frame::Done { count } => push_number32(out, *count)?,
        Frame::Started { position, ballot } => {
            push_number32(out, *position)?;
            push_number64(out, *ballot)?;
        }
        Frame::Settled { position, outcome } => {
            push_number32(out, *position)?;
            push_outcome(out, *outcome)?;
        }
        Frame::Answer { answer } => answer.write(out)?,
        Frame::NodeFault { fault } => out.push(code_of(*fault))?,
        Frame::FrameFault { fault } => out.push(fault.code())?,
        Frame::Prefix { prefix } => push_number32(out, *prefix)?,
        Frame::Identity { node, nodes, group } => {
            out.push(*node)?;
            out.push(*nodes)?;
            push_number32(out, *group)?;
        }
        Frame::Reported { text } => push_text(out, text)?,
        Frame::Take
        | Frame::CatchUp
        | Frame::Status
        | Frame::Compact
        | Frame::Identify
        | Frame::Report
        | Frame::Unknown => {}
    }
    Ok(())
}

/// What follows a frame's length: the version, the kind and the fields.
fn body_of(alloc: Global, frame: &Frame) -> Result<Vec<u8>, AllocError>
    ensures { IfOk result (λ body. body.items ≡ 2 ∷ frame_kind frame.now ∷ frame_fields frame.now) }
{
    let mut body = Vec::new(alloc);
    body.push(2)?;
    body.push(kind_of(frame))?;
    push_fields(alloc, &mut body, frame)?;
    Ok(body)
}

/// Writes a length and what it is of, or nothing.
fn append(alloc: Global, out: &mut Vec<u8>, size: [u8; 4], body: &[u8]) -> Result<(), AllocError>
    ensures ok { OnOk result (out.new.items ≡ out.old.items ++ (size ++ body.now)) }
    ensures unchanged { OnErr result (out.new.items ≡ out.old.items) }
{
    let mut whole = Vec::from_slice(alloc, &size)?;
    whole.extend_from_slice(body)?;
    out.extend_from_slice(whole.as_slice())?;
    Ok(())
}

/// Writes the octets of the frame, which are its one encoding, after others.
///
/// # Errors
///
/// `Length` exactly where the frame's length would be above 8,388,608, and else only out of memory.
/// Nothing is written then.
pub fn write_frame(alloc: Global, out: &mut Vec<u8>, frame: &Frame) -> Result<(), WriteError>
    ensures encoded { OnOk result (out.new.items ≡ out.old.items ++ frame_encoding frame.now) }
    ensures short { OnOk result (2 + length (frame_fields frame.now) ≤ 8388608) }
    ensures length { result ≡ Err Length → 8388608 < 2 + length (frame_fields frame.now) }
    ensures unchanged { OnErr result (out.new.items ≡ out.old.items) }
{
    let body = body_of(alloc, frame)?;
    if body.len() > MAX_LENGTH {
        return Err(WriteError::Length);
    }
    append(
        alloc,
        out,
        (body.len() as u32).to_be_bytes(),
        body.as_slice(),
    )?;
    Ok(())
}
