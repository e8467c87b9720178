//! The frames that a carrier writes and reads. A frame is let go by `drop`: one that goes out of
//! scope by itself is taken apart there, kind by kind, which makes a proof many times as long.

ghost use Rattle.std.specs.Prelude.{◌≡◌, ℕ, true, IfSome};
ghost use Rattle.ts_command.specs.declared.outcome.Outcome.{Outcome as CommandOutcome};
ghost use Rattle.ts_wire.specs.Frames.{frame_encoding};
ghost use Rattle.ts_wire.specs.declared.frame.Frame.TheVariants.{Answer as AnswerFrame, Peer};
ghost use Rattle.ts_wire.specs.declared.frame.Frame.TheVariants.{Prefix, Settled};
ghost use Rattle.ts_peers.specs.Frames.{AsksOutcome, BeginWithMessages, BeginsWith};

use std::alloc::Global;
use ts_command::Command;
use ts_question::Answer;
use ts_serve::MAX_WAITING;
use ts_synod::Message;
use ts_wire::{Feed, Frame, write_frame};

/// The octets of a frame. `None` where memory is refused, or it would be too long.
pub(crate) fn octets_of(alloc: Global, frame: Frame) -> Option<Vec<u8>>
    ensures { IfSome result (λ octets. octets.items ≡ frame_encoding frame) }
{
    let mut octets = Vec::new(alloc);
    let written = write_frame(alloc, &mut octets, &frame);
    drop(frame);
    written.ok()?;
    Some(octets)
}

/// The first frame of octets, if it is whole.
pub fn first_of(alloc: Global, octets: &[u8]) -> Option<Frame>
    ensures { IfSome result (BeginsWith octets.now) }
{
    let mut feed = Feed::new(alloc);
    feed.push(octets).ok()?;
    feed.take().ok()?
}

/// The message that a frame has.
fn message_of(frame: Frame) -> Option<Message<Command>>
    ensures { IfSome result (λ message. frame ≡ Peer message) }
{
    match frame {
        Frame::Peer(message) => Some(message),
        other => {
            drop(other);
            None
        }
    }
}

/// The messages that octets begin with, as a server gives them: at most so many as wait at a node.
pub(crate) fn messages_in(alloc: Global, octets: &[u8]) -> Vec<Message<Command>>
    ensures { BeginWithMessages octets.now result.items }
{
    let mut messages = Vec::new(alloc);
    let mut feed = Feed::new(alloc);
    if feed.push(octets).is_err() {
        return messages;
    }
    for _frame in 0..MAX_WAITING {
        let Ok(Some(frame)) = feed.take() else {
            return messages;
        };
        let Some(message) = message_of(frame) else {
            return messages;
        };
        if messages.push(message).is_err() {
            return messages;
        }
    }
    messages
}

/// How many commands the answer to Status says are known.
pub(crate) fn prefix_of(alloc: Global, answer: &[u8]) -> Option<u32>
    ensures { IfSome result (λ prefix. BeginsWith answer.now (Prefix prefix)) }
{
    let frame = first_of(alloc, answer)?;
    let prefix = match &frame {
        Frame::Prefix { prefix } => Some(*prefix),
        _ => None,
    };
    drop(frame);
    prefix
}

/// The answer that octets begin with.
pub(crate) fn answer_in(alloc: Global, octets: &[u8]) -> Option<Answer>
    ensures { IfSome result (λ answer. BeginsWith octets.now (AnswerFrame answer)) }
{
    match first_of(alloc, octets)? {
        Frame::Answer { answer } => Some(answer),
        other => {
            drop(other);
            None
        }
    }
}

/// The question what became of the command that a frame submits.
pub(crate) fn outcome_of(alloc: Global, submit: &[u8]) -> Option<Vec<u8>>
    ensures { IfSome result (λ octets. AsksOutcome submit.now octets.items) }
{
    let frame = first_of(alloc, submit)?;
    let id = match &frame {
        Frame::Submit { command } => Some(command.id()),
        _ => None,
    };
    drop(frame);
    octets_of(alloc, Frame::Outcome { id: id? })
}

/// Whether an answer says that a command is at a position.
pub(crate) fn is_settled(alloc: Global, answer: &[u8]) -> bool
    ensures { result ≡ true → (position : ℕ) × (outcome : CommandOutcome)
        × BeginsWith answer.now (Settled position outcome) }
{
    let frame = first_of(alloc, answer);
    let is_settled = matches!(&frame, Some(Frame::Settled { .. }));
    drop(frame);
    is_settled
}
