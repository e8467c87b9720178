//! Requests are written, and answers read.

ghost use Rattle.std.specs.Prelude.{◌≡◌, ◌≤◌, ◌+◌, None, IfOk, IfErr, MatchResult, length};
ghost use Rattle.std.specs.Prelude.{string_bytes};
ghost use Rattle.ts_wire.specs.Frames.{FrameFits, frame_encoding, frame_fields};
ghost use Rattle.ts_wire.specs.declared.frame.Frame.TheVariants.{Answer as AnswerFrame};
ghost use Rattle.ts_exchange.specs.Answers.{IsNoAnswer, IsOther, IsTooLong, fault_in};
ghost use Rattle.ts_exchange.specs.Lines.{ask_words};

use crate::fault::ExchangeFault;
use std::alloc::{AllocError, Global};
use ts_question::Answer;
use ts_show::reply_text;
use ts_wire::{Feed, FeedError, Frame, FrameFault, WriteError, write_frame};

/// The octets of a request.
///
/// # Errors
///
/// `Frame(Length)` exactly where they are more than a frame may have; `Memory`.
pub fn request_octets(alloc: Global, request: &Frame) -> Result<Vec<u8>, ExchangeFault>
    ensures encoded { IfOk result (λ octets. octets.items ≡ frame_encoding request.now) }
    ensures short { IfOk result (λ _. 2 + length (frame_fields request.now) ≤ 8388608) }
    ensures fault { IfErr result (IsTooLong request.now) }
{
    let mut octets = Vec::new(alloc);
    match write_frame(alloc, &mut octets, request) {
        Ok(()) => Ok(octets),
        Err(WriteError::Memory) => Err(ExchangeFault::Memory),
        Err(WriteError::Length) => Err(ExchangeFault::Frame(FrameFault::Length)),
    }
}

/// The fault that a frame says, if it says one.
fn fault_in(frame: &Frame) -> Option<ExchangeFault>
    ensures { result ≡ fault_in frame.now }
{
    match frame {
        Frame::NodeFault { fault } => Some(ExchangeFault::Node(*fault)),
        Frame::FrameFault { fault } => Some(ExchangeFault::Frame(*fault)),
        _ => None,
    }
}

/// The one frame that octets are with which a peer answers a request.
///
/// # Errors
///
/// `Cut` where they are less than a frame; `Frame` with what is in a frame's place, or with what
/// the peer says of the request, and `Trailing` where more follows the frame; `Node` with the fault
/// of a node; `Memory`.
pub fn answer_in(alloc: Global, octets: &[u8]) -> Result<Frame, ExchangeFault>
    ensures answered { IfOk result (λ frame. FrameFits frame
        × (octets.now ≡ frame_encoding frame) × (fault_in frame ≡ None)) }
    ensures fault { IfErr result (IsNoAnswer octets.now) }
{
    let mut feed = Feed::new(alloc);
    feed.push(octets)?;
    let frame = match feed.take() {
        Ok(Some(frame)) => frame,
        Ok(None) => return Err(ExchangeFault::Cut),
        Err(FeedError::Frame(fault)) => return Err(ExchangeFault::Frame(fault)),
        Err(FeedError::Memory) => return Err(ExchangeFault::Memory),
    };
    let fault = match fault_in(&frame) {
        Some(fault) => fault,
        None if feed.is_empty() => return Ok(frame),
        None => ExchangeFault::Frame(FrameFault::Trailing),
    };
    drop(frame);
    Err(fault)
}

/// The answer to a question that a frame carries.
///
/// # Errors
///
/// `Frame(Kind)` exactly where the frame is another one.
pub fn answer_to_question(frame: Frame) -> Result<Answer, ExchangeFault>
    ensures { MatchResult result (λ answer. frame ≡ AnswerFrame answer) (IsOther frame) }
{
    match frame {
        Frame::Answer { answer } => Ok(answer),
        other => {
            drop(other);
            Err(ExchangeFault::Frame(FrameFault::Kind))
        }
    }
}

/// The line that says what a question is answered.
///
/// # Errors
///
/// Out of memory.
pub fn ask_line(alloc: Global, answer: &Answer) -> Result<String, AllocError>
    ensures { IfOk result (λ line. string_bytes line ≡ ask_words answer.now) }
{
    let k = answer.k();
    let reply = reply_text(alloc, answer.reply())?;
    format!(in alloc; "ask {k} {reply}\n")
}
