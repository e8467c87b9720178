//! One frame is answered, in octets that are handed on later.

ghost use Rattle.std.specs.Prelude.{◌≡◌, Some, IfOk};
ghost use Rattle.ts_question.specs.Question.{StoreQuestion};
ghost use Rattle.ts_node.specs.Machine.{store_of};
ghost use Rattle.ts_node.specs.Ahead.{IsAhead};
ghost use Rattle.ts_node.specs.Node.{IsSound};
ghost use Rattle.ts_command.specs.Octets.{octets_of as command_octets};
ghost use Rattle.ts_wire.specs.Frames.{FrameFits};
ghost use Rattle.ts_serve.specs.Requests.{is_request};
ghost use Rattle.ts_serve.specs.Text.{fault_frames, text};
ghost use Rattle.ts_serve.specs.Turn.{IsReady, StagedTurn, ServerTurn, TurnBy};
ghost use Rattle.ts_serve.specs.Answering.{AnswersFrame};

use crate::sending::octets_of;
use crate::server::Server;
use std::alloc::{AllocError, Global};
use ts_command::{Command, Outcome};
use ts_disk::Disk;
use ts_node::Machine;
use ts_question::{Answer, Question};
use ts_wire::{Frame, FrameFault};

/// Why a frame has no answer that can be handed on.
#[derive(Clone, Copy, Debug, PartialEq, Eq)]
pub enum AnswerFault {
    /// The frame is no request, and nothing was done.
    NoRequest,
    /// The request was taken, and memory was refused for its answers.
    Memory,
}

/// Whether a frame is a request: one of kind 01 to 07 or 10 to 18.
pub fn is_request(frame: &Frame) -> bool
    ensures { result ≡ is_request frame.now }
{
    match frame {
        Frame::Done { .. }
        | Frame::Started { .. }
        | Frame::Settled { .. }
        | Frame::Answer { .. }
        | Frame::Unknown
        | Frame::NodeFault { .. }
        | Frame::FrameFault { .. }
        | Frame::Prefix { .. }
        | Frame::Identity { .. }
        | Frame::Reported { .. } => false,
        _ => true,
    }
}

/// The octets that answer a wrong frame: a FrameFault with this fault.
///
/// # Errors
///
/// Memory that is refused.
pub fn refusal(alloc: Global, fault: FrameFault) -> Result<Vec<u8>, AllocError>
    ensures { IfOk result (λ octets. octets.items ≡ text (fault_frames (Some fault))) }
{
    let frame = Frame::FrameFault { fault };
    let octets = octets_of(alloc, &frame);
    drop(frame);
    match octets {
        Ok(octets) => Ok(octets),
        Err(_) => Err(AllocError),
    }
}

impl<D: Disk, M: Machine<Command, Outcome = Outcome, Question = Question, Answer = Answer>> Server<
    D,
    M,
> {
    /// The text of the answers to one frame.
    fn text_of(&mut self, staged: bool, frame: Frame) -> Result<Vec<u8>, AnswerFault>
        requires ready { IsReady D.state M.commands staged self.old.node self.old.staged }
        requires fits { FrameFits frame }
        ensures answers { AnswersFrame (TurnBy D.state
            (store_of StoreQuestion M.client_id M.outcome) M.basis M.is_answer staged) self.old
            frame
            result self.new }
        ensures ready { IsReady D.state M.commands staged self.new.node self.new.staged }
    {
        if !is_request(&frame) {
            drop(frame);
            return Err(AnswerFault::NoRequest);
        }
        let mut octets = Vec::new(self.allocator());
        match self.answer(staged, frame, &mut octets) {
            Ok(()) => Ok(octets),
            Err(_) => Err(AnswerFault::Memory),
        }
    }

    /// Answers one frame, as `serve` does, and gives the text of the answers.
    ///
    /// # Errors
    ///
    /// `NoRequest` where the frame is no request; `Memory` where the answers are lost.
    pub fn answer_frame(&mut self, frame: Frame) -> Result<Vec<u8>, AnswerFault>
        requires sound { IsSound D.state command_octets M.commands self.old.node }
        requires fits { FrameFits frame }
        ensures answers { AnswersFrame (ServerTurn D.state
            (store_of StoreQuestion M.client_id M.outcome) M.basis M.is_answer) self.old frame
            result self.new }
        ensures sound { IsSound D.state command_octets M.commands self.new.node }
    {
        self.text_of(false, frame)
    }

    /// Answers one frame, but that the node takes it in memory. **The text must not leave before
    /// [`Server::keep_staged`] has kept what waits.**
    ///
    /// # Errors
    ///
    /// As those of `answer_frame`.
    pub fn stage_frame(&mut self, frame: Frame) -> Result<Vec<u8>, AnswerFault>
        requires ahead { IsAhead D.state command_octets M.commands self.old.node self.old.staged }
        requires fits { FrameFits frame }
        ensures answers { AnswersFrame (StagedTurn D.state
            (store_of StoreQuestion M.client_id M.outcome) M.basis M.is_answer) self.old frame
            result self.new }
        ensures ahead { IsAhead D.state command_octets M.commands self.new.node self.new.staged }
    {
        self.text_of(true, frame)
    }
}
