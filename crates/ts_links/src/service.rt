//! What takes requests.

ghost use Rattle.std.specs.Prelude.{◌≡◌, List, true};
ghost use Rattle.ts_question.specs.Question.{StoreQuestion};
ghost use Rattle.ts_node.specs.Machine.{store_of};
ghost use Rattle.ts_node.specs.Ahead.{IsAhead};
ghost use Rattle.ts_command.specs.Octets.{octets_of};
ghost use Rattle.ts_wire.specs.Frames.{FrameFits};
ghost use Rattle.ts_wire.specs.declared.frame.Frame.{Frame as Request};
ghost use Rattle.ts_serve.specs.Answering.{AnswersFrame};
ghost use Rattle.ts_serve.specs.Turn.{HasKept, IsSettled, StagedTurn};

use ts_command::{Command, Outcome};
use ts_disk::Disk;
use ts_node::Machine;
use ts_question::{Answer, Question};
use ts_serve::{AnswerFault, Server};
use ts_wire::Frame;

/// What takes requests one after another, and answers each.
pub trait Service {
    /// It can take a request.
    ghost is_ready: { Self → Type 0 };

    /// From the first state a request is answered so, on the way to the second.
    ghost turn: { Self → Request → List Request → Self → Type 0 };

    /// What was answered may leave: what followed from it is on disk.
    ghost is_kept: { Self → Type 0 };

    /// From the first state to the second it has tried to keep what was answered.
    ghost keeps: { Self → Self → Type 0 };

    /// Answers a frame, and gives the text of the answers, which must not leave before `keep`.
    ///
    /// # Errors
    ///
    /// `NoRequest` where the frame is no request, and nothing changes; `Memory` where the request
    /// was taken, and its answers are lost.
    fn answer(&mut self, frame: Frame) -> Result<Vec<u8>, AnswerFault>
        requires ready { is_ready self.old }
        requires fits { FrameFits frame }
        ensures answers { AnswersFrame turn self.old frame result self.new }
        ensures ready { is_ready self.new };

    /// Keeps what followed from the requests that were answered, so that the answers may leave.
    /// `false` where it failed: nothing that was answered since the last time may leave then.
    fn keep(&mut self) -> bool
        requires ready { is_ready self.old }
        ensures keeps { keeps self.old self.new }
        ensures kept { result ≡ true → is_kept self.new }
        ensures ready { is_ready self.new };

    /// Keeps a text about how it does, for whoever asks for a report. Nothing else changes.
    fn note(&self, text: &[u8]);
}

impl<D: Disk, M: Machine<Command, Outcome = Outcome, Question = Question, Answer = Answer>> Service
    for Server<D, M> {
    ghost is_ready = { λ server. IsAhead D.state octets_of M.commands server.node server.staged };

    ghost turn = { StagedTurn D.state (store_of StoreQuestion M.client_id M.outcome) M.basis
        M.is_answer };

    ghost is_kept = { λ server. IsSettled server };

    ghost keeps = { λ old new. HasKept D.state old new };

    fn answer(&mut self, frame: Frame) -> Result<Vec<u8>, AnswerFault> {
        self.stage_frame(frame)
    }

    fn keep(&mut self) -> bool {
        self.keep_staged()
    }

    /// Keeps the server's text.
    fn note(&self, text: &[u8]) {
        Server::note(self, text);
    }
}
