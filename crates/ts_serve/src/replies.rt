//! A node's replies and faults as frames.

ghost use Rattle.std.specs.Prelude.{◌≡◌, ◌≤◌, ◌<◌, ◌||◌, IfOk};
ghost use Rattle.ts_question.specs.Reply.{numbered_reply};
ghost use Rattle.ts_question.specs.declared.reply.Reply.TheVariants.{NotYet};
ghost use Rattle.ts_wire.specs.declared.frame.Frame.TheVariants.{Answer as AnswerFrame};
ghost use Rattle.ts_serve.specs.Replies.{HasFrame, answer_to, is_failure, messages_of, reply_frame};

use std::alloc::Global;
use ts_command::{Command, Outcome};
use ts_node::{Output, Reply};
use ts_question::{Answer, Reply as Said};
use ts_record::Progress;
use ts_synod::{Message, NodeFault};
use ts_wire::Frame;

/// The answer that only so many commands are known.
fn not_yet(k: u32, prefix: u32) -> Frame
    requires k { k ≤ 1000000 }
    requires prefix { prefix < k }
    ensures { result ≡ AnswerFrame (numbered_reply k (NotYet prefix)) }
{
    match Answer::new(k, Said::NotYet { prefix }) {
        Ok(answer) => Frame::Answer { answer },
        Err(_) => unreachable!(),
    }
}

/// The frame that carries a node's reply.
fn frame_of(reply: Reply<Outcome, Answer>) -> Frame
    requires { HasFrame reply }
    ensures { result ≡ reply_frame reply }
{
    match reply {
        Reply::Done => Frame::Done { count: 0 },
        Reply::Started { position, ballot } => Frame::Started { position, ballot },
        Reply::Settled { position, outcome } => Frame::Settled { position, outcome },
        Reply::Unknown => Frame::Unknown,
        Reply::NotYet { k, prefix } => not_yet(k, prefix),
        Reply::Answered { answer, .. } => Frame::Answer { answer },
        Reply::Prefix(prefix) => Frame::Prefix { prefix },
        Reply::Compacted(Progress::Working) => Frame::Done { count: 0 },
        Reply::Compacted(Progress::Switched) => Frame::Done { count: 1 },
    }
}

/// Whether a device has failed, in this call or in an earlier one.
pub(crate) fn failed_then<T>(failed: bool, called: &Result<T, NodeFault>) -> bool
    ensures { result ≡ (failed || is_failure called.now) }
{
    match called {
        Err(NodeFault::DiskFailed | NodeFault::Broken) => true,
        _ => failed,
    }
}

/// The frame that answers a call of a node, and the call's messages.
pub(crate) fn answer_of(
    alloc: Global,
    called: Result<Output<Command, Outcome, Answer>, NodeFault>,
) -> (Frame, Vec<Message<Command>>)
    requires { IfOk called (λ output. HasFrame output.reply) }
    ensures frame { result.0 ≡ answer_to called }
    ensures messages { result.1.items ≡ messages_of called }
{
    match called {
        Ok(output) => (frame_of(output.reply), output.messages),
        Err(fault) => (Frame::NodeFault { fault }, Vec::new(alloc)),
    }
}
