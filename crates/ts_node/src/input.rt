//! What reaches a node, and what it answers.

use ts_record::Progress;
use ts_synod::{Ballot, Message};

/// What reaches a node.
#[derive(Drop)]
pub enum Input<C, Q> {
    /// A message of a node.
    Deliver(Message<C>),
    /// A command of a client.
    Submit(C),
    /// A question of a client, about the state after the first k commands, or after all that are
    /// learned without a gap.
    Ask { k: Option<u32>, question: Q },
    /// A client asks for the outcome of the command with this id.
    Outcome([u8; 16]),
    /// The node is to ask the others for what it has not learned.
    CatchUp,
    /// A client asks how many commands are learned without a gap.
    Status,
    /// One step of a rewrite of the record.
    Compact,
}

/// The reply to an input.
#[derive(Drop)]
pub enum Reply<O, A> {
    Done,
    /// A round began for the command.
    Started { position: u32, ballot: Ballot },
    /// The first command with the id is learned at this position.
    Settled { position: u32, outcome: O },
    /// No command with the id is learned without a gap before it.
    Unknown,
    /// Only so many commands are learned without a gap, and k is more.
    NotYet { k: u32, prefix: u32 },
    Answered { k: u32, answer: A },
    Prefix(u32),
    Compacted(Progress),
}

/// What a node sends, and what it answers.
#[derive(Drop)]
pub struct Output<C, O, A> {
    pub messages: Vec<Message<C>>,
    pub reply: Reply<O, A>,
}
