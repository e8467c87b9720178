//! Frames.

use crate::fault::FrameFault;
use ts_command::{Command, Outcome};
use ts_octets::Octets;
use ts_question::{Answer, Question};
use ts_synod::{Ballot, Message, NodeFault};

/// What a stream carries, from one node to another, to a server or from it.
#[derive(Drop)]
pub enum Frame {
    /// A message from a node to a node.
    Peer(Message<Command>),
    /// A command is submitted.
    Submit { command: Command },
    /// A question is asked.
    Question { question: Question },
    /// The messages to other nodes are taken.
    Take,
    /// The outcome of the command of this id is asked for.
    Outcome { id: [u8; 16] },
    /// The node is to ask others for what it lacks.
    CatchUp,
    /// The number of known commands is asked for.
    Status,
    /// The node is to make one step of the rewriting of its record.
    Compact,
    /// Which node of which group it is, is asked for.
    Identify,
    /// How the server does is asked for.
    Report,
    /// It was done, or so many messages were given.
    Done { count: u32 },
    /// A round began for the command.
    Started { position: u32, ballot: Ballot },
    /// The command is at this position.
    Settled { position: u32, outcome: Outcome },
    /// The answer to a question.
    Answer { answer: Answer },
    /// No known command has the id.
    Unknown,
    /// The node could not handle the frame.
    NodeFault { fault: NodeFault },
    /// The octets that came are no frame: this is wrong with them.
    FrameFault { fault: FrameFault },
    /// So many commands are known.
    Prefix { prefix: u32 },
    /// The node, of how many, and its group; group 0 is none.
    Identity { node: u8, nodes: u8, group: u32 },
    /// How the server does, as a text.
    Reported { text: Octets },
}
