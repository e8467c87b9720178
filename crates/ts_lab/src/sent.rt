//! Messages that were sent.

ghost use Rattle.ts_lab.specs.inside.Member.{InputIsFit};

use crate::member::NodeInput;
use std::marker::Model;
use ts_answer::is_deliverable;
use ts_command::Command;
use ts_node::Input;
use ts_synod::Message;

/// A message that a node may be sent.
#[derive(Drop)]
pub(crate) struct Deliverable {
    input: NodeInput,
}

impl Model for Deliverable {
    ghost use Rattle.std.specs.Prelude.{ℕ};
    ghost use Rattle.ts_lab.specs.inside.Member.{InputIsFit};

    // No contract speaks of its content.
    ghost Value = { ℕ };

    ghost view = { λ _. 0 };

    ghost invariant = { λ d. InputIsFit d.input };
}

impl Deliverable {
    /// A message as what reaches a node. `None` for one that no node may be sent, which no node
    /// sends.
    fn new(message: Message<Command>) -> Option<Deliverable> {
        if !is_deliverable(&message) {
            return None;
        }
        Some(Deliverable {
            input: Input::Deliver(message),
        })
    }

    /// What reaches the node.
    pub fn input(&self) -> &NodeInput
        ensures { InputIsFit result.now }
    {
        &self.input
    }
}

/// A message that was sent.
#[derive(Drop)]
pub(crate) struct SentMessage {
    pub to: u8,
    pub message: Deliverable,
    pub is_delivered: bool,
}

impl SentMessage {
    /// A message that is not delivered yet. `None` for one that no node may be sent.
    pub fn new(message: Message<Command>) -> Option<SentMessage> {
        let to = message.to;
        let message = Deliverable::new(message)?;
        Some(SentMessage {
            to,
            message,
            is_delivered: false,
        })
    }
}
