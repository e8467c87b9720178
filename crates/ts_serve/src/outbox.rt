//! Messages that wait to be taken.

ghost use Rattle.std.specs.Prelude.{◌≡◌, ◌≤◌, ◌++◌, ◌∷◌, [], map, take, length, IfOk};
ghost use Rattle.ts_wire.specs.declared.frame.Frame.TheVariants.{Peer};
ghost use Rattle.ts_serve.specs.inside.Outbox.{IsOutbox};

use std::alloc::{AllocError, Global};
use std::marker::Model;
use ts_command::Command;
use ts_synod::Message;
use ts_wire::Frame;

/// The most messages that wait.
pub const MAX_WAITING: usize = 256;

/// The messages of a node that wait to be taken, each in the frame that it is taken in. Contracts
/// see the messages.
#[derive(Drop)]
pub struct Outbox {
    frames: Vec<Frame>,
}

impl Model for Outbox {
    ghost use Rattle.std.specs.Prelude.{List};
    ghost use Rattle.ts_synod.specs.declared.message.Message.{Message};
    ghost use Rattle.ts_command.specs.declared.command.Command.{Command};

    ghost Value = { List (Message Command) };

    ghost use Rattle.ts_serve.specs.inside.Outbox.{messages_in, IsOutbox};

    ghost view = { λ o. messages_in o.frames.items };

    ghost invariant = { λ o. IsOutbox o.frames };
}

/// Puts a message after those that wait, if there is room.
fn put_one(frames: &mut Vec<Frame>, message: Message<Command>)
    requires { IsOutbox frames.old }
    ensures put { frames.new.items ≡ take 256 (frames.old.items ++ Peer message ∷ []) }
    ensures outbox { IsOutbox frames.new }
{
    let frame = Frame::Peer(message);
    if frames.len() < MAX_WAITING {
        frames.push_reserved(frame);
    } else {
        drop(frame);
    }
}

/// Puts messages after those that wait, while there is room.
fn put_behind(frames: &mut Vec<Frame>, messages: Vec<Message<Command>>)
    requires { IsOutbox frames.old }
    ensures put { frames.new.items ≡ take 256 (frames.old.items ++ map Peer messages.items) }
    ensures outbox { IsOutbox frames.new }
{
    for message in messages {
        put_one(frames, message);
    }
}

impl Outbox {
    /// An outbox with room for all the messages that it may hold.
    pub fn new(alloc: Global) -> Result<Outbox, AllocError>
        ensures { IfOk result (λ outbox. outbox ≡ []) }
    {
        let frames = Vec::with_capacity(alloc, MAX_WAITING)?;
        Ok(Outbox { frames })
    }

    /// Puts messages after those that wait. The first 256 stay, and the others are lost.
    pub fn put(&mut self, messages: Vec<Message<Command>>)
        ensures { self.new ≡ take 256 (self.old ++ messages.items) }
    {
        put_behind(&mut self.frames, messages);
    }

    /// The frames of the messages.
    pub fn frames(&self) -> &[Frame]
        ensures frames { result.now ≡ map Peer self.now }
        ensures few { length result.now ≤ 256 }
        ensures count { length result.now ≡ length self.now }
    {
        &self.frames
    }

    /// Lets all the messages go.
    pub fn clear(&mut self)
        ensures { self.new ≡ [] }
    {
        self.frames.clear();
    }
}
