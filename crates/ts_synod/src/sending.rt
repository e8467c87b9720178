//! One body to many nodes.

ghost use Rattle.std.specs.Prelude.{◌≡◌, ◌≤◌, IfOk};
ghost use Rattle.ts_synod.specs.Messages.{broadcast, broadcast_to_others};

use crate::command::Command;
use crate::message::{Body, Message};
use std::alloc::{AllocError, Global};

/// A message to each of the nodes 1 to `nodes`.
#[tactic(auto, using(crate::proofs::OneMoreNode::broadcast_more))]
pub fn broadcast<C: Command>(
    alloc: Global,
    me: u8,
    nodes: u8,
    body: &Body<C>,
) -> Result<Vec<Message<C>>, AllocError>
    requires { nodes ≤ 9 }
    ensures { IfOk result (λ messages. messages.items ≡ broadcast me nodes body.now) }
{
    let mut messages = Vec::new(alloc);
    for node in 0..nodes {
        messages.push(Message {
            from: me,
            to: node + 1,
            body: body.try_copy(alloc)?,
        })?;
    }
    Ok(messages)
}

/// A message to each of the nodes 1 to `nodes` but `me`.
#[tactic(auto, using(crate::proofs::OneMoreNode::skips_me, crate::proofs::OneMoreNode::reaches_other))]
pub fn broadcast_to_others<C: Command>(
    alloc: Global,
    me: u8,
    nodes: u8,
    body: &Body<C>,
) -> Result<Vec<Message<C>>, AllocError>
    requires { nodes ≤ 9 }
    ensures { IfOk result (λ messages. messages.items ≡ broadcast_to_others me nodes body.now) }
{
    let mut messages = Vec::new(alloc);
    for other in 0..nodes {
        if other + 1 != me {
            messages.push(Message {
                from: me,
                to: other + 1,
                body: body.try_copy(alloc)?,
            })?;
        }
    }
    Ok(messages)
}
