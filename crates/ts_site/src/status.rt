//! What a node says of itself.

ghost use Rattle.std.specs.Prelude.{◌≡◌, IfOk, map};
ghost use Rattle.ts_json.specs.Answer.{whole};
ghost use Rattle.ts_json.specs.Members.{named_value};
ghost use Rattle.ts_site.specs.Frames.{prefix_in};
ghost use Rattle.ts_site.specs.Statuses.{EndsPrefix, TellsHealth, TellsStatus, status_members};
ghost use Rattle.ts_site.specs.Steps.{Answers, AsksNode};
ghost use Rattle.ts_wire.specs.declared.frame.Frame.TheVariants.{Status};

use crate::frames::prefix_in;
use crate::next::{Next, Waits, ask};
use crate::refusing::{node_failed, node_failed_line};
use std::alloc::{AllocError, Global};
use ts_api::{Response, identify_frame, status_frame};
use ts_json::{Member, Plain};
use ts_wire::Frame;

/// Asks how many commands the node knows.
pub(crate) fn ask_status(alloc: Global, waits: Waits) -> Result<Next, AllocError>
    ensures { IfOk result (AsksNode Status waits) }
{
    let frame = status_frame(alloc)?;
    Ok(ask(waits, frame))
}

/// Whether the node has answered.
pub(crate) fn end_health(alloc: Global, frame: &Frame) -> Result<Next, AllocError>
    ensures { IfOk result (Answers (TellsHealth (prefix_in frame.now))) }
{
    match prefix_in(frame) {
        Some(_) => Ok(Next::Tell(Response::line(alloc, 200, "ok")?)),
        None => Ok(Next::Tell(node_failed_line(alloc)?)),
    }
}

/// The node knows so many commands: it is asked which node it is.
pub(crate) fn end_prefix(alloc: Global, frame: &Frame) -> Result<Next, AllocError>
    ensures { IfOk result (EndsPrefix (prefix_in frame.now)) }
{
    match prefix_in(frame) {
        Some(prefix) => {
            let frame = identify_frame(alloc)?;
            Ok(ask(Waits::Identity(prefix), frame))
        }
        None => Ok(Next::Tell(node_failed(alloc)?)),
    }
}

/// A number as a member.
pub(crate) fn count(name: &'static str, number: u64) -> Member
    ensures { named_value result ≡ (name.now, whole number) }
{
    Member {
        name,
        value: Plain::Number(Some(number)),
    }
}

/// The members of a status.
fn members_of(
    alloc: Global,
    prefix: u32,
    node: u8,
    nodes: u8,
    group: u32,
) -> Result<Vec<Member>, AllocError>
    ensures { IfOk result (λ all. map named_value all.items
        ≡ status_members prefix node nodes group) }
{
    let mut members = Vec::new(alloc);
    members.push(count("prefix", u64::from(prefix)))?;
    members.push(count("node", u64::from(node)))?;
    members.push(count("nodes", u64::from(nodes)))?;
    members.push(count("group", u64::from(group)))?;
    Ok(members)
}

/// The node has said which it is.
pub(crate) fn end_identity(alloc: Global, prefix: u32, frame: &Frame) -> Result<Next, AllocError>
    ensures { IfOk result (Answers (TellsStatus prefix frame.now)) }
{
    match frame {
        Frame::Identity { node, nodes, group } => {
            let members = members_of(alloc, prefix, *node, *nodes, *group)?;
            Ok(Next::Tell(Response::object(alloc, 200, &members)?))
        }
        _ => Ok(Next::Tell(node_failed(alloc)?)),
    }
}
