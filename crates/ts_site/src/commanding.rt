//! Commands over HTTP: one is submitted, or asked for.

ghost use Rattle.std.specs.Prelude.{IfOk, map, option_map};
ghost use Rattle.ts_json.specs.Members.{object_of};
ghost use Rattle.ts_api.specs.Response.{IsJson};
ghost use Rattle.ts_http.specs.Request.{field_in};
ghost use Rattle.ts_site.specs.Commanding.{BeginsCommand, IsFirst, IsRefusal};
ghost use Rattle.ts_api.specs.Request.{bearer_in};
ghost use Rattle.ts_site.specs.Statuses.{BeginsOutcome, IsNamed, TellsCommand, command_members};
ghost use Rattle.ts_site.specs.Steps.{Answers};

use crate::next::{Next, Waits, ask};
use crate::refusing::{error, node_failed};
use std::alloc::{AllocError, Global};
use ts_access::{Key, may};
use ts_api::{Bearer, Response, Scene, bearer_in, outcome_frame, query_of, submit_frame};
use ts_command::{Command, Outcome};
use ts_form::{FormFault, command_id_of, form_pairs};
use ts_hmac::is_same_tag;
use ts_http::Request;
use ts_json::{Member, Plain};
use ts_wire::Frame;

/// The first key that has the secret.
fn key_with<'a>(keys: &'a [Key], secret: &[u8; 32]) -> Option<&'a Key>
    ensures { IsFirst keys.now secret.now (option_map (λ key. key.now) result) }
{
    for key in keys {
        if is_same_tag(&key.secret, secret) {
            return Some(key);
        }
    }
    None
}

/// The front of a frame that submits a command, of which a role needs the kind alone.
const SUBMIT: [u8; 6] = [0, 0, 0, 2, 2, 0x10];

/// Why a request may not submit a command, if it may not: 401 where it shows no key of the node's,
/// 403 where the key may not.
fn refusal_of(scene: &Scene<'_>, bearer: Bearer) -> Option<(u16, &'static str)>
    ensures { IsRefusal scene.entry.now.commands scene.entry.now.node
        scene.entry.now.keys.now bearer (option_map (λ why. (why.0, why.1.now)) result) }
{
    if !scene.commands {
        return Some((
            403,
            "commands are taken over loopback, where the node has keys",
        ));
    }
    let Bearer::Secret(secret) = bearer else {
        return Some((
            401,
            "a command wants Authorization: Bearer and the secret of a key",
        ));
    };
    match key_with(scene.keys, &secret) {
        Some(key) if may(key.role, scene.node, &SUBMIT) => None,
        Some(_) => Some((403, "this key's role may not change the store")),
        None => Some((401, "the node has no key with this secret")),
    }
}

/// Begins a request that submits a command. Its body is looked at once its key may submit it.
pub(crate) fn begin_command(
    alloc: Global,
    request: &Request,
    scene: &Scene<'_>,
) -> Result<Next, AllocError>
    ensures { IfOk result (BeginsCommand scene.entry.now.commands scene.entry.now.node
        scene.entry.now.keys.now (bearer_in (map field_in request.now.fields.items))
        request.now.body.items) }
{
    if let Some((status, words)) = refusal_of(scene, bearer_in(&request.fields)) {
        return Ok(Next::Tell(error(alloc, status, words)?));
    }
    let Some(command) = Command::read(alloc, &request.body)? else {
        return Ok(Next::Tell(error(alloc, 400, "the body is not one whole command")?));
    };
    let id = command.id();
    let frame = submit_frame(alloc, command)?;
    Ok(ask(Waits::Command(id), frame))
}

/// The id of the command that the query of a target names.
fn command_named(alloc: Global, target: &[u8]) -> Result<Option<[u8; 16]>, AllocError>
    ensures { IfOk result (IsNamed target.now) }
{
    match form_pairs(alloc, query_of(target)) {
        Ok(pairs) => Ok(command_id_of(&pairs)),
        Err(FormFault::Memory) => Err(AllocError),
        Err(_) => Ok(None),
    }
}

/// Begins a request for what became of a command.
pub(crate) fn begin_outcome(alloc: Global, request: &Request) -> Result<Next, AllocError>
    ensures { IfOk result (BeginsOutcome request.now.target.items) }
{
    let Some(id) = command_named(alloc, &request.target)? else {
        let words = "id is not the 32 lower-case hexadecimal digits of a command's id";
        return Ok(Next::Tell(error(alloc, 400, words)?));
    };
    let frame = outcome_frame(alloc, &id)?;
    Ok(ask(Waits::Command(id), frame))
}

/// What is known of a command.
fn known(
    alloc: Global,
    status: u16,
    id: &[u8; 16],
    position: Option<u32>,
    outcome: Option<Outcome>,
) -> Result<Response, AllocError>
    ensures { IfOk result (IsJson status (object_of (command_members id.now position outcome))) }
{
    let outcome = match outcome {
        Some(outcome) => Some(format!(in alloc; "{outcome}")?),
        None => None,
    };
    let mut members = Vec::new(alloc);
    members.push(Member {
        name: "id",
        value: Plain::Text(Some(hex::encode(alloc, id)?)),
    })?;
    members.push(Member {
        name: "position",
        value: Plain::Number(position.map(u64::from)),
    })?;
    members.push(Member {
        name: "outcome",
        value: Plain::Text(outcome),
    })?;
    Response::object(alloc, status, &members)
}

/// Goes on once the node has answered.
pub(crate) fn end_command(alloc: Global, id: &[u8; 16], frame: &Frame) -> Result<Next, AllocError>
    ensures { IfOk result (Answers (TellsCommand id.now frame.now)) }
{
    let response = match frame {
        Frame::Started { position, .. } => known(alloc, 202, id, Some(*position), None)?,
        Frame::Settled { position, outcome } => {
            known(alloc, 200, id, Some(*position), Some(*outcome))?
        }
        Frame::Unknown => known(alloc, 404, id, None, None)?,
        _ => node_failed(alloc)?,
    };
    Ok(Next::Tell(response))
}
