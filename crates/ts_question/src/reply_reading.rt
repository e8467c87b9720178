//! Answers are read.

ghost use Rattle.std.specs.Prelude.{◌≡◌};
ghost use Rattle.ts_codec.specs.Reading.{Gives, ◌into◌, whole, by_kind, of_kind};
ghost use Rattle.ts_question.specs.Reply.{numbered_reply};
ghost use Rattle.ts_question.specs.ReplyReading.{accepted_at, valid_at, invalid_at, found_at};
ghost use Rattle.ts_question.specs.ReplyReading.{not_yet_at, malformed_at, page_at, replies};
ghost use Rattle.ts_question.specs.ReplyReading.{answer_at};

use crate::lists::{Oids, Places};
use crate::ranges::{are_places, is_place};
use crate::reading::subtrees;
use crate::reply::Reply;
use std::alloc::Global;
use ts_codec::ReadFault;
use ts_codec::reading::{blob8, digest, number32, octet, oids, prefix, tag};
use ts_reason::read_reason;

/// The accepted policies, and what follows them.
#[tactic(auto, unfolding(crate::specs::ReplyReading::accepted_at))]
fn accepted_policies(alloc: Global, octets: &[u8]) -> Result<(Oids, &[u8]), ReadFault>
    ensures { Gives (λ x. (x.0, x.1.now)) result (accepted_at octets.now) }
{
    let (count, rest) = number32(octets)?;
    let (oids, rest) = oids(alloc, count as usize, rest)?;
    Ok((Oids::new(oids), rest))
}

/// The reply that a chain is valid, from the fields after its tag, and what follows them.
#[tactic(auto, unfolding(crate::specs::ReplyReading::valid_at))]
fn valid(alloc: Global, octets: &[u8]) -> Result<(Reply, &[u8]), ReadFault>
    ensures { Gives (λ x. (x.0, x.1.now)) result (valid_at octets.now) }
{
    let (anchor, rest) = digest(octets)?;
    let (policies, rest) = accepted_policies(alloc, rest)?;
    Ok((Reply::Valid { anchor, policies }, rest))
}

/// The reply that a chain is not valid, from the fields after its tag, and what follows them. A
/// position that is not 1 to 16 is refused.
#[tactic(auto, unfolding(crate::specs::ReplyReading::invalid_at))]
fn invalid(alloc: Global, octets: &[u8]) -> Result<(Reply, &[u8]), ReadFault>
    ensures { Gives (λ x. (x.0, x.1.now)) result (invalid_at octets.now) }
{
    let (position, rest) = octet(octets)?;
    if !is_place(position) {
        return Err(ReadFault::Form);
    }
    let (reason, rest) = read_reason(alloc, rest)?;
    Ok((Reply::Invalid { position, reason }, rest))
}

/// The reply that a chain was found, from the fields after its tag, and what follows them. Places
/// that can't be those of a chain are refused.
#[tactic(auto, unfolding(crate::specs::ReplyReading::found_at))]
fn found_reply(alloc: Global, octets: &[u8]) -> Result<(Reply, &[u8]), ReadFault>
    ensures { Gives (λ x. (x.0, x.1.now)) result (found_at octets.now) }
{
    let (anchor, rest) = digest(octets)?;
    let (places, rest) = blob8(rest)?;
    if !are_places(places) {
        return Err(ReadFault::Form);
    }
    let places = Places::new(Vec::from_slice(alloc, places)?);
    let (policies, rest) = accepted_policies(alloc, rest)?;
    let reply = Reply::Found {
        anchor,
        places,
        policies,
    };
    Ok((reply, rest))
}

/// The reply that the node knows of fewer than k commands, from the field after its tag, and what
/// follows it. A number that is not below k is refused.
#[tactic(auto, unfolding(crate::specs::ReplyReading::not_yet_at))]
fn not_yet(k: u32, octets: &[u8]) -> Result<(Reply, &[u8]), ReadFault>
    ensures { Gives (λ x. (x.0, x.1.now)) result (not_yet_at k octets.now) }
{
    let (prefix, rest) = number32(octets)?;
    if prefix >= k {
        return Err(ReadFault::Form);
    }
    Ok((Reply::NotYet { prefix }, rest))
}

/// The reply that a part of the question can't be read, from the fields after its tag, and what
/// follows them.
#[tactic(auto, unfolding(crate::specs::ReplyReading::malformed_at))]
fn malformed_reply(octets: &[u8]) -> Result<(Reply, &[u8]), ReadFault>
    ensures { Gives (λ x. (x.0, x.1.now)) result (malformed_at octets.now) }
{
    let (index, rest) = octet(octets)?;
    let (fault, rest) = octet(rest)?;
    let (place, rest) = number32(rest)?;
    let reply = Reply::Malformed {
        index,
        fault,
        place,
    };
    Ok((reply, rest))
}

/// The reply that is a page of rows, from the fields after its tag, and what follows them. More
/// than 64 rows are refused.
#[tactic(auto, unfolding(crate::specs::ReplyReading::page_at))]
fn page(alloc: Global, octets: &[u8]) -> Result<(Reply, &[u8]), ReadFault>
    ensures { Gives (λ x. (x.0, x.1.now)) result (page_at octets.now) }
{
    let (total, rest) = number32(octets)?;
    let (rows, rest) = subtrees(alloc, rest)?;
    Ok((Reply::Page { total, rows }, rest))
}

/// The reply of this tag, after k commands.
#[tactic(auto, unfolding(ts_codec::specs::Reading::of_kind))]
fn fields(alloc: Global, k: u32, kind: u8, octets: &[u8]) -> Result<(Reply, &[u8]), ReadFault>
    ensures { Gives (λ x. (x.0, x.1.now)) result (of_kind (replies k) kind octets.now) }
{
    match kind {
        1 => valid(alloc, octets),
        2 => invalid(alloc, octets),
        3 => found_reply(alloc, octets),
        4 => Ok((Reply::NoPath, octets)),
        5 => Ok((Reply::SearchLimit, octets)),
        6 => not_yet(k, octets),
        7 => malformed_reply(octets),
        8 => Ok((Reply::NoAnchor, octets)),
        9 => {
            let (_, rest) = tag(1, octets)?;
            Ok((Reply::Limit, rest))
        }
        10 => page(alloc, octets),
        _ => Err(ReadFault::Form),
    }
}

/// The answer at the front of octets.
#[tactic(auto, unfolding(crate::specs::ReplyReading::answer_at))]
pub(crate) fn answer(alloc: Global, octets: &[u8]) -> Result<(u32, Reply, &[u8]), ReadFault>
    ensures { Gives (λ x. (numbered_reply x.0 x.1, x.2.now)) result (answer_at octets.now) }
{
    let (k, rest) = prefix(octets)?;
    let (kind, rest) = octet(rest)?;
    let (reply, rest) = fields(alloc, k, kind, rest)?;
    Ok((k, reply, rest))
}

/// The answer that the octets are.
pub(crate) fn whole_answer(alloc: Global, octets: &[u8]) -> Result<(u32, Reply), ReadFault>
    ensures { Gives (λ x. numbered_reply x.0 x.1) result (whole (answer_at octets.now)) }
{
    let (k, reply, rest) = answer(alloc, octets)?;
    if !rest.is_empty() {
        return Err(ReadFault::Form);
    }
    Ok((k, reply))
}
