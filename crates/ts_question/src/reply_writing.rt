//! Answers are written.

ghost use Rattle.std.specs.Prelude.{◌≡◌, ◌++◌, true, ℕ, OnOk};
ghost use Rattle.ts_codec.specs.Parts.{blob8};
ghost use Rattle.ts_question.specs.Reply.{are_places, are_countable, is_reply};
ghost use Rattle.ts_question.specs.Reply.{accepted_encoding, tag_of, reply_fields};

use crate::lists::{Oids, Places};
use crate::reply::Reply;
use crate::writing::push_subtrees;
use std::alloc::AllocError;
use ts_codec::writing::push_oids;

/// Writes the number of the accepted policies, and the contents octets of each.
fn push_accepted(out: &mut Vec<u8>, policies: &Oids) -> Result<(), AllocError>
    requires { are_countable policies.now ≡ true }
    ensures { OnOk result (out.new.items ≡ out.old.items ++ accepted_encoding policies.now) }
{
    let policies = policies.as_slice();
    out.extend_from_slice(&(policies.len() as u32).to_be_bytes())?;
    push_oids(out, policies)
}

/// Writes the number of places, and the places.
fn push_places(out: &mut Vec<u8>, places: &Places) -> Result<(), AllocError>
    requires { are_places places.now ≡ true }
    ensures { OnOk result (out.new.items ≡ out.old.items ++ blob8 places.now) }
{
    let places = places.as_slice();
    out.push(places.len() as u8)?;
    out.extend_from_slice(places)?;
    Ok(())
}

/// The tag of a reply.
pub(crate) fn tag_of(reply: &Reply) -> u8
    ensures { result ≡ tag_of reply.now }
{
    match reply {
        Reply::Valid { .. } => 1,
        Reply::Invalid { .. } => 2,
        Reply::Found { .. } => 3,
        Reply::NoPath => 4,
        Reply::SearchLimit => 5,
        Reply::NotYet { .. } => 6,
        Reply::Malformed { .. } => 7,
        Reply::NoAnchor => 8,
        Reply::Limit => 9,
        Reply::Page { .. } => 10,
    }
}

/// Writes the fields of a reply after k commands.
pub(crate) fn push_fields(out: &mut Vec<u8>, k: u32, reply: &Reply) -> Result<(), AllocError>
    requires { is_reply k reply.now ≡ true }
    ensures { OnOk result (out.new.items ≡ out.old.items ++ reply_fields reply.now) }
{
    match reply {
        Reply::Valid { anchor, policies } => {
            out.extend_from_slice(anchor)?;
            push_accepted(out, policies)?;
        }
        Reply::Invalid { position, reason } => {
            out.push(*position)?;
            reason.write(out)?;
        }
        Reply::Found {
            anchor,
            places,
            policies,
        } => {
            out.extend_from_slice(anchor)?;
            push_places(out, places)?;
            push_accepted(out, policies)?;
        }
        Reply::NotYet { prefix } => out.extend_from_slice(&prefix.to_be_bytes())?,
        Reply::Malformed {
            index,
            fault,
            place,
        } => {
            out.push(*index)?;
            out.push(*fault)?;
            out.extend_from_slice(&place.to_be_bytes())?;
        }
        Reply::Limit => out.push(1)?,
        Reply::Page { total, rows } => {
            out.extend_from_slice(&total.to_be_bytes())?;
            push_subtrees(out, rows)?;
        }
        Reply::NoPath | Reply::SearchLimit | Reply::NoAnchor => {}
    }
    Ok(())
}
