//! The ranges of a reply's fields.

ghost use Rattle.std.specs.Prelude.{◌≡◌, ◌==◌, ◌-◌, ◌<◌, length, slice_index, true};
ghost use Rattle.std.specs.List.{list_any};
ghost use Rattle.ts_question.specs.Reply.{is_distinct, are_places, are_countable, is_place};
ghost use Rattle.ts_question.specs.Reply.{is_reply, ReplyFieldsFit};

use crate::limits::{are_subtrees, fits_four_octets};
use crate::lists::Oids;
use crate::reading::MAX_CHAIN;
use crate::reply::Reply;

/// The most places: their number is an octet.
const MAX_PLACES: usize = 255;

/// Whether a place occurs among places.
fn has(places: &[u8], place: u8) -> bool
    ensures { result ≡ list_any (λ p. p == place) places.now }
{
    places.iter().any(|p| *p == place)
}

/// Whether no place occurs twice. There are few.
fn is_distinct(places: &[u8]) -> bool
    ensures { result ≡ is_distinct places.now }
{
    let mut rest = places;
    while let [place, others @ ..] = rest {
        if has(others, *place) {
            return false;
        }
        rest = others;
    }
    true
}

/// Whether the last place is 1, the leaf's. False where there are no places.
fn ends_in_leaf(places: &[u8]) -> bool
    ensures { result ≡ (slice_index places.now (length places.now - 1) == 1) }
{
    match places {
        [.., last] => *last == 1,
        [] => false,
    }
}

/// Whether places can be those of a chain that was found: at most 255, distinct, and with the leaf
/// last.
pub(crate) fn are_places(places: &[u8]) -> bool
    ensures { result ≡ are_places places.now }
{
    places.len() <= MAX_PLACES && ends_in_leaf(places) && is_distinct(places)
}

/// Whether the number of policies fits four octets.
fn are_countable(policies: &Oids) -> bool
    ensures { result ≡ are_countable policies.now }
{
    policies.as_slice().len() < 1 << 32
}

/// Whether a number is a certificate's position in a chain, which are 1 to 16.
pub(crate) fn is_place(position: u8) -> bool
    ensures { result ≡ is_place position }
{
    1 <= position && usize::from(position) <= MAX_CHAIN
}

/// Whether the fields of a reply after k commands are in their ranges.
pub(crate) fn is_reply(k: u32, reply: &Reply) -> bool
    ensures { result ≡ is_reply k reply.now }
{
    match reply {
        Reply::Valid { policies, .. } => are_countable(policies),
        Reply::Invalid { position, .. } => is_place(*position),
        Reply::Found {
            places,
            policies,
            ..
        } => are_places(places.as_slice()) && are_countable(policies),
        Reply::NotYet { prefix } => *prefix < k,
        Reply::Page { rows, .. } => are_subtrees(rows),
        Reply::NoPath
        | Reply::SearchLimit
        | Reply::Malformed { .. }
        | Reply::NoAnchor
        | Reply::Limit => true,
    }
}

/// An id has 32 octets.
fn is_digest(digest: [u8; 32])
    ensures { length digest ≡ 32 }
{}

/// Each reply whose fields are in their ranges has an encoding.
pub(crate) fn fields_fit(reply: &Reply)
    ensures { ReplyFieldsFit reply.now }
{
    match reply {
        Reply::Valid { anchor, policies } => {
            is_digest(*anchor);
            let _ = policies.as_slice();
        }
        Reply::Invalid { reason, .. } => reason.has_encoding(),
        Reply::Found {
            anchor,
            policies,
            ..
        } => {
            is_digest(*anchor);
            let _ = policies.as_slice();
        }
        Reply::NotYet { prefix } => fits_four_octets(*prefix),
        Reply::Malformed { place, .. } => fits_four_octets(*place),
        Reply::Page { total, .. } => fits_four_octets(*total),
        Reply::NoPath | Reply::SearchLimit | Reply::NoAnchor | Reply::Limit => {}
    }
}
