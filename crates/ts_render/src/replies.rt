//! What replies say.

ghost use Rattle.std.specs.Prelude.{◌≡◌};
ghost use Rattle.ts_render.specs.Replies.{is_final, name_of, position_in, prefix_in, valid_in};

use ts_question::Reply;

/// The name of a reply.
pub(crate) fn name_of(reply: &Reply) -> &'static str
    ensures { result.now ≡ name_of reply.now }
{
    match reply {
        Reply::Valid { .. } => "Valid",
        Reply::Invalid { .. } => "Invalid",
        Reply::Found { .. } => "Found",
        Reply::NoPath => "NoPath",
        Reply::SearchLimit => "SearchLimit",
        Reply::NotYet { .. } => "NotYet",
        Reply::Malformed { .. } => "Malformed",
        Reply::NoAnchor => "NoAnchor",
        Reply::Limit => "Limit",
        Reply::Page { .. } => "Page",
    }
}

/// Whether the chain is valid, if a reply says so.
pub fn valid_in(reply: &Reply) -> Option<bool>
    ensures { result ≡ valid_in reply.now }
{
    match reply {
        Reply::Valid { .. } | Reply::Found { .. } => Some(true),
        Reply::Invalid { .. } | Reply::NoPath | Reply::Malformed { .. } | Reply::NoAnchor => {
            Some(false)
        }
        Reply::SearchLimit | Reply::NotYet { .. } | Reply::Limit | Reply::Page { .. } => None,
    }
}

/// The place of the certificate that is not good.
pub(crate) fn position_in(reply: &Reply) -> Option<u64>
    ensures { result ≡ position_in reply.now }
{
    match reply {
        Reply::Invalid { position, .. } => Some(u64::from(*position)),
        _ => None,
    }
}

/// How many commands are known, if too few are.
pub(crate) fn prefix_in(reply: &Reply) -> Option<u64>
    ensures { result ≡ prefix_in reply.now }
{
    match reply {
        Reply::NotYet { prefix } => Some(u64::from(*prefix)),
        _ => None,
    }
}

/// Whether the reply to a question that names k is for ever: a node that knows more commands gives
/// another one only where k was not known yet.
pub fn is_final(reply: &Reply) -> bool
    ensures { result ≡ is_final reply.now }
{
    !matches!(reply, Reply::NotYet { .. })
}
