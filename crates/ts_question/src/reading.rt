//! Questions are read.

ghost use Rattle.std.specs.Prelude.{◌≡◌, ◌<◌};
ghost use Rattle.ts_codec.specs.Reading.{Gives, whole, many_at, optional_at, blob16_at};
ghost use Rattle.ts_codec.specs.Reading.{short_blob_at, prefix_at, oid_at, of_kind};
ghost use Rattle.ts_question.specs.Question.{StoreQuestion};
ghost use Rattle.ts_question.specs.QuestionReading.{bit, presence_at, policies_at, subtrees_at};
ghost use Rattle.ts_question.specs.QuestionReading.{certificates_at, terms_at, targets};
ghost use Rattle.ts_question.specs.QuestionReading.{question_at};

use crate::lists::{OctetStrings, Oids};
use crate::question::Target;
use crate::terms::{Flags, Presence, Terms};
use std::alloc::Global;
use ts_codec::ReadFault;
use ts_codec::reading::{
    blob16, digest, number16, number32, octet, oid, oids, prefix, short_blob, signed_number,
};
use ts_der::Oid;
use ts_octets::MAX_CERTIFICATE;

/// The most certificates of a chain.
pub const MAX_CHAIN: usize = 16;
/// The most certificates of a search: a leaf, and a pool of 32.
pub const MAX_SEARCH: usize = 33;
/// The most policies that a user names.
pub const MAX_POLICIES: usize = 32;
/// The most initial subtrees of a kind.
pub const MAX_SUBTREES: usize = 64;

/// Whether the bit of this weight is set in an octet.
fn is_set(octet: u8, weight: u8) -> bool
    requires { 0 < weight }
    ensures { result ≡ bit octet weight }
{
    octet / weight % 2 == 1
}

/// The flags octet, and what follows it. It is refused where the highest bit is set, which has no
/// meaning.
#[tactic(auto, unfolding(crate::specs::QuestionReading::presence_at))]
fn presence(octets: &[u8]) -> Result<(Presence, &[u8]), ReadFault>
    ensures { Gives (λ x. (x.0, x.1.now)) result (presence_at octets.now) }
{
    let (bits, rest) = octet(octets)?;
    if bits >= 128 {
        return Err(ReadFault::Form);
    }
    let flags = Flags {
        explicit_policy: is_set(bits, 1),
        inhibit_policy_mapping: is_set(bits, 2),
        inhibit_any_policy: is_set(bits, 4),
        hard: is_set(bits, 8),
        use_deltas: is_set(bits, 64),
    };
    let presence = Presence {
        flags,
        k: is_set(bits, 16),
        purpose: is_set(bits, 32),
    };
    Ok((presence, rest))
}

/// The position that begins here, where `there` says that one does, and what follows it.
#[tactic(auto, unfolding(ts_codec::specs::Reading::optional_at))]
fn optional_position(there: bool, octets: &[u8]) -> Result<(Option<u32>, &[u8]), ReadFault>
    ensures { Gives (λ x. (x.0, x.1.now)) result (optional_at prefix_at there octets.now) }
{
    if !there {
        return Ok((None, octets));
    }
    let (k, rest) = prefix(octets)?;
    Ok((Some(k), rest))
}

/// The object identifier that begins here, where `there` says that one does, and what follows it.
#[tactic(auto, unfolding(ts_codec::specs::Reading::optional_at))]
fn optional_oid(
    alloc: Global,
    there: bool,
    octets: &[u8],
) -> Result<(Option<Oid>, &[u8]), ReadFault>
    ensures { Gives (λ x. (x.0, x.1.now)) result (optional_at oid_at there octets.now) }
{
    if !there {
        return Ok((None, octets));
    }
    let (oid, rest) = oid(alloc, octets)?;
    Ok((Some(oid), rest))
}

/// The user's policies, and what follows them. More than 32 are refused.
#[tactic(auto, unfolding(crate::specs::QuestionReading::policies_at))]
fn policies(alloc: Global, octets: &[u8]) -> Result<(Oids, &[u8]), ReadFault>
    ensures { Gives (λ x. (x.0, x.1.now)) result (policies_at octets.now) }
{
    let (count, rest) = octet(octets)?;
    let count = usize::from(count);
    if count > MAX_POLICIES {
        return Err(ReadFault::Form);
    }
    let (oids, rest) = oids(alloc, count, rest)?;
    Ok((Oids::new(oids), rest))
}

/// So many subtrees, and what follows them.
fn subtrees_of(
    alloc: Global,
    count: usize,
    octets: &[u8],
) -> Result<(OctetStrings, &[u8]), ReadFault>
    ensures { Gives (λ x. (x.0, x.1.now)) result (many_at blob16_at count octets.now) }
{
    let mut strings = OctetStrings::empty(alloc);
    let mut rest = octets;
    for _ in 0..count {
        let (content, after) = blob16(rest)?;
        strings.push_copy(alloc, content)?;
        rest = after;
    }
    Ok((strings, rest))
}

/// The initial subtrees of a kind, and what follows them. More than 64 are refused.
#[tactic(auto, unfolding(crate::specs::QuestionReading::subtrees_at))]
pub(crate) fn subtrees(alloc: Global, octets: &[u8]) -> Result<(OctetStrings, &[u8]), ReadFault>
    ensures { Gives (λ x. (x.0, x.1.now)) result (subtrees_at octets.now) }
{
    let (count, rest) = number16(octets)?;
    let count = usize::from(count);
    if count > MAX_SUBTREES {
        return Err(ReadFault::Form);
    }
    subtrees_of(alloc, count, rest)
}

/// So many certificates, and what follows them.
fn certificates_of(
    alloc: Global,
    count: usize,
    octets: &[u8],
) -> Result<(OctetStrings, &[u8]), ReadFault>
    ensures { Gives (λ x. (x.0, x.1.now)) result (many_at (short_blob_at 65536) count octets.now) }
{
    let mut strings = OctetStrings::empty(alloc);
    let mut rest = octets;
    for _ in 0..count {
        let (content, after) = short_blob(MAX_CERTIFICATE, rest)?;
        strings.push_copy(alloc, content)?;
        rest = after;
    }
    Ok((strings, rest))
}

/// The certificates, and what follows them. None, and more than the most, are refused.
#[tactic(auto, unfolding(crate::specs::QuestionReading::certificates_at))]
fn certificates(
    alloc: Global,
    most: usize,
    octets: &[u8],
) -> Result<(OctetStrings, &[u8]), ReadFault>
    ensures { Gives (λ x. (x.0, x.1.now)) result (certificates_at most octets.now) }
{
    let (count, rest) = octet(octets)?;
    let count = usize::from(count);
    if count < 1 || count > most {
        return Err(ReadFault::Form);
    }
    certificates_of(alloc, count, rest)
}

/// The terms of a question, and what follows them.
#[tactic(auto, unfolding(crate::specs::QuestionReading::terms_at))]
fn terms(alloc: Global, octets: &[u8]) -> Result<(Terms, &[u8]), ReadFault>
    ensures { Gives (λ x. (x.0, x.1.now)) result (terms_at octets.now) }
{
    let (moment, rest) = signed_number(octets)?;
    let (presence, rest) = presence(rest)?;
    let (k, rest) = optional_position(presence.k, rest)?;
    let (purpose, rest) = optional_oid(alloc, presence.purpose, rest)?;
    let (user_policies, rest) = policies(alloc, rest)?;
    let (permitted_subtrees, rest) = subtrees(alloc, rest)?;
    let (excluded_subtrees, rest) = subtrees(alloc, rest)?;
    let terms = Terms {
        moment,
        flags: presence.flags,
        k,
        purpose,
        user_policies,
        permitted_subtrees,
        excluded_subtrees,
    };
    Ok((terms, rest))
}

/// The target of a question of this kind, and what follows it. An unknown kind is refused.
#[tactic(auto, unfolding(ts_codec::specs::Reading::of_kind))]
fn target(alloc: Global, kind: u8, octets: &[u8]) -> Result<(Target, &[u8]), ReadFault>
    ensures { Gives (λ x. (x.0, x.1.now)) result (of_kind targets kind octets.now) }
{
    match kind {
        1 => {
            let (anchor, rest) = digest(octets)?;
            let (certificates, rest) = certificates(alloc, MAX_CHAIN, rest)?;
            let target = Target::Chain {
                anchor,
                certificates,
            };
            Ok((target, rest))
        }
        2 => {
            let (certificates, rest) = certificates(alloc, MAX_SEARCH, octets)?;
            Ok((Target::Search { certificates }, rest))
        }
        3 => {
            let (from, rest) = number32(octets)?;
            Ok((Target::Store { from }, rest))
        }
        4 => {
            let (from, rest) = number32(octets)?;
            Ok((Target::Log { from }, rest))
        }
        _ => Err(ReadFault::Form),
    }
}

/// The terms and the target of the question that the octets are.
#[tactic(auto, unfolding(crate::specs::QuestionReading::question_at))]
pub(crate) fn question(alloc: Global, octets: &[u8]) -> Result<(Terms, Target), ReadFault>
    ensures { Gives (λ (x : Terms × Target). record { terms = x.0; target = x.1 }) result
        (whole (question_at octets.now)) }
{
    let (kind, rest) = octet(octets)?;
    let (terms, rest) = terms(alloc, rest)?;
    let (target, rest) = target(alloc, kind, rest)?;
    if !rest.is_empty() {
        return Err(ReadFault::Form);
    }
    Ok((terms, target))
}
