//! The limits of a question.

ghost use Rattle.std.specs.Prelude.{◌≡◌, nat_le, nat_lt, true, length};
ghost use Rattle.std.specs.List.{list_all};
ghost use Rattle.ts_question.specs.Question.{is_position_if_any, are_subtrees, are_terms};
ghost use Rattle.ts_question.specs.Question.{are_certificates, is_target, TermsFit, TargetFits};

use crate::lists::OctetStrings;
use crate::question::Target;
use crate::reading::{MAX_CHAIN, MAX_POLICIES, MAX_SEARCH, MAX_SUBTREES};
use crate::terms::Terms;
use ts_codec::MAX_POSITION;
use ts_octets::MAX_CERTIFICATE;

/// The most octets of an initial subtree.
const MAX_SUBTREE: usize = 65_535;

/// Whether each string has at most so many octets.
fn all_short(strings: &[Vec<u8>], most: usize) -> bool
    ensures { result ≡ list_all (λ s. nat_le (length s.items) most) strings.now }
{
    strings.iter().all(|s| s.len() <= most)
}

/// Whether each string of a list has at most so many octets.
fn are_short(strings: &OctetStrings, most: usize) -> bool
    ensures { result ≡ list_all (λ s. nat_le (length s) most) strings.now }
{
    all_short(strings.as_slice(), most)
}

/// Whether a position of the store is absent or at most 1,000,000.
fn is_position(k: Option<u32>) -> bool
    ensures { result ≡ is_position_if_any k }
{
    match k {
        Some(k) => k <= MAX_POSITION,
        None => true,
    }
}

/// Whether there are at most 64 subtrees, each of at most 65,535 octets.
pub(crate) fn are_subtrees(subtrees: &OctetStrings) -> bool
    ensures { result ≡ are_subtrees subtrees.now }
{
    subtrees.len() <= MAX_SUBTREES && are_short(subtrees, MAX_SUBTREE)
}

/// Whether terms are within their limits: the position, the number of policies, and the subtrees of
/// both kinds.
pub(crate) fn are_terms(terms: &Terms) -> bool
    ensures { result ≡ are_terms terms.now }
{
    is_position(terms.k)
        && terms.user_policies.as_slice().len() <= MAX_POLICIES
        && are_subtrees(&terms.permitted_subtrees)
        && are_subtrees(&terms.excluded_subtrees)
}

/// Whether there is at least one certificate, there are at most so many, and each has at most
/// 65,536 octets.
fn are_certificates(most: usize, certificates: &OctetStrings) -> bool
    ensures { result ≡ are_certificates most certificates.now }
{
    1 <= certificates.len()
        && certificates.len() <= most
        && are_short(certificates, MAX_CERTIFICATE)
}

/// Whether a target is within its limits: a chain has at most 16 certificates, and a search at most
/// 33.
pub(crate) fn is_target(target: &Target) -> bool
    ensures { result ≡ is_target target.now }
{
    match target {
        Target::Chain { certificates, .. } => are_certificates(MAX_CHAIN, certificates),
        Target::Search { certificates } => are_certificates(MAX_SEARCH, certificates),
        Target::Store { .. } | Target::Log { .. } => true,
    }
}

/// Terms have an encoding, where they are within their limits.
pub(crate) fn terms_fit(terms: &Terms)
    ensures { TermsFit terms.now }
{
    let _moment = terms.moment;
    if let Some(purpose) = &terms.purpose {
        let _ = purpose.as_ref();
    }
    let _ = terms.user_policies.as_slice();
}

/// An id has 32 octets.
fn is_digest(digest: [u8; 32])
    ensures { length digest ≡ 32 }
{}

/// A number of 32 bits is below 2^32.
pub(crate) fn fits_four_octets(number: u32)
    ensures { nat_lt number 4294967296 ≡ true }
{}

/// The target has an encoding, where it is within its limits.
pub(crate) fn target_fits(target: &Target)
    ensures { TargetFits target.now }
{
    match target {
        Target::Chain { anchor, .. } => is_digest(*anchor),
        Target::Search { .. } => {}
        Target::Store { from } | Target::Log { from } => fits_four_octets(*from),
    }
}
