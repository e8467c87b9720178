//! The question about the chain that was sent.

ghost use Rattle.std.specs.Prelude.{◌≡◌, ◌+◌, IfOk, Some, map, reverse, take};
ghost use Rattle.ts_sent.specs.Sent.{chain_under, sent_in};

use crate::above::AnchorAbove;
use std::alloc::{AllocError, Global};
use ts_der::Oid;
use ts_question::{OctetStrings, Oids, Question, Target, Terms};

/// The certificates of a search, the leaf first. Of another question there are none.
pub fn sent_in(question: &Question) -> &[Vec<u8>]
    ensures { map (λ octets. octets.items) result.now ≡ sent_in question.now.target }
{
    match question.target() {
        Target::Search { certificates } => certificates.as_slice(),
        _ => &[],
    }
}

/// A copy of object identifiers.
fn copy_oids(alloc: Global, oids: &Oids) -> Result<Oids, AllocError>
    ensures { IfOk result (λ copy. copy ≡ oids.now) }
{
    let mut copy = Vec::new(alloc);
    for oid in oids.as_slice() {
        copy.push(Oid::from_oid(alloc, oid.as_ref())?)?;
    }
    Ok(Oids::new(copy))
}

/// A copy of an object identifier, if there is one.
fn copy_oid(alloc: Global, oid: &Option<Oid>) -> Result<Option<Oid>, AllocError>
    ensures { IfOk result (λ copy. copy ≡ oid.now) }
{
    match oid {
        Some(oid) => Ok(Some(Oid::from_oid(alloc, oid.as_ref())?)),
        None => Ok(None),
    }
}

/// A copy of strings.
fn copy_strings(alloc: Global, strings: &OctetStrings) -> Result<OctetStrings, AllocError>
    ensures { IfOk result (λ copy. copy ≡ strings.now) }
{
    let mut copy = OctetStrings::empty(alloc);
    for octets in strings.as_slice() {
        copy.push_copy(alloc, octets)?;
    }
    Ok(copy)
}

/// A copy of terms, after k commands.
fn terms_at(alloc: Global, terms: &Terms, k: u32) -> Result<Terms, AllocError>
    ensures { IfOk result (λ copy. copy ≡ record terms.now { k = Some k }) }
{
    Ok(Terms {
        moment: terms.moment,
        flags: terms.flags,
        k: Some(k),
        purpose: copy_oid(alloc, &terms.purpose)?,
        user_policies: copy_oids(alloc, &terms.user_policies)?,
        permitted_subtrees: copy_strings(alloc, &terms.permitted_subtrees)?,
        excluded_subtrees: copy_strings(alloc, &terms.excluded_subtrees)?,
    })
}

/// Copies of strings, the last first.
fn reversed(alloc: Global, strings: &[Vec<u8>]) -> Result<Vec<Vec<u8>>, AllocError>
    ensures { IfOk result (λ copies. map (λ octets. octets.items) copies.items
        ≡ reverse (map (λ octets. octets.items) strings.now)) }
{
    let mut copies = Vec::new(alloc);
    for octets in strings {
        copies.insert(0, Vec::from_slice(alloc, octets)?)?;
    }
    Ok(copies)
}

/// The certificates up to the one at a place, which is the last.
fn up_to(sent: &[Vec<u8>], place: usize) -> &[Vec<u8>]
    ensures { result.now ≡ take (place + 1) sent.now }
{
    if place < sent.len() {
        &sent[..place + 1]
    } else {
        sent
    }
}

/// The question about the certificates of a search as they were sent, up to the one whose issuer is
/// this anchor, after k commands. `None` exactly where it is outside the limits of questions.
///
/// # Errors
///
/// Out of memory.
pub fn chain_under(
    alloc: Global,
    search: &Question,
    k: u32,
    above: &AnchorAbove,
) -> Result<Option<Question>, AllocError>
    ensures { IfOk result (λ question. question ≡ chain_under search.now k above.now) }
{
    let chain = reversed(alloc, up_to(sent_in(search), above.place))?;
    let terms = terms_at(alloc, search.terms(), k)?;
    Ok(Question::chain(terms, above.anchor, chain).ok())
}
