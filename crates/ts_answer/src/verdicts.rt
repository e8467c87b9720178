//! Verdicts and answers of a search, as replies.

ghost use Rattle.std.specs.Prelude.{◌≡◌, ◌<◌, suc, true, Some, map, slice_get, length, IfOk};
ghost use Rattle.std.specs.List.{AllByRecursion};
ghost use Rattle.ts_store.specs.Contents.{anchor_in as borrowed_in};
ghost use Rattle.ts_question.specs.Reply.{are_countable};
ghost use Rattle.ts_answer.specs.Parts.{unreadable};
ghost use Rattle.ts_answer.specs.inside.Ranges.{AreFew, InRange, IsAmong, IsSayable};
ghost use Rattle.ts_answer.specs.Reply.{SaysSearch, SaysVerdict};
ghost use Rattle.ts_answer.specs.Reply.{malformed_reply as malformed_of};

use std::alloc::{AllocError, Global};
use ts_der::{Oid, OidRef};
use ts_path::Verdict;
use ts_question::{Oids, Places, Reply};
use ts_search::SearchAnswer as SearchAnswer;
use ts_shape::CertFault;
use ts_store::BorrowedAnchor;

/// The reply to a question of which a part can't be read.
pub(crate) fn malformed_reply(index: u8, fault: CertFault) -> Reply
    ensures { result ≡ malformed_of (unreadable index fault) }
{
    Reply::Malformed {
        index,
        fault: fault.kind.code(),
        place: fault.at.min(u32::MAX as usize) as u32,
    }
}

/// Accepted policies, with memory of their own.
fn policies_of(alloc: Global, policies: &[OidRef<'_>]) -> Result<Oids, AllocError>
    requires { AreFew policies.now }
    ensures same { IfOk result (λ said. said ≡ map (λ p. p.content.now) policies.now) }
    ensures few { IfOk result (λ said. are_countable said ≡ true) }
{
    let mut oids = Vec::new(alloc);
    for policy in policies {
        oids.push(Oid::from_oid(alloc, *policy)?)?;
    }
    Ok(Oids::new(oids))
}

/// A verdict on a chain under the anchor of this id, as a reply.
pub(crate) fn reply_of_verdict(
    alloc: Global,
    anchor: [u8; 32],
    verdict: Verdict<'_>,
) -> Result<Reply, AllocError>
    requires { IsSayable verdict }
    ensures said { IfOk result (λ reply. SaysVerdict anchor verdict.entry reply) }
    ensures within { IfOk result InRange }
{
    match verdict {
        Verdict::Valid(policies) => {
            let policies = policies_of(alloc, &policies)?;
            Ok(Reply::Valid { anchor, policies })
        }
        Verdict::Invalid { position, reason } => {
            let reason = reason.to_owned(alloc)?;
            Ok(Reply::Invalid { position, reason })
        }
    }
}

/// The places of a chain, counted from 1. They are those of a question's certificates.
fn places_of(alloc: Global, chain: &[u8]) -> Result<Places, AllocError>
    requires { AllByRecursion (λ i. i < 33) chain.now }
    ensures { IfOk result (λ places. places ≡ map suc chain.now) }
{
    let mut places = Vec::new(alloc);
    for place in chain {
        places.push(*place + 1)?;
    }
    Ok(Places::new(places))
}

/// The id of the anchor of this number.
fn id_at(anchors: &[BorrowedAnchor<'_>], number: usize) -> [u8; 32]
    requires { number < length anchors.now }
    ensures { slice_get (map (λ a. a.id) (map borrowed_in anchors.now)) number ≡ Some result }
{
    anchors[number].id
}

/// An answer of a search under these anchors, as a reply.
pub(crate) fn reply_of_search(
    alloc: Global,
    anchors: &[BorrowedAnchor<'_>],
    answer: SearchAnswer<'_>,
) -> Result<Reply, AllocError>
    requires { IsAmong (length anchors.now) answer }
    ensures said { IfOk result (λ reply.
        SaysSearch (map borrowed_in anchors.now) answer.entry reply) }
    ensures within { IfOk result InRange }
{
    match answer {
        SearchAnswer::Found {
            anchor,
            chain,
            policies,
        } => {
            let anchor = id_at(anchors, anchor);
            let places = places_of(alloc, &chain)?;
            let policies = policies_of(alloc, &policies)?;
            Ok(Reply::Found {
                anchor,
                places,
                policies,
            })
        }
        SearchAnswer::NoPath => Ok(Reply::NoPath),
        SearchAnswer::SearchLimit => Ok(Reply::SearchLimit),
    }
}
