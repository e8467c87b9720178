//! A question is answered over the tables of a store.

ghost use Rattle.std.specs.Prelude.{◌≡◌, ◌≤◌, true, List, ℕ, length, map, IfOk};
ghost use Rattle.ts_cert.specs.CertView.{cert_in};
ghost use Rattle.ts_path.specs.Verdict.{IsVerdict};
ghost use Rattle.ts_path.specs.View.{anchor_in};
ghost use Rattle.ts_search.specs.Search.{IsSearchAnswer};
ghost use Rattle.ts_question.specs.declared.question.Target.TheVariants.{Chain, Search};
ghost use Rattle.ts_constraint.specs.View.{bases_in};
ghost use Rattle.ts_store.specs.Contents.{contents_of};
ghost use Rattle.ts_store.specs.Store.{store_after};
ghost use Rattle.ts_store.specs.Tables.{Tables};
ghost use Rattle.ts_command.specs.declared.command.Command.{Command};
ghost use Rattle.ts_question.specs.Question.{is_target};
ghost use Rattle.ts_answer.specs.Parts.{subtree_base, certificates_of, first_part};
ghost use Rattle.ts_answer.specs.Asked.{chain_of, question_of, search_of, trust_anchor};
ghost use Rattle.ts_answer.specs.inside.Ranges.{InRange, IsAmong, IsSayable};
ghost use Rattle.ts_answer.specs.Reply.{IsReply, IsReplyBy, IsTargetReply};
ghost use Rattle.ts_answer.specs.inside.Trusted.{trusted_in};
ghost use Rattle.ts_answer.specs.inside.View.{AreInputs, AreParts, IsJudged, IsOfTables};

use crate::fault::PartFault;
use crate::parts::{Parts, read_parts};
use crate::store::{anchor_of, anchors_of, lists_of, trusted_of};
use crate::trusted::TrustedAnchor;
use crate::verdicts::{malformed_reply, reply_of_search, reply_of_verdict};
use std::alloc::{AllocError, Global};
use ts_cert::Cert;
use ts_der::OidRef;
use ts_listing::store_page;
use ts_name::Subtree;
use ts_path::{Anchor, Inputs, Verdict, validate};
use ts_question::{OctetStrings, Question, Reply, Target, Terms};
use ts_revoke::Crls;
use ts_search::{SearchAnswer as SearchAnswer, search};
use ts_sig::SignatureCheck;
use ts_store::Snapshot;
use ts_time::Moment;

/// The inputs of path validation that a question's terms say, of which policies and subtrees were
/// read.
fn inputs_of<'a>(
    terms: &'a Terms,
    policies: &'a [OidRef<'a>],
    permitted: &'a [Subtree<'a>],
    excluded: &'a [Subtree<'a>],
) -> Inputs<'a>
    requires policies { map (λ p. p.content.now) policies.now ≡ terms.now.user_policies }
    requires permitted { bases_in permitted.now ≡ map subtree_base terms.now.permitted_subtrees }
    requires excluded { bases_in excluded.now ≡ map subtree_base terms.now.excluded_subtrees }
    ensures inputs { AreInputs terms.now result }
    ensures policies { map (λ p. p.content.now) result.user_policies.now ≡ terms.now.user_policies }
{
    let purpose = match &terms.purpose {
        Some(purpose) => Some(purpose.as_ref().content),
        None => None,
    };
    Inputs {
        moment: Moment(terms.moment),
        purpose,
        user_policies: policies,
        explicit_policy: terms.flags.explicit_policy,
        inhibit_policy_mapping: terms.flags.inhibit_policy_mapping,
        inhibit_any_policy: terms.flags.inhibit_any_policy,
        permitted_subtrees: permitted,
        excluded_subtrees: excluded,
        hard: terms.flags.hard,
        use_deltas: terms.flags.use_deltas,
    }
}

/// The verdict on a chain under an anchor, over the CRLs of a store.
fn verdict_under<'a, S: SignatureCheck>(
    alloc: Global,
    check: &S,
    snapshot: &Snapshot<'_>,
    anchor: &Anchor<'a>,
    chain: &[Cert<'a>],
    inputs: &Inputs<'a>,
) -> Result<Verdict<'a>, AllocError>
    requires some { 1 ≤ length chain.now }
    requires few { length chain.now ≤ 16 }
    requires policies { length inputs.now.user_policies.now ≤ 32 }
    ensures verdict { (tables : Tables) (terms : _) (stored : _) (octets : _)
        → snapshot.now ≡ contents_of tables → AreInputs terms inputs.now
        → anchor_in anchor.now ≡ trust_anchor stored → map cert_in chain.now ≡ chain_of octets
        → IfOk result (IsVerdict (question_of (S.accepts check.now) tables terms stored octets)) }
    ensures sayable { IfOk result IsSayable }
{
    let lists = lists_of(alloc, snapshot.complete())?;
    let deltas = lists_of(alloc, snapshot.deltas())?;
    let crls = Crls {
        lists: &lists,
        deltas: &deltas,
    };
    let verdict = validate(alloc, anchor, chain, inputs, &crls, check)?;
    Ok(verdict)
}

/// The reply to a question about a chain, of which the parts were read.
fn chain_reply<'a, S: SignatureCheck>(
    alloc: Global,
    check: &S,
    snapshot: &'a Snapshot<'a>,
    id: &[u8; 32],
    terms: &'a Terms,
    parts: Parts<'a>,
) -> Result<Reply, AllocError>
    requires some { 1 ≤ length parts.certificates.items }
    requires few { length parts.certificates.items ≤ 16 }
    requires policies { length terms.now.user_policies ≤ 32 }
    requires read { (octets : List (List ℕ)) × AreParts terms.now octets parts }
    ensures reply { (tables : Tables) (octets : List (List ℕ)) → snapshot.now ≡ contents_of tables
        → AreParts terms.now octets parts.entry
        → IfOk result (IsTargetReply (S.accepts check.now) tables terms.now (Chain id.now octets)) }
    ensures within { IfOk result InRange }
{
    let Some(stored) = anchor_of(snapshot.anchors(), id) else {
        return Ok(Reply::NoAnchor);
    };
    let trusted = TrustedAnchor::of(stored);
    let anchor = trusted.anchor();
    let inputs = inputs_of(terms, &parts.policies, &parts.permitted, &parts.excluded);
    let chain = parts.certificates.as_slice();
    let verdict = verdict_under(alloc, check, snapshot, &anchor, chain, &inputs)?;
    let reply = reply_of_verdict(alloc, stored.id, verdict)?;
    Ok(reply)
}

/// The answer of the search through a pool, over the CRLs of a store.
fn found_under<'a, S: SignatureCheck>(
    alloc: Global,
    check: &S,
    snapshot: &Snapshot<'_>,
    trusted: &'a [TrustedAnchor<'a>],
    certificates: &[Cert<'a>],
    inputs: &Inputs<'a>,
) -> Result<SearchAnswer<'a>, AllocError>
    requires some { 1 ≤ length certificates.now }
    requires few { length certificates.now ≤ 33 }
    requires policies { length inputs.now.user_policies.now ≤ 32 }
    ensures answer { (tables : Tables) (terms : _) (octets : _) → snapshot.now ≡ contents_of tables
        → AreInputs terms inputs.now → map trusted_in trusted.now ≡ map trust_anchor tables.anchors
        → map cert_in certificates.now ≡ chain_of octets
        → IfOk result (IsSearchAnswer (search_of (S.accepts check.now) tables terms octets)) }
    ensures among { IfOk result (IsAmong (length trusted.now)) }
{
    let lists = lists_of(alloc, snapshot.complete())?;
    let deltas = lists_of(alloc, snapshot.deltas())?;
    let crls = Crls {
        lists: &lists,
        deltas: &deltas,
    };
    let anchors = anchors_of(alloc, trusted)?;
    let [leaf, pool @ ..] = certificates else {
        unreachable!()
    };
    let answer = search(alloc, leaf, pool, &anchors, inputs, &crls, check)?;
    Ok(answer)
}

/// The reply to a question about a search, of which the parts were read.
fn search_reply<'a, S: SignatureCheck>(
    alloc: Global,
    check: &S,
    snapshot: &'a Snapshot<'a>,
    terms: &'a Terms,
    parts: Parts<'a>,
) -> Result<Reply, AllocError>
    requires some { 1 ≤ length parts.certificates.items }
    requires few { length parts.certificates.items ≤ 33 }
    requires policies { length terms.now.user_policies ≤ 32 }
    requires read { (octets : List (List ℕ)) × AreParts terms.now octets parts }
    ensures reply { (tables : Tables) (octets : List (List ℕ)) → snapshot.now ≡ contents_of tables
        → AreParts terms.now octets parts.entry
        → IfOk result (IsTargetReply (S.accepts check.now) tables terms.now (Search octets)) }
    ensures within { IfOk result InRange }
{
    let Parts {
        permitted,
        excluded,
        certificates,
        policies,
    } = parts;
    let inputs = inputs_of(terms, &policies, &permitted, &excluded);
    let trusted = trusted_of(alloc, snapshot.anchors())?;
    let answer = found_under(alloc, check, snapshot, &trusted, &certificates, &inputs)?;
    let reply = reply_of_search(alloc, snapshot.anchors(), answer)?;
    Ok(reply)
}

/// The reply to a question about these certificates.
fn target_reply<'a, S: SignatureCheck>(
    alloc: Global,
    check: &S,
    snapshot: &'a Snapshot<'a>,
    terms: &'a Terms,
    target: &'a Target,
    certificates: &'a OctetStrings,
) -> Result<Reply, AllocError>
    requires same { certificates.now ≡ certificates_of target.now }
    requires within { is_target target.now ≡ true }
    requires policies { length terms.now.user_policies ≤ 32 }
    requires judged { IsJudged target.now }
    ensures reply { (tables : Tables) → snapshot.now ≡ contents_of tables
        → IfOk result (IsReplyBy (S.accepts check.now) tables
        (record { terms = terms.now; target = target.now })
        (first_part terms.now certificates.now)) }
    ensures within { IfOk result InRange }
{
    match read_parts(alloc, terms, certificates) {
        Ok(parts) => match target {
            Target::Chain { anchor, .. } => {
                chain_reply(alloc, check, snapshot, anchor, terms, parts)
            }
            Target::Search { .. } => search_reply(alloc, check, snapshot, terms, parts),
            Target::Store { .. } | Target::Log { .. } => unreachable!(),
        },
        Err(PartFault::Unreadable { index, fault }) => Ok(malformed_reply(index, fault)),
        Err(PartFault::Memory) => Err(AllocError),
    }
}

/// The reply to a question over the borrowed tables of a store: to any but one for commands.
pub(crate) fn reply_over<S: SignatureCheck>(
    alloc: Global,
    check: &S,
    snapshot: &Snapshot<'_>,
    question: &Question,
) -> Result<Reply, AllocError>
    requires tables { IsOfTables question.now.target }
    ensures reply { (commands : List Command)
        → snapshot.now ≡ contents_of (store_after commands).tables
        → IfOk result (IsReply (S.accepts check.now) commands question.now) }
    ensures within { (commands : List Command)
        → snapshot.now ≡ contents_of (store_after commands).tables → IfOk result InRange }
{
    let terms = question.terms();
    let target = question.target();
    match target {
        Target::Chain { certificates, .. } => {
            target_reply(alloc, check, snapshot, terms, target, certificates)
        }
        Target::Search { certificates } => {
            target_reply(alloc, check, snapshot, terms, target, certificates)
        }
        Target::Store { from } => store_page(alloc, snapshot, *from),
        Target::Log { .. } => unreachable!(),
    }
}
