//! The chain that is judged, and its verdict.

ghost use Rattle.std.specs.Prelude.{◌≤◌, length, map, IfOk};
ghost use Rattle.ts_cert.specs.CertView.{cert_in};
ghost use Rattle.ts_search.specs.Search.{IsSearchAnswer};
ghost use Rattle.ts_search.specs.View.{search_among};
ghost use Rattle.ts_verify.specs.Judged.{IsJudged};
ghost use Rattle.ts_verify.specs.inside.Judging.{IsExplained};

use crate::line::line_of;
use std::alloc::{AllocError, Global};
use ts_cert::Cert;
use ts_path::{Anchor, Inputs, Verdict, validate};
use ts_revoke::Crls;
use ts_search::{SearchAnswer, certificates_at, search};
use ts_sig::SignatureCheck;

/// A chain under an anchor, and the verdict on it.
#[derive(Drop)]
pub(crate) struct JudgedChain<'a> {
    /// The place of the anchor.
    pub(crate) place: usize,
    /// From the anchor's side.
    pub(crate) chain: Vec<Cert<'a>>,
    pub(crate) verdict: Verdict<'a>,
}

/// The verdict on the chain by names.
fn explain<'a, S: SignatureCheck>(
    alloc: Global,
    certificates: &[Cert<'a>],
    anchors: &[Anchor<'a>],
    inputs: &Inputs<'a>,
    crls: &Crls<'_>,
    check: &S,
) -> Result<JudgedChain<'a>, AllocError>
    requires some { 1 ≤ length certificates.now }
    requires few { length certificates.now ≤ 33 }
    requires anchored { 1 ≤ length anchors.now }
    ensures { IfOk result (λ j. IsExplained
        (search_among certificates.now anchors.now inputs.now crls.now (S.accepts check.now))
        j.place (map cert_in j.chain.items) j.verdict) }
{
    let line = line_of(alloc, certificates, anchors, check)?;
    let chain = certificates_at(alloc, certificates, &line.places)?;
    let place = line.anchor.unwrap_or(0);
    let anchor = anchors[place];
    let verdict = validate(alloc, &anchor, &chain, inputs, crls, check)?;
    Ok(JudgedChain {
        place,
        chain,
        verdict,
    })
}

/// What the search answers among certificates of which the leaf is the first.
fn answer_among<'a, S: SignatureCheck>(
    alloc: Global,
    certificates: &[Cert<'a>],
    anchors: &[Anchor<'a>],
    inputs: &Inputs<'a>,
    crls: &Crls<'_>,
    check: &S,
) -> Result<SearchAnswer<'a>, AllocError>
    requires some { 1 ≤ length certificates.now }
    requires few { length certificates.now ≤ 33 }
    ensures { IfOk result (IsSearchAnswer
        (search_among certificates.now anchors.now inputs.now crls.now (S.accepts check.now))) }
{
    let [leaf, pool @ ..] = certificates else {
        unreachable!()
    };
    let answer = search(alloc, leaf, pool, anchors, inputs, crls, check)?;
    Ok(answer)
}

/// The verdict on certificates of which the leaf is the first: on the chain that the search finds,
/// and where it finds none, on the chain by names.
pub(crate) fn judge<'a, S: SignatureCheck>(
    alloc: Global,
    certificates: &[Cert<'a>],
    anchors: &[Anchor<'a>],
    inputs: &Inputs<'a>,
    crls: &Crls<'_>,
    check: &S,
) -> Result<JudgedChain<'a>, AllocError>
    requires some { 1 ≤ length certificates.now }
    requires few { length certificates.now ≤ 33 }
    requires anchored { 1 ≤ length anchors.now }
    ensures { IfOk result (λ j. IsJudged
        (search_among certificates.now anchors.now inputs.now crls.now (S.accepts check.now))
        j.place (map cert_in j.chain.items) j.verdict) }
{
    let answer = answer_among(alloc, certificates, anchors, inputs, crls, check)?;
    match answer {
        SearchAnswer::Found {
            anchor,
            chain,
            policies,
        } => {
            let found = certificates_at(alloc, certificates, &chain)?;
            Ok(JudgedChain {
                place: anchor,
                chain: found,
                verdict: Verdict::Valid(policies),
            })
        }
        SearchAnswer::NoPath => explain(alloc, certificates, anchors, inputs, crls, check),
        SearchAnswer::SearchLimit => explain(alloc, certificates, anchors, inputs, crls, check),
    }
}
