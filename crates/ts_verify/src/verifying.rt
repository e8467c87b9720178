//! The report on a chain of certificates.

ghost use Rattle.std.specs.Prelude.{◌≤◌, ◌↔◌, ◌∷◌, List, length, map, IsTrue, IfOk};
ghost use Rattle.ts_cert.specs.Certificate.{Certificate};
ghost use Rattle.ts_cert.specs.CertView.{cert_in};
ghost use Rattle.ts_path.specs.View.{anchor_in, asked_under};
ghost use Rattle.ts_verify.specs.Report.{IsForAsked, IsReport, IsReportOn, Says, search_with};

use crate::host::Host;
use crate::judging::{JudgedChain, judge};
use crate::leaf::leaf_first;
use crate::presented::is_for;
use crate::report::{Finding, Report};
use std::alloc::{AllocError, Global};
use ts_cert::Cert;
use ts_path::{Anchor, Inputs, Verdict};
use ts_revoke::Crls;
use ts_sig::SignatureCheck;

/// Whether a certificate is for the host, if one is asked for.
fn is_for_asked(leaf: &Cert<'_>, host: Option<Host<'_>>) -> bool
    ensures { IsTrue result ↔ IsForAsked host.entry (cert_in leaf.now) }
{
    match host {
        Some(host) => is_for(leaf, host),
        None => true,
    }
}

/// What is found, by the verdict on a chain of this leaf.
fn finding_of<'a>(leaf: &Cert<'_>, host: Option<Host<'_>>, verdict: Verdict<'a>) -> Finding<'a>
    ensures { (pool : List Certificate) → Says host.entry (cert_in leaf.now ∷ pool) verdict.entry
        result }
{
    match verdict {
        Verdict::Valid(policies) => {
            if is_for_asked(leaf, host) {
                Finding::Valid(policies)
            } else {
                Finding::OtherHost
            }
        }
        Verdict::Invalid { position, reason } => Finding::Invalid { position, reason },
    }
}

/// The report on certificates of which the leaf is the first.
fn report_on<'a, S: SignatureCheck>(
    alloc: Global,
    certificates: &[Cert<'a>],
    anchors: &[Anchor<'a>],
    inputs: &Inputs<'a>,
    crls: &Crls<'_>,
    host: Option<Host<'_>>,
    check: &S,
) -> Result<Report<'a>, AllocError>
    requires some { 1 ≤ length certificates.now }
    requires few { length certificates.now ≤ 33 }
    requires anchored { 1 ≤ length anchors.now }
    ensures { IfOk result (λ r. IsReportOn
        (search_with (map anchor_in anchors.now) (asked_under inputs.now crls.now
        (S.accepts check.now)) (map cert_in certificates.now)) host.entry r) }
{
    let JudgedChain {
        place,
        chain,
        verdict,
    } = judge(alloc, certificates, anchors, inputs, crls, check)?;
    Ok(Report {
        finding: finding_of(&certificates[0], host, verdict),
        chain,
        anchor_place: place,
        anchor: anchors[place],
        has_lists: !crls.lists.is_empty() || !crls.deltas.is_empty(),
    })
}

/// The report on 1 to 33 certificates, a leaf and those that may be above it, in any order, under
/// one of the trust anchors. Of the candidates in their order the first that is valid is the chain,
/// and where none is, the chain by names.
///
/// # Errors
///
/// Out of memory.
pub fn verify<'a, S: SignatureCheck>(
    alloc: Global,
    certificates: &[Cert<'a>],
    anchors: &[Anchor<'a>],
    inputs: &Inputs<'a>,
    crls: &Crls<'_>,
    host: Option<Host<'_>>,
    check: &S,
) -> Result<Report<'a>, AllocError>
    requires some { 1 ≤ length certificates.now }
    requires few { length certificates.now ≤ 33 }
    requires anchored { 1 ≤ length anchors.now }
    ensures { IfOk result (IsReport (search_with (map anchor_in anchors.now)
        (asked_under inputs.now crls.now (S.accepts check.now)))
        (map cert_in certificates.now) host.entry) }
{
    let ordered = leaf_first(alloc, certificates)?;
    let report = report_on(alloc, &ordered, anchors, inputs, crls, host, check)?;
    Ok(report)
}
