//! A chain is judged, and the verdict printed.

ghost use Rattle.std.specs.Prelude.{◌≡◌, ◌≤◌, length, map, option_map, IfOk, IfErr};
ghost use Rattle.ts_cert.specs.CertView.{cert_in, certificate_in};
ghost use Rattle.ts_crl.specs.ListView.{crl_in};
ghost use Rattle.ts_path.specs.View.{anchor_in};
ghost use Rattle.ts_given.specs.Given.{octets_of};
ghost use Rattle.ts_judge.specs.Given.{anchors_of, asked_of, asked_with, AreRead, IsRefusal};
ghost use Rattle.ts_judge.specs.Given.{is_hard};
ghost use Rattle.ts_judge.specs.Judgement.{IsJudgement, IsPrinted};
ghost use Rattle.ts_judge.specs.inside.Views.{AreInputs};

use crate::fields::{is_valid, json};
use crate::given::{GivenChain, VerifyOptions};
use crate::printed::text;
use crate::reading::{Views, views_of};
use std::alloc::{AllocError, Global};
use ts_check::NativeCheck;
use ts_der::OidRef;
use ts_given::GivenFault;
use ts_path::Inputs;
use ts_revoke::Crls;
use ts_verify::{Host, Report, verify};

/// What is printed of a verdict, and whether the chain is valid.
#[derive(Debug, Drop)]
pub struct Judgement {
    /// The text that is printed: two lines, or one JSON object on a line.
    pub text: Vec<u8>,
    /// Whether the chain is valid and its leaf for the host that is asked.
    pub is_valid: bool,
    /// How many of the trust anchors are certificates.
    pub anchors: usize,
}

/// The text of a report.
fn printed(alloc: Global, report: &Report<'_>, as_json: bool) -> Result<Vec<u8>, AllocError>
    ensures { IfOk result (λ text. IsPrinted as_json report.now text.items) }
{
    if !as_json {
        return text(alloc, report);
    }
    let object = json(alloc, report)?;
    let mut line = Vec::from_slice(alloc, object.as_bytes())?;
    line.push(b'\n')?;
    Ok(line)
}

/// Whether revocation is hard, where there are so many CRLs.
fn is_hard(options: &VerifyOptions, crls: usize) -> bool
    ensures { result ≡ is_hard options.now crls }
{
    !options.soft && crls != 0
}

/// What path validation is asked beside the certificates, with these policies and this purpose.
fn inputs_of<'a>(
    options: &VerifyOptions,
    hard: bool,
    policies: &'a [OidRef<'a>],
    purpose: Option<&'a [u8]>,
) -> Inputs<'a>
    ensures { AreInputs options.now hard (option_map (λ p. p.now) purpose.entry)
        (map (λ p. p.content.now) policies.now) result }
{
    Inputs {
        moment: options.moment,
        purpose,
        user_policies: policies,
        explicit_policy: options.explicit_policy,
        inhibit_policy_mapping: options.inhibit_policy_mapping,
        inhibit_any_policy: options.inhibit_any_policy,
        permitted_subtrees: &[],
        excluded_subtrees: &[],
        hard,
        use_deltas: options.use_deltas,
    }
}

/// The verdict on what was read.
fn judgement_on<'a>(
    alloc: Global,
    views: Views<'a>,
    options: &VerifyOptions,
    hard: bool,
    host: Option<Host<'_>>,
    as_json: bool,
) -> Result<Judgement, AllocError>
    requires anchored { 1 ≤ length views.anchors.items }
    requires some { 1 ≤ length views.certificates.items }
    requires few { length views.certificates.items ≤ 33 }
    ensures judged { IfOk result (IsJudgement (map anchor_in views.entry.anchors.items)
        (asked_with options.now (option_map (λ p. p.now) views.entry.purpose)
        (map (λ p. p.content.now) views.entry.policies.items) hard
        (map crl_in views.entry.crls.lists.items) (map crl_in views.entry.crls.deltas.items))
        (map cert_in views.entry.certificates.items) host.entry as_json) }
    ensures anchors { IfOk result (λ j. j.anchors ≡ length views.entry.anchors.items) }
{
    let Views {
        anchors,
        certificates,
        crls,
        policies,
        purpose,
    } = views;
    let inputs = inputs_of(options, hard, &policies, purpose);
    let held = Crls {
        lists: &crls.lists,
        deltas: &crls.deltas,
    };
    let report = verify(
        alloc,
        &certificates,
        &anchors,
        &inputs,
        &held,
        host,
        &NativeCheck,
    )?;
    let text = printed(alloc, &report, as_json)?;
    Ok(Judgement {
        text,
        is_valid: is_valid(&report.finding),
        anchors: anchors.len(),
    })
}

/// The verdict on what is given, by signatures that are checked here, as a text. Revocation is hard
/// where there are CRLs, unless the options say otherwise.
///
/// # Errors
///
/// The first part that is refused: `Count` for no certificate or more than 33, `NoAnchor`,
/// `Certificate`, `Crl`; and `Memory`.
#[tactic(auto, using(crate::proofs::Asking::judged))]
pub fn judge<'a>(
    alloc: Global,
    given: &'a GivenChain,
    options: &VerifyOptions,
    host: Option<Host<'_>>,
    as_json: bool,
) -> Result<Judgement, GivenFault<'a>>
    ensures judged { IfOk result (IsJudgement (anchors_of (octets_of given.now.anchors.items))
        (asked_of given.now options.now)
        (map certificate_in (octets_of given.now.certificates.items)) host.entry as_json) }
    ensures read { IfOk result (λ _. AreRead (octets_of given.now.anchors.items)
        (octets_of given.now.certificates.items) (octets_of given.now.crls.items)) }
    ensures refused { IfErr result (IsRefusal (octets_of given.now.anchors.items)
        (octets_of given.now.certificates.items) (octets_of given.now.crls.items)) }
    ensures anchors { IfOk result
        (λ j. j.anchors ≡ length (anchors_of (octets_of given.now.anchors.items))) }
{
    let views = views_of(alloc, given)?;
    let hard = is_hard(options, given.crls.len());
    let judgement = judgement_on(alloc, views, options, hard, host, as_json)?;
    Ok(judgement)
}
