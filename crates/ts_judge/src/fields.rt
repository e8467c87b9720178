//! A report as one JSON object.

ghost use Rattle.std.specs.Prelude.{◌≡◌, IfOk, Some, length, map, option_map, string_bytes};
ghost use Rattle.ts_reason.specs.Printed.{reason_text};
ghost use Rattle.ts_reason.specs.View.{reason_in as said_in};
ghost use Rattle.ts_judge.specs.Explained.{Explains, IsSubject, place_in};
ghost use Rattle.ts_judge.specs.Fields.{AreFields, IsJson, is_valid, policies_in, reason_in};
ghost use Rattle.ts_judge.specs.Fields.{section_in};
ghost use Rattle.ts_line.specs.Names.{dotted_form, name_text};
ghost use Rattle.ts_name.specs.NameView.{rdns_in};

use crate::printed::{dotted_form, explanation};
use std::alloc::{AllocError, Global};
use ts_cert::Cert;
use ts_der::OidRef;
use ts_explain::section;
use ts_json::{VerdictFields, object_text};
use ts_line::name_text;
use ts_reason::Reason;
use ts_verify::{Finding, Report};

/// The second line of the report.
fn explanation_text(alloc: Global, report: &Report<'_>) -> Result<String, AllocError>
    ensures { IfOk result (λ text. Explains report.now report.now.finding
        (string_bytes text)) }
{
    let line = explanation(alloc, report)?;
    line.to_text()
}

/// Whether a chain was found valid, and its leaf is for the host that is asked.
pub(crate) fn is_valid(finding: &Finding<'_>) -> bool
    ensures { result ≡ is_valid finding.now }
{
    matches!(finding, Finding::Valid(_))
}

/// The place of the certificate that is not good, in a chain of this length.
fn place_of(count: usize, finding: &Finding<'_>) -> Option<u64>
    ensures { result ≡ place_in count finding.now }
{
    match finding {
        Finding::Valid(_) => None,
        Finding::Invalid { position, .. } => Some(*position as u64),
        Finding::OtherHost => Some(count as u64),
    }
}

/// The name of a reason.
fn name_of(alloc: Global, reason: Reason<OidRef<'_>>) -> Result<String, AllocError>
    ensures { IfOk result (λ text. string_bytes text ≡ reason_text (said_in reason.entry)) }
{
    format!(in alloc; "{reason}")
}

/// The reason that a finding gives.
fn reason_of(alloc: Global, finding: &Finding<'_>) -> Result<Option<String>, AllocError>
    ensures { IfOk result (λ text. option_map string_bytes text ≡ reason_in finding.now) }
{
    match finding {
        Finding::Valid(_) => Ok(None),
        Finding::Invalid { reason, .. } => Ok(Some(name_of(alloc, *reason)?)),
        Finding::OtherHost => Ok(Some(String::from_str(alloc, "Host")?)),
    }
}

/// The section of that reason.
fn section_of(alloc: Global, finding: &Finding<'_>) -> Result<Option<String>, AllocError>
    ensures { IfOk result (λ text. option_map string_bytes text ≡ section_in finding.now) }
{
    match finding {
        Finding::Valid(_) => Ok(None),
        Finding::Invalid { reason, .. } => Ok(Some(String::from_str(alloc, section(reason))?)),
        Finding::OtherHost => Ok(Some(String::from_str(alloc, "9525 6")?)),
    }
}

/// The subject of the certificate at a place, which counts from 1, if there is one.
fn subject_at(
    alloc: Global,
    report: &Report<'_>,
    place: usize,
) -> Result<Option<String>, AllocError>
    ensures { IfOk result (λ text. IsSubject report.now (Some place)
        (option_map string_bytes text)) }
{
    match report.chain.get(place.saturating_sub(1)) {
        Some(cert) => Ok(Some(name_text(alloc, cert.subject())?)),
        None => Ok(None),
    }
}

/// The subject of the certificate that is not good.
fn subject_of(alloc: Global, report: &Report<'_>) -> Result<Option<String>, AllocError>
    ensures { IfOk result (λ text. IsSubject report.now
        (place_in (length report.now.chain.items) report.now.finding)
        (option_map string_bytes text)) }
{
    match &report.finding {
        Finding::Valid(_) => Ok(None),
        Finding::Invalid { position, .. } => subject_at(alloc, report, *position as usize),
        Finding::OtherHost => subject_at(alloc, report, report.chain.len()),
    }
}

/// Object identifiers in dotted form.
fn all_dotted(alloc: Global, oids: &[OidRef<'_>]) -> Result<Vec<String>, AllocError>
    ensures { IfOk result (λ texts. map string_bytes texts.items
        ≡ map dotted_form (map (λ p. p.content.now) oids.now)) }
{
    let mut texts = Vec::new(alloc);
    for oid in oids {
        texts.push(dotted_form(alloc, *oid)?)?;
    }
    Ok(texts)
}

/// The policies that a finding accepts.
fn policies_of(alloc: Global, finding: &Finding<'_>) -> Result<Vec<String>, AllocError>
    ensures { IfOk result (λ texts. map string_bytes texts.items ≡ policies_in finding.now) }
{
    match finding {
        Finding::Valid(policies) => all_dotted(alloc, policies),
        _ => Ok(Vec::new(alloc)),
    }
}

/// The fields of a report.
fn fields_of(alloc: Global, report: &Report<'_>) -> Result<VerdictFields, AllocError>
    ensures { IfOk result (AreFields report.now) }
{
    Ok(VerdictFields {
        valid: is_valid(&report.finding),
        position: place_of(report.chain.len(), &report.finding),
        of: report.chain.len() as u64,
        reason: reason_of(alloc, &report.finding)?,
        section: section_of(alloc, &report.finding)?,
        subject: subject_of(alloc, report)?,
        explanation: explanation_text(alloc, report)?,
        policies: policies_of(alloc, &report.finding)?,
        anchor: name_text(alloc, report.anchor.name)?,
        revocation_checked: report.has_lists,
    })
}

/// A report as one JSON object, without spaces and without the end of a line.
pub(crate) fn json(alloc: Global, report: &Report<'_>) -> Result<String, AllocError>
    ensures { IfOk result (λ text. IsJson report.now (string_bytes text)) }
{
    let fields = fields_of(alloc, report)?;
    let text = object_text(alloc, &fields)?;
    Ok(text)
}
