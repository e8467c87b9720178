//! The text of a report.

ghost use Rattle.std.specs.Prelude.{◌≡◌, ◌↔◌, ◌++◌, ◌∷◌, [], List, ℕ, true, IfOk, OnOk};
ghost use Rattle.std.specs.Prelude.{length, map};
ghost use Rattle.std.specs.Prelude.{IsTrue, codes, string_bytes};
ghost use Rattle.std.specs.Fmt.{decimal};
ghost use Rattle.ts_reason.specs.Printed.{reason_text};
ghost use Rattle.ts_reason.specs.View.{reason_in};
ghost use Rattle.std.specs.List.{list_all};
ghost use Rattle.ts_line.specs.Lines.{with_line_feed, is_printable, printable};
ghost use Rattle.ts_line.specs.Names.{dotted_form};
ghost use Rattle.ts_verify.specs.declared.report.Finding.TheVariants.{OtherHost};
ghost use Rattle.ts_cert.specs.CertView.{cert_in};
ghost use Rattle.ts_judge.specs.Explained.{AtPlace, Explains, IsInvalidLine, lists_words};
ghost use Rattle.ts_judge.specs.Explained.{IsUnderNoAnchor, is_of_issuer, valid_words};
ghost use Rattle.ts_judge.specs.Text.{IsText, policies_text, words_of};

use std::alloc::{AllocError, Global};
use ts_cert::Cert;
use ts_der::OidRef;
use ts_explain::{certificate_line, reason_line, write_no_anchor};
use ts_line::{Line, write_name};
use ts_reason::Reason;
use ts_verify::{Finding, Report};

/// An object identifier in dotted form.
pub(crate) fn dotted_form(alloc: Global, oid: OidRef<'_>) -> Result<String, AllocError>
    ensures { IfOk result (λ text. string_bytes text ≡ dotted_form oid.entry.content.now) }
{
    format!(in alloc; "{oid}")
}

/// Policies, each behind a space.
fn policies_text(alloc: Global, policies: &[OidRef<'_>]) -> Result<String, AllocError>
    ensures { IfOk result (λ text. string_bytes text
        ≡ policies_text (map (λ p. p.content.now) policies.now)) }
{
    let mut text = String::new(alloc);
    for policy in policies {
        text.push_str(" ")?;
        text.push_str(dotted_form(alloc, *policy)?.as_str())?;
    }
    Ok(text)
}

/// The words for a certificate that does not meet a condition.
fn invalid_words(
    alloc: Global,
    position: u8,
    reason: Reason<OidRef<'_>>,
) -> Result<String, AllocError>
    ensures { IfOk result (λ text. string_bytes text
        ≡ codes "invalid " ++ (decimal position ++ (codes " "
        ++ reason_text (reason_in reason.entry)))) }
{
    format!(in alloc; "invalid {position} {reason}")
}

/// The words of the first line.
fn words_of(alloc: Global, report: &Report<'_>) -> Result<String, AllocError>
    ensures { IfOk result (λ text. string_bytes text
        ≡ words_of (length report.now.chain.items) report.now.finding) }
{
    match &report.finding {
        Finding::Valid(policies) => {
            let policies = policies_text(alloc, policies)?;
            format!(in alloc; "valid{policies}")
        }
        Finding::Invalid { position, reason } => invalid_words(alloc, *position, *reason),
        Finding::OtherHost => {
            let position = report.chain.len();
            format!(in alloc; "invalid {position} Host")
        }
    }
}

/// Whether a reason says that a certificate was not issued by the one above it.
fn is_of_issuer(reason: &Reason<OidRef<'_>>) -> bool
    ensures { result ≡ is_of_issuer reason.now }
{
    matches!(reason, Reason::Signature | Reason::IssuerName)
}

/// Whether the issuer of the first certificate is no trust anchor.
fn is_under_no_anchor(
    report: &Report<'_>,
    position: u8,
    reason: &Reason<OidRef<'_>>,
    cert: &Cert<'_>,
) -> bool
    ensures { IsTrue result
        ↔ IsUnderNoAnchor report.now position reason.now (cert_in cert.now) }
{
    position == 1 && is_of_issuer(reason) && !cert.issuer().same(report.anchor.name)
}

/// The line on a certificate that does not meet a condition.
fn invalid_line(
    alloc: Global,
    report: &Report<'_>,
    position: u8,
    reason: &Reason<OidRef<'_>>,
) -> Result<Line, AllocError>
    ensures { IfOk result (λ line. AtPlace report.now.chain.items position
        (IsInvalidLine report.now position reason.now line)) }
{
    let place = position as usize;
    let chain = report.chain.as_slice();
    let Some(cert) = chain.get(place.saturating_sub(1)) else {
        return Line::of(alloc, b"no certificate has this place");
    };
    if !is_under_no_anchor(report, position, reason, cert) {
        return reason_line(alloc, place, chain.len(), cert, reason);
    }
    let mut line = certificate_line(alloc, place, chain.len(), cert)?;
    write_no_anchor(alloc, &mut line, cert)?;
    Ok(line)
}

/// The line on a leaf that is for another host.
fn host_line(alloc: Global, report: &Report<'_>) -> Result<Line, AllocError>
    ensures { IfOk result (Explains report.now OtherHost) }
{
    let chain = report.chain.as_slice();
    let Some(cert) = chain.last() else {
        return Line::of(alloc, b"no certificate");
    };
    let mut line = certificate_line(alloc, chain.len(), chain.len(), cert)?;
    line.text(b"has no name of this host in its subjectAltName (RFC 9525 6)")?;
    Ok(line)
}

/// Writes whether revocation was looked at.
fn write_lists(line: &mut Line, has_lists: bool) -> Result<(), AllocError>
    ensures { OnOk result (line.new ≡ line.old ++ lists_words has_lists) }
{
    if has_lists {
        line.text(b"; no CRL at hand says that one is revoked")
    } else {
        line.text(b"; revocation was not looked at, no CRL was given")
    }
}

/// The line on a chain that is valid.
fn valid_line(alloc: Global, report: &Report<'_>) -> Result<Line, AllocError>
    ensures { IfOk result (λ line. line ≡ valid_words report.now) }
{
    let mut line = Line::of(alloc, b"a chain of ")?;
    line.number(report.chain.as_slice().len() as u64)?;
    line.text(b" under the trust anchor ")?;
    write_name(alloc, &mut line, report.anchor.name)?;
    write_lists(&mut line, report.has_lists)?;
    Ok(line)
}

/// The second line of a report, in plain words.
pub(crate) fn explanation(alloc: Global, report: &Report<'_>) -> Result<Line, AllocError>
    ensures { IfOk result (Explains report.now report.now.finding) }
{
    match &report.finding {
        Finding::Valid(_) => valid_line(alloc, report),
        Finding::Invalid { position, reason } => invalid_line(alloc, report, *position, reason),
        Finding::OtherHost => host_line(alloc, report),
    }
}

/// Writes a line and the line feed that ends it.
fn end(text: &mut Vec<u8>, line: &Line) -> Result<(), AllocError>
    ensures { OnOk result (text.new.items ≡ text.old.items ++ with_line_feed line.now) }
{
    text.extend_from_slice(line.as_slice())?;
    text.push(b'\n')?;
    Ok(())
}

/// The text of a report: its words, and a line that explains them, each ended by a line feed.
pub(crate) fn text(alloc: Global, report: &Report<'_>) -> Result<Vec<u8>, AllocError>
    ensures { IfOk result (λ text. IsText report.now text.items) }
{
    let words = words_of(alloc, report)?;
    let first = Line::of(alloc, words.as_bytes())?;
    let second = explanation(alloc, report)?;
    let mut text = Vec::new(alloc);
    end(&mut text, &first)?;
    end(&mut text, &second)?;
    Ok(text)
}
