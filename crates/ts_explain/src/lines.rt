//! Lines on a certificate of a chain.

ghost use Rattle.std.specs.Prelude.{◌≡◌, ◌++◌, IfOk, OnOk};
ghost use Rattle.ts_cert.specs.CertView.{cert_in};
ghost use Rattle.ts_line.specs.Lines.{printable};
ghost use Rattle.ts_explain.specs.Lines.{IsReasonLine, certificate_words, no_anchor_words};
ghost use Rattle.ts_explain.specs.Lines.{section_words};

use crate::sections::section;
use crate::words::write_why;
use std::alloc::{AllocError, Global};
use ts_cert::Cert;
use ts_der::OidRef;
use ts_line::{Line, write_name};
use ts_reason::Reason;

/// A line that begins with a certificate of a chain: its place, counted from 1, the anchor's side,
/// how many certificates the chain has, and its subject.
///
/// # Errors
///
/// Out of memory.
pub fn certificate_line(
    alloc: Global,
    place: usize,
    count: usize,
    cert: &Cert<'_>,
) -> Result<Line, AllocError>
    ensures { IfOk result (λ line. line ≡ certificate_words place count (cert_in cert.now)) }
{
    let mut line = Line::of(alloc, b"certificate ")?;
    line.number(place as u64)?;
    line.text(b" of ")?;
    line.number(count as u64)?;
    line.text(b", ")?;
    write_name(alloc, &mut line, cert.subject())?;
    line.text(b", ")?;
    Ok(line)
}

/// Writes the section that a reason is of.
fn write_section(line: &mut Line, reason: &Reason<OidRef<'_>>) -> Result<(), AllocError>
    ensures { OnOk result (line.new ≡ line.old ++ printable (section_words reason.now)) }
{
    line.text(b" (RFC ")?;
    line.text(section(reason).as_bytes())?;
    line.text(b")")
}

/// The line on a certificate of a chain that does not meet a condition: what [`certificate_line`]
/// begins with, why, and the section of the standard that has the condition.
///
/// # Errors
///
/// Out of memory.
pub fn reason_line(
    alloc: Global,
    place: usize,
    count: usize,
    cert: &Cert<'_>,
    reason: &Reason<OidRef<'_>>,
) -> Result<Line, AllocError>
    ensures { IfOk result (IsReasonLine place count (cert_in cert.now) reason.now) }
{
    let mut line = certificate_line(alloc, place, count, cert)?;
    write_why(alloc, &mut line, cert, reason)?;
    write_section(&mut line, reason)?;
    Ok(line)
}

/// Writes that the issuer of a certificate is no trust anchor.
///
/// # Errors
///
/// Out of memory.
pub fn write_no_anchor(alloc: Global, line: &mut Line, cert: &Cert<'_>) -> Result<(), AllocError>
    ensures { OnOk result (line.new ≡ line.old ++ no_anchor_words (cert_in cert.now)) }
{
    line.text(b"has the issuer ")?;
    write_name(alloc, line, cert.issuer())?;
    line.text(b", which is no trust anchor (RFC 5280 6.1.3 (a)(1), (a)(4))")
}
