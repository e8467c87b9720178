//! The lines of extensions.

use crate::lines::Lines;
use crate::value::value_lines;
use std::alloc::AllocError;
use ts_ext::{Ext, Holder, Known};
use ts_extensions::{Extension, Extensions};
use ts_line::write_oid;

/// The name of an extension (RFC 5280 4.2.1, 5.2, 5.3).
fn name_of(known: Known) -> &'static str {
    match known {
        Known::SubjectKeyIdentifier => "subjectKeyIdentifier",
        Known::KeyUsage => "keyUsage",
        Known::SubjectAltName => "subjectAltName",
        Known::IssuerAltName => "issuerAltName",
        Known::BasicConstraints => "basicConstraints",
        Known::CrlNumber => "cRLNumber",
        Known::ReasonCode => "reasonCode",
        Known::InvalidityDate => "invalidityDate",
        Known::DeltaCrlIndicator => "deltaCRLIndicator",
        Known::IssuingDistributionPoint => "issuingDistributionPoint",
        Known::CertificateIssuer => "certificateIssuer",
        Known::NameConstraints => "nameConstraints",
        Known::CrlDistributionPoints => "cRLDistributionPoints",
        Known::CertificatePolicies => "certificatePolicies",
        Known::PolicyMappings => "policyMappings",
        Known::AuthorityKeyIdentifier => "authorityKeyIdentifier",
        Known::PolicyConstraints => "policyConstraints",
        Known::ExtendedKeyUsage => "extKeyUsage",
        Known::FreshestCrl => "freshestCRL",
        Known::InhibitAnyPolicy => "inhibitAnyPolicy",
    }
}

/// The line of an extension: its name or its object identifier, and whether it is critical.
fn head_line(
    lines: &mut Lines,
    holder: Holder,
    extension: Extension<'_>,
) -> Result<(), AllocError> {
    let mut line = lines.begin(0, "extension")?;
    line.word(b"")?;
    match Known::at(holder, extension.id) {
        Some(known) => line.text(name_of(known).as_bytes())?,
        None => write_oid(lines.alloc(), &mut line, extension.id.content)?,
    }
    if extension.critical {
        line.word(b"critical")?;
    }
    lines.push(line)
}

/// The lines of an extension: its head, and what its value says.
fn lines_of(lines: &mut Lines, holder: Holder, extension: Extension<'_>) -> Result<(), AllocError> {
    head_line(lines, holder, extension)?;
    match Ext::read(holder, extension.id, extension.value) {
        Ok(value) => value_lines(lines, value, extension.value.content),
        Err(_) => lines.number(1, "octets", extension.value.content.len() as u64),
    }
}

/// The lines of the extensions of a certificate, of a list or of an entry, if there are any.
pub(crate) fn extension_lines(
    lines: &mut Lines,
    holder: Holder,
    extensions: Option<Extensions<'_>>,
) -> Result<(), AllocError> {
    let Some(extensions) = extensions else {
        return Ok(());
    };
    for extension in extensions.iter() {
        lines_of(lines, holder, extension)?;
    }
    Ok(())
}
