//! The lines of a CRL.

use crate::entry::{moment_line, name_line, oid_line};
use crate::extension::extension_lines;
use crate::lines::Lines;
use std::alloc::AllocError;
use ts_crl::{Crl, Entry};
use ts_ext::{Holder, ReasonCode};
use ts_line::write_moment;

/// The name of a reason (RFC 5280 5.3.1).
fn reason_name(reason: ReasonCode) -> &'static str {
    match reason {
        ReasonCode::Unspecified => "unspecified",
        ReasonCode::KeyCompromise => "keyCompromise",
        ReasonCode::CaCompromise => "cACompromise",
        ReasonCode::AffiliationChanged => "affiliationChanged",
        ReasonCode::Superseded => "superseded",
        ReasonCode::CessationOfOperation => "cessationOfOperation",
        ReasonCode::CertificateHold => "certificateHold",
        ReasonCode::RemoveFromCrl => "removeFromCRL",
        ReasonCode::PrivilegeWithdrawn => "privilegeWithdrawn",
        ReasonCode::AaCompromise => "aACompromise",
    }
}

/// The line of an entry: the serial number, when the certificate was revoked, and why, where the
/// entry says so.
fn entry_line(lines: &mut Lines, entry: Entry<'_>) -> Result<(), AllocError> {
    let mut line = lines.begin(0, "revoked")?;
    line.word(b"")?;
    line.hex(entry.serial_number().octets)?;
    line.word(b"")?;
    write_moment(lines.alloc(), &mut line, entry.revocation_date().moment.0)?;
    if let Some(reason) = entry.reason_code() {
        line.word(reason_name(reason).as_bytes())?;
    }
    lines.push(line)
}

/// The lines of the entries, if there are any.
fn entry_lines(lines: &mut Lines, crl: Crl<'_>) -> Result<(), AllocError> {
    let Some(revoked) = crl.revoked() else {
        return Ok(());
    };
    for entry in revoked.iter() {
        entry_line(lines, entry)?;
    }
    Ok(())
}

/// The lines of the number of the list, and of that of the list whose changes it states.
fn number_lines(lines: &mut Lines, crl: Crl<'_>) -> Result<(), AllocError> {
    if let Some(number) = crl.crl_number() {
        lines.hex(0, "number", number.octets)?;
    }
    match crl.base_crl_number() {
        Some(number) => lines.hex(0, "base number", number.octets),
        None => Ok(()),
    }
}

/// The lines of a list: its fields in their order, its algorithm, its extensions, and its entries.
pub(crate) fn list_lines(lines: &mut Lines, crl: Crl<'_>) -> Result<(), AllocError> {
    name_line(lines, 0, "issuer", crl.issuer())?;
    moment_line(lines, 0, "this update", crl.this_update().moment.0)?;
    if let Some(time) = crl.next_update() {
        moment_line(lines, 0, "next update", time.moment.0)?;
    }
    number_lines(lines, crl)?;
    oid_line(
        lines,
        0,
        "signature algorithm",
        crl.signature_algorithm().algorithm,
    )?;
    extension_lines(lines, Holder::List, crl.extensions())?;
    entry_lines(lines, crl)
}
