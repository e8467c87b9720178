//! The lines of a command.

use crate::entry::{name_line, oid_line};
use crate::lines::Lines;
use std::alloc::AllocError;
use ts_cert::Cert;
use ts_command::{Command, Purposes};
use ts_crl::Crl;

/// The word for the kind of a command.
pub(crate) fn kind_word(command: &Command) -> &'static str {
    match command {
        Command::AddAnchor { .. } => "add",
        Command::WithdrawAnchor { .. } => "withdraw",
        Command::LoadCrl { .. } => "load",
        Command::DropCrl { .. } => "drop",
        Command::SetPurposes { .. } => "purposes",
        Command::Noop { .. } => "noop",
    }
}

/// The line of octets that are to be a certificate: its subject, or how many octets there are.
pub(crate) fn subject_line(
    lines: &mut Lines,
    depth: usize,
    octets: &[u8],
) -> Result<(), AllocError> {
    match Cert::read(octets) {
        Ok(cert) => name_line(lines, depth, "subject", cert.subject()),
        Err(_) => lines.number(depth, "octets", octets.len() as u64),
    }
}

/// The line of octets that are to be a list: its issuer, or how many octets there are.
fn issuer_line(lines: &mut Lines, octets: &[u8]) -> Result<(), AllocError> {
    match Crl::read(octets) {
        Ok(crl) => name_line(lines, 0, "issuer", crl.issuer()),
        Err(_) => lines.number(0, "octets", octets.len() as u64),
    }
}

/// The lines of the purposes of an anchor.
fn purposes_lines(lines: &mut Lines, purposes: &Purposes) -> Result<(), AllocError> {
    let Some(oids) = purposes.oids() else {
        return lines.entry(0, "purpose", b"any");
    };
    for oid in oids {
        oid_line(lines, 0, "purpose", oid.as_ref().content)?;
    }
    Ok(())
}

/// The lines of a command: its id, its kind and its fields.
pub(crate) fn command_lines(lines: &mut Lines, command: &Command) -> Result<(), AllocError> {
    lines.hex(0, "id", &command.id())?;
    lines.entry(0, "kind", kind_word(command).as_bytes())?;
    match command {
        Command::AddAnchor { certificate, .. } => subject_line(lines, 0, certificate.as_slice()),
        Command::WithdrawAnchor { anchor, .. } => lines.hex(0, "anchor", anchor),
        Command::LoadCrl { crl, .. } => issuer_line(lines, crl.as_slice()),
        Command::DropCrl { crl, .. } => lines.hex(0, "list", crl),
        Command::SetPurposes {
            anchor,
            purposes,
            ..
        } => {
            lines.hex(0, "anchor", anchor)?;
            purposes_lines(lines, purposes)
        }
        Command::Noop { .. } => Ok(()),
    }
}
