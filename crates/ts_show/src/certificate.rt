//! The lines of a certificate.

use crate::entry::{moment_line, name_line, oid_line};
use crate::extension::extension_lines;
use crate::lines::Lines;
use std::alloc::AllocError;
use ts_cert::{Cert, Version};
use ts_ext::Holder;

/// The number of a version (RFC 5280 4.1.2.1).
fn number_of(version: Version) -> u64 {
    match version {
        Version::V1 => 1,
        Version::V2 => 2,
        Version::V3 => 3,
    }
}

/// The lines of a certificate: its fields in their order, its algorithms, and its extensions.
pub(crate) fn certificate_lines(lines: &mut Lines, cert: Cert<'_>) -> Result<(), AllocError> {
    lines.number(0, "version", number_of(cert.version()))?;
    lines.hex(0, "serial", cert.serial_number().octets)?;
    name_line(lines, 0, "issuer", cert.issuer())?;
    let validity = cert.validity();
    moment_line(lines, 0, "not before", validity.not_before.moment.0)?;
    moment_line(lines, 0, "not after", validity.not_after.moment.0)?;
    name_line(lines, 0, "subject", cert.subject())?;
    oid_line(
        lines,
        0,
        "signature algorithm",
        cert.signature_algorithm().algorithm,
    )?;
    let key = cert.subject_public_key_info();
    oid_line(lines, 0, "key algorithm", key.algorithm.algorithm)?;
    lines.number(0, "key octets", key.subject_public_key.len() as u64)?;
    extension_lines(lines, Holder::Certificate, cert.extensions())
}
