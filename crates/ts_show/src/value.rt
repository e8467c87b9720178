//! The lines of the values of extensions.

use crate::entry::{general_line, oid_line, scope_line};
use crate::lines::Lines;
use std::alloc::AllocError;
use ts_ext::{
    BasicConstraints, CertificatePolicies, DistributionPoint, DistributionPoints, Ext,
    ExtendedKeyUsage, KeyUsage, PointName,
};
use ts_name::{GeneralNames, Subtree};
use ts_shape::SequenceOf;

/// The names of the bits of keyUsage, each with the place of its octet and its bit there (RFC 5280
/// 4.2.1.3).
const USAGES: [(usize, u8, &str); 9] = [
    (0, 0x80, "digitalSignature"),
    (0, 0x40, "nonRepudiation"),
    (0, 0x20, "keyEncipherment"),
    (0, 0x10, "dataEncipherment"),
    (0, 0x08, "keyAgreement"),
    (0, 0x04, "keyCertSign"),
    (0, 0x02, "cRLSign"),
    (0, 0x01, "encipherOnly"),
    (1, 0x80, "decipherOnly"),
];

/// Whether the octet at a place has this bit.
fn has_bit(octets: &[u8], place: usize, bit: u8) -> bool {
    match octets.get(place) {
        Some(octet) => octet & bit != 0,
        None => false,
    }
}

/// The line of the uses of a key (RFC 5280 4.2.1.3).
fn usage_line(lines: &mut Lines, usage: KeyUsage<'_>) -> Result<(), AllocError> {
    let mut line = lines.begin(1, "usage")?;
    for (place, bit, name) in USAGES {
        if has_bit(usage.bits.octets, place, bit) {
            line.word(name.as_bytes())?;
        }
    }
    lines.push(line)
}

/// The lines of whether the subject may issue certificates (RFC 5280 4.2.1.9).
fn basic_lines(lines: &mut Lines, constraints: BasicConstraints) -> Result<(), AllocError> {
    lines.entry(1, "ca", if constraints.ca { b"yes" } else { b"no" })?;
    match constraints.path_len_constraint {
        Some(count) => lines.number(1, "path length", u64::from(count)),
        None => Ok(()),
    }
}

/// The lines of general names.
fn general_lines(
    lines: &mut Lines,
    depth: usize,
    names: GeneralNames<'_>,
) -> Result<(), AllocError> {
    for name in names.iter() {
        general_line(lines, depth, "name", name)?;
    }
    Ok(())
}

/// The lines of the purposes of a key (RFC 5280 4.2.1.12).
fn purpose_lines(lines: &mut Lines, purposes: ExtendedKeyUsage<'_>) -> Result<(), AllocError> {
    for purpose in purposes.iter() {
        oid_line(lines, 1, "purpose", purpose.content)?;
    }
    Ok(())
}

/// The lines of policies (RFC 5280 4.2.1.4).
fn policy_lines(lines: &mut Lines, policies: CertificatePolicies<'_>) -> Result<(), AllocError> {
    for policy in policies.iter() {
        oid_line(lines, 1, "policy", policy.policy_identifier.content)?;
    }
    Ok(())
}

/// The lines of the bases of subtrees, if there are any (RFC 5280 4.2.1.10).
fn subtree_lines<'a>(
    lines: &mut Lines,
    key: &str,
    subtrees: Option<SequenceOf<'a, Subtree<'a>>>,
) -> Result<(), AllocError> {
    let Some(subtrees) = subtrees else {
        return Ok(());
    };
    for subtree in subtrees.iter() {
        general_line(lines, 1, key, subtree.base())?;
    }
    Ok(())
}

/// The lines of a distribution point: the names of the list, or that its name is relative (RFC 5280
/// 4.2.1.13).
fn point_lines(lines: &mut Lines, point: DistributionPoint<'_>) -> Result<(), AllocError> {
    match point.name {
        Some(PointName::FullName(names)) => general_lines(lines, 1, names),
        Some(PointName::RelativeName(_)) => lines.entry(1, "name", b"relative"),
        None => lines.entry(1, "name", b"-"),
    }
}

/// The lines of the places where lists are found (RFC 5280 4.2.1.13).
fn points_lines(lines: &mut Lines, points: DistributionPoints<'_>) -> Result<(), AllocError> {
    for point in points.iter() {
        point_lines(lines, point)?;
    }
    Ok(())
}

/// The lines of a value of these octets: of policyMappings, policyConstraints and
/// authorityKeyIdentifier how many octets there are, and so of an extension that is not read.
pub(crate) fn value_lines(
    lines: &mut Lines,
    value: Ext<'_>,
    octets: &[u8],
) -> Result<(), AllocError> {
    match value {
        Ext::SubjectKeyIdentifier(key) => lines.hex(1, "key", key),
        Ext::KeyUsage(usage) => usage_line(lines, usage),
        Ext::SubjectAltName(names) | Ext::IssuerAltName(names) | Ext::CertificateIssuer(names) =>
            general_lines(lines, 1, names.list),
        Ext::BasicConstraints(constraints) => basic_lines(lines, constraints),
        Ext::CrlNumber(number) => lines.hex(1, "number", number.octets),
        Ext::DeltaCrlIndicator(number) => lines.hex(1, "number", number.octets),
        Ext::NameConstraints(constraints) => {
            subtree_lines(lines, "permitted", constraints.permitted)?;
            subtree_lines(lines, "excluded", constraints.excluded)
        }
        Ext::CrlDistributionPoints(points) | Ext::FreshestCrl(points) => points_lines(
            lines, points,
        ),
        Ext::CertificatePolicies(policies) => policy_lines(lines, policies),
        Ext::ExtendedKeyUsage(purposes) => purpose_lines(lines, purposes),
        Ext::IssuingDistributionPoint(point) => scope_line(lines, point),
        Ext::InhibitAnyPolicy(count) => lines.number(1, "inhibit any policy", u64::from(count.0)),
        _ => lines.number(1, "octets", octets.len() as u64),
    }
}
