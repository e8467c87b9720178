//! The trust anchor above the chain that was sent.

ghost use Rattle.std.specs.Prelude.{◌≡◌, ◌↔◌, IfOk, IsTrue, map};
ghost use Rattle.ts_name.specs.NameView.{rdns_in};
ghost use Rattle.ts_name.specs.Sameness.{is_same_name};
ghost use Rattle.ts_question.specs.RowView.{anchor_line};
ghost use Rattle.ts_sent.specs.Sent.{IsAbove, IsAnchorRow, IsNearest, above_by, issuers_of};
ghost use Rattle.ts_sent.specs.Sent.{name_alone, nearer, place_in, place_of};

use std::alloc::{AllocError, Global};
use ts_cert::Cert;
use ts_der::Element;
use ts_der::tag::SEQUENCE;
use ts_name::Name;
use ts_question::AnchorRow;

/// A trust anchor above a chain that was sent.
#[derive(Clone, Copy, Debug, PartialEq, Eq)]
pub struct AnchorAbove {
    /// The place of the certificate that has it as its issuer, counted from 0, the leaf's.
    pub place: usize,
    /// The SHA-256 of its certificate.
    pub anchor: [u8; 32],
}

/// The issuers of certificates, up to the first octets that are no certificate.
fn issuers_of(alloc: Global, sent: &[Vec<u8>]) -> Result<Vec<Name<'_>>, AllocError>
    ensures { IfOk result (λ issuers. map rdns_in issuers.items
        ≡ issuers_of (map (λ octets. octets.items) sent.now)) }
{
    let mut issuers = Vec::new(alloc);
    for octets in sent {
        let Ok(cert) = Cert::read(octets) else {
            return Ok(issuers);
        };
        issuers.push(cert.issuer())?;
    }
    Ok(issuers)
}

/// Whether an issuer has a name (RFC 5280 7.1).
fn is_named(issuer: &Name<'_>, name: Name<'_>) -> bool
    ensures { result ≡ is_same_name (rdns_in issuer.now) (rdns_in name.entry) }
{
    issuer.same(name)
}

/// The place of the first issuer that has a name.
fn place_in(issuers: &[Name<'_>], name: Name<'_>) -> Option<usize>
    ensures { result ≡ place_in (map rdns_in issuers.now) (rdns_in name.entry) 0 }
{
    for (place, issuer) in issuers.iter().enumerate() {
        if is_named(issuer, name) {
            return Some(place);
        }
    }
    None
}

/// The place of the first issuer that has the name of which these are the contents octets.
fn place_of(issuers: &[Name<'_>], subject: &[u8]) -> Option<usize>
    ensures { result ≡ place_of (map rdns_in issuers.now) (name_alone subject.now) }
{
    match Name::read(Element::of_content(SEQUENCE, subject)) {
        Ok(name) => place_in(issuers, name),
        Err(_) => None,
    }
}

/// The anchor above the first certificate whose issuer it is.
fn above_by(issuers: &[Name<'_>], row: &AnchorRow<'_>) -> Option<AnchorAbove>
    ensures { result ≡ above_by (map rdns_in issuers.now) (anchor_line row.now) }
{
    let place = place_of(issuers, row.subject)?;
    Some(AnchorAbove {
        place,
        anchor: row.id,
    })
}

/// The anchor of a row; a row of another kind has none.
fn above_in(issuers: &[Name<'_>], row: &[u8]) -> Result<Option<AnchorAbove>, AllocError>
    ensures { IfOk result (IsAbove (map rdns_in issuers.now) row.now) }
{
    match AnchorRow::read(row)? {
        Some(row) => Ok(above_by(issuers, &row)),
        None => Ok(None),
    }
}

/// Of two the one that is nearer to the leaf; where they are equally near, the first.
fn nearer(found: Option<AnchorAbove>, above: Option<AnchorAbove>) -> Option<AnchorAbove>
    ensures { result ≡ nearer found above }
{
    match (found, above) {
        (None, _) => above,
        (Some(_), None) => found,
        (Some(a), Some(b)) => if b.place < a.place { above } else { found },
    }
}

/// Of an anchor that was found before and those in these rows of a store, the one that is nearest
/// to the leaf of a chain that was sent.
///
/// # Errors
///
/// Out of memory.
pub fn nearest(
    alloc: Global,
    sent: &[Vec<u8>],
    found: Option<AnchorAbove>,
    rows: &[Vec<u8>],
) -> Result<Option<AnchorAbove>, AllocError>
    ensures { IfOk result (IsNearest (issuers_of (map (λ octets. octets.items) sent.now)) found
        (map (λ row. row.items) rows.now)) }
{
    let issuers = issuers_of(alloc, sent)?;
    let mut found = found;
    for row in rows {
        found = nearer(found, above_in(&issuers, row)?);
    }
    Ok(found)
}

/// Whether octets are the row of a trust anchor.
///
/// # Errors
///
/// Out of memory.
pub fn is_anchor(row: &[u8]) -> Result<bool, AllocError>
    ensures { IfOk result (λ is. IsTrue is ↔ IsAnchorRow row.now) }
{
    Ok(AnchorRow::read(row)?.is_some())
}
