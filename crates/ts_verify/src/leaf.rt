//! The leaf among certificates in any order.

ghost use Rattle.std.specs.Prelude.{◌≡◌, ◌≤◌, ◌<◌, ◌↔◌, length, map, IsTrue, IfOk};
ghost use Rattle.ts_cert.specs.CertView.{cert_in};
ghost use Rattle.ts_name.specs.Sameness.{is_same_name};
ghost use Rattle.ts_verify.specs.Leaf.{IsLeafFirst, IsLeafPlace, IssuesNone};

use std::alloc::{AllocError, Global};
use ts_cert::Cert;

/// Whether a certificate's subject is another's issuer.
pub(crate) fn issues(above: &Cert<'_>, cert: &Cert<'_>) -> bool
    ensures { result ≡ is_same_name (cert_in cert.now).tbsCertificate.issuer
        (cert_in above.now).tbsCertificate.subject }
{
    cert.issuer().same(above.subject())
}

/// Whether the certificate at a place issued none of the others.
fn issues_none(certificates: &[Cert<'_>], place: usize) -> bool
    requires { place < length certificates.now }
    ensures { IsTrue result ↔ IssuesNone (map cert_in certificates.now) place }
{
    for other in 0..certificates.len() {
        if other != place && issues(&certificates[place], &certificates[other]) {
            return false;
        }
    }
    true
}

/// The place of the leaf.
fn leaf_place(certificates: &[Cert<'_>]) -> usize
    requires { 1 ≤ length certificates.now }
    ensures within { result < length certificates.now }
    ensures leaf { IsLeafPlace (map cert_in certificates.now) result }
{
    for place in 0..certificates.len() {
        if issues_none(certificates, place) {
            return place;
        }
    }
    0
}

/// The certificates, of which the leaf comes first and then the others in their order.
pub(crate) fn leaf_first<'a>(
    alloc: Global,
    certificates: &[Cert<'a>],
) -> Result<Vec<Cert<'a>>, AllocError>
    requires { 1 ≤ length certificates.now }
    ensures leaf { IfOk result (λ ordered. IsLeafFirst (map cert_in certificates.now)
        (map cert_in ordered.items)) }
    ensures length { IfOk result (λ ordered. length ordered.items ≡ length certificates.now) }
{
    let place = leaf_place(certificates);
    let mut ordered = Vec::new(alloc);
    ordered.push(certificates[place])?;
    ordered.extend_from_slice(&certificates[..place])?;
    ordered.extend_from_slice(&certificates[place + 1..])?;
    Ok(ordered)
}
