//! A chain by names, where no chain is valid.

ghost use Rattle.std.specs.Prelude.{◌≡◌, ◌≤◌, ◌<◌, length, map, IfOk, IfSome};
ghost use Rattle.ts_cert.specs.CertView.{cert_in};
ghost use Rattle.ts_cert.specs.View.{key_in};
ghost use Rattle.ts_digest.specs.Message.{IsDigestOf};
ghost use Rattle.ts_name.specs.Sameness.{is_same_name};
ghost use Rattle.ts_path.specs.View.{anchor_in};
ghost use Rattle.ts_verify.specs.Lines.{has_signed as has_signed_of};
ghost use Rattle.ts_verify.specs.Lines.{IsAnchorAbove, IsNextAbove, is_next};
ghost use Rattle.ts_verify.specs.inside.Climbing.{IsClimbed, IsDigestAt};

use crate::leaf::issues;
use std::alloc::{AllocError, Global};
use ts_cert::{Cert, SubjectPublicKeyInfo};
use ts_digest::{Digest, Hash};
use ts_path::{Anchor, MAX_CHAIN};
use ts_revoke::own_key;
use ts_sig::{Message, SignatureCheck, hash_named};

/// A chain by names.
#[derive(Drop)]
pub(crate) struct Line {
    /// The places of its certificates, from the anchor's side to the leaf.
    pub(crate) places: Vec<u8>,
    /// The place of the anchor above it, where one has the name of the top certificate's issuer.
    pub(crate) anchor: Option<usize>,
}

/// The hash of what is signed of the certificate at a place, which is made once, however many keys
/// may have signed it. It is by the function that the signature algorithm uses; where that uses
/// none, as Ed25519, any serves.
fn digest_at(certificates: &[Cert<'_>], place: usize) -> Digest
    requires { place < length certificates.now }
    ensures { IsDigestAt result (map cert_in certificates.now) place }
{
    let cert = certificates[place];
    let hash = hash_named(cert.signature_algorithm().whole).unwrap_or(Hash::Sha256);
    Digest::of(hash, cert.tbs())
}

/// Whether a key has signed a certificate.
fn has_signed<S: SignatureCheck>(
    key: &SubjectPublicKeyInfo<'_>,
    cert: &Cert<'_>,
    digest: &Digest,
    check: &S,
) -> bool
    requires { IsDigestOf digest.now (cert_in cert.now).tbs }
    ensures { result ≡ has_signed_of (S.accepts check.now) (key_in key.now) (cert_in cert.now) }
{
    check.good(
        cert.signature_algorithm().whole,
        &own_key(key),
        &Message::with_digest(cert.tbs(), digest),
        cert.signature(),
    )
}

/// Whether a certificate's issuer has the name of an anchor.
fn is_issued_under(cert: &Cert<'_>, anchor: &Anchor<'_>) -> bool
    ensures { result ≡ is_same_name (cert_in cert.now).tbsCertificate.issuer
        (anchor_in anchor.now).name }
{
    cert.issuer().same(anchor.name)
}

/// The place of the first anchor that has the name of the issuer of the certificate at `top`, and
/// whose key has signed that one; where none has, of the first that has the name.
fn anchor_above<S: SignatureCheck>(
    anchors: &[Anchor<'_>],
    certificates: &[Cert<'_>],
    top: usize,
    digest: &Digest,
    check: &S,
) -> Option<usize>
    requires top { top < length certificates.now }
    requires digest { IsDigestAt digest.now (map cert_in certificates.now) top }
    ensures above { IsAnchorAbove (S.accepts check.now) (map anchor_in anchors.now)
        (map cert_in certificates.now) top result }
    ensures within { IfSome result (λ place. place < length anchors.now) }
{
    let cert = certificates[top];
    let mut named_place = None;
    for place in 0..anchors.len() {
        let anchor = anchors[place];
        if is_issued_under(&cert, &anchor) {
            if has_signed(&anchor.key, &cert, digest, check) {
                return Some(place);
            }
            named_place = named_place.or(Some(place));
        }
    }
    named_place
}

/// Whether a place is none of those in the chain, and the subject of the certificate there is the
/// issuer of the one at `top`.
fn is_next(certificates: &[Cert<'_>], top: usize, used: &[u8], place: usize) -> bool
    requires top { top < length certificates.now }
    requires place { place < length certificates.now }
    requires few { length certificates.now ≤ 33 }
    ensures { result ≡ is_next (map cert_in certificates.now) top used.now place }
{
    !used.contains(&(place as u8)) && issues(&certificates[place], &certificates[top])
}

/// The place of the first certificate that is at none of these places, whose subject is the issuer
/// of the one at `top`, and whose key has signed that one; where none has, of the first that has
/// the name.
fn next_above<S: SignatureCheck>(
    certificates: &[Cert<'_>],
    top: usize,
    used: &[u8],
    digest: &Digest,
    check: &S,
) -> Option<usize>
    requires top { top < length certificates.now }
    requires few { length certificates.now ≤ 33 }
    requires digest { IsDigestAt digest.now (map cert_in certificates.now) top }
    ensures above { IsNextAbove (S.accepts check.now) (map cert_in certificates.now) top used.now
        result }
    ensures within { IfSome result (λ place. place < length certificates.now) }
{
    let cert = certificates[top];
    let mut named_place = None;
    for place in 0..certificates.len() {
        if is_next(certificates, top, used, place) {
            let key = certificates[place].subject_public_key_info();
            if has_signed(&key, &cert, digest, check) {
                return Some(place);
            }
            named_place = named_place.or(Some(place));
        }
    }
    named_place
}

/// The chain from the leaf, which is the first, up by names: each time to the certificate above
/// that is not in the chain yet, until an anchor has the name, or none.
pub(crate) fn line_of<S: SignatureCheck>(
    alloc: Global,
    certificates: &[Cert<'_>],
    anchors: &[Anchor<'_>],
    check: &S,
) -> Result<Line, AllocError>
    requires some { 1 ≤ length certificates.now }
    requires few { length certificates.now ≤ 33 }
    ensures line { IfOk result (λ line. IsClimbed (S.accepts check.now) (map anchor_in anchors.now)
        (map cert_in certificates.now) line.places.items line.anchor) }
    ensures within { IfOk result
        (λ line. IfSome line.anchor (λ place. place < length anchors.now)) }
{
    let mut top = 0;
    let mut places = Vec::new(alloc);
    places.push(0)?;
    while places.len() < MAX_CHAIN {
        let digest = digest_at(certificates, top);
        let anchor = anchor_above(anchors, certificates, top, &digest, check);
        if anchor.is_some() {
            return Ok(Line { places, anchor });
        }
        let Some(next) = next_above(certificates, top, &places, &digest, check) else {
            return Ok(Line { places, anchor });
        };
        places.insert(0, next as u8)?;
        top = next;
    }
    let digest = digest_at(certificates, top);
    let anchor = anchor_above(anchors, certificates, top, &digest, check);
    Ok(Line { places, anchor })
}
