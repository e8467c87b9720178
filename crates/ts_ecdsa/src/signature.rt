//! Signatures.

ghost use Rattle.std.specs.Prelude.{◌≡◌, ◌%◌, ◌↔◌, IsTrue, false};
ghost use Rattle.ts_der.specs.Integer.{is_negative};
ghost use Rattle.ts_curve.specs.Octets.{number_of};
ghost use Rattle.ts_ecdsa.specs.Curve.{curve_of};
ghost use Rattle.ts_ecdsa.specs.Number.{IsNumberSignature};
ghost use Rattle.ts_ecdsa.specs.Signature.{IsEcdsaSignature};
ghost use Rattle.ts_ecdsa.specs.Tests.{is_ecdsa_signature_of};

use crate::curve::Curve;
use crate::digest::hash_number;
use crate::key::point_from_octets;
use crate::number::{is_number_signature, residue_from_integer};
use crate::value::signature_parts;
use ts_curve::{CurvePoint, DomainParameters, P256, P384, P521, Residue};
use ts_der::Integer;
use ts_digest::{Hash, Message};

/// Whether two INTEGERs are a signature of `e` under the key `q`.
fn is_integer_signature<C: DomainParameters>(
    q: &CurvePoint<C::Prime>,
    e: &Residue<C::Order>,
    r: Integer<'_>,
    s: Integer<'_>,
) -> bool
    ensures { IsTrue result ↔ ((is_negative r.entry.octets.now ≡ false)
        × (is_negative s.entry.octets.now ≡ false)
        × IsNumberSignature C.curve q.now e.now (number_of r.entry.octets.now)
        (number_of s.entry.octets.now)) }
{
    match residue_from_integer(r) {
        None => false,
        Some(first) => match residue_from_integer(s) {
            None => false,
            Some(second) => is_number_signature::<C>(q, e, &first, &second),
        },
    }
}

/// Whether octets are a signature of a message under a key.
fn is_signature_on<C: DomainParameters>(
    hash: Hash,
    public_key: &[u8],
    signed: &Message<'_>,
    signature: &[u8],
) -> bool
    ensures { IsTrue result
        ↔ IsEcdsaSignature C.curve hash public_key.now signed.now.octets.now signature.now }
{
    match point_from_octets::<C>(public_key) {
        None => false,
        Some(q) => match signature_parts(signature) {
            Err(_fault) => false,
            Ok((r, s)) => is_integer_signature::<C>(&q, &hash_number::<C>(hash, signed), r, s),
        },
    }
}

/// Whether `signature` is an ECDSA signature of `signed` under `public_key` (FIPS 186-5 6.4.2). The
/// key is an uncompressed point (SEC 1 2.3.4), the signature a SEQUENCE of two INTEGERs in DER (RFC
/// 3279 2.2.3). Of a hash that is longer than the order the leftmost bits count.
pub fn is_ecdsa_signature(
    curve: Curve,
    hash: Hash,
    public_key: &[u8],
    signed: &Message<'_>,
    signature: &[u8],
) -> bool
    ensures exactly { IsTrue result
        ↔ IsEcdsaSignature (curve_of curve) hash public_key.now signed.now.octets.now
        signature.now }
    ensures test { result
        ≡ is_ecdsa_signature_of (curve_of curve) hash public_key.now signed.now.octets.now
        signature.now }
{
    match curve {
        Curve::P256 => is_signature_on::<P256>(hash, public_key, signed, signature),
        Curve::P384 => is_signature_on::<P384>(hash, public_key, signed, signature),
        Curve::P521 => is_signature_on::<P521>(hash, public_key, signed, signature),
    }
}
