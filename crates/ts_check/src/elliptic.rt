//! Signatures by ECDSA under the keys of certificates.

ghost use Rattle.std.specs.Prelude.{◌≡◌};
ghost use Rattle.ts_sig.specs.Key.{key_of};
ghost use Rattle.ts_check.specs.Elliptic.{curve_name, curve_named, ecdsa_takes, is_on};

use ts_digest::{Hash, Message};
use ts_ecdsa::{Curve, is_ecdsa_signature};
use ts_sig::WorkingKey;

/// The content of OBJECT IDENTIFIER id-ecPublicKey (RFC 5480 2.1.1).
const EC_PUBLIC_KEY: [u8; 7] = [0x2a, 0x86, 0x48, 0xce, 0x3d, 2, 1];

/// The parameters that name a curve, the element of its OBJECT IDENTIFIER (RFC 5480 2.1.1.1).
fn name_of(curve: Curve) -> &'static [u8]
    ensures { result.now ≡ curve_name curve }
{
    match curve {
        Curve::P256 => &[6, 8, 0x2a, 0x86, 0x48, 0xce, 0x3d, 3, 1, 7],
        Curve::P384 => &[6, 5, 0x2b, 0x81, 4, 0, 0x22],
        Curve::P521 => &[6, 5, 0x2b, 0x81, 4, 0, 0x23],
    }
}

/// Whether a key is one on this curve.
#[tactic(auto, unfolding(crate::specs::Elliptic::is_on))]
fn is_on(curve: Curve, key: &WorkingKey<'_>) -> bool
    ensures { result ≡ is_on curve (key_of key.now) }
{
    if key.algorithm != EC_PUBLIC_KEY.as_slice() {
        return false;
    }
    match key.parameters {
        Some(parameters) => parameters == name_of(curve),
        None => false,
    }
}

/// The curve of a key.
#[tactic(auto, unfolding(crate::specs::Elliptic::curve_named))]
fn curve_named(key: &WorkingKey<'_>) -> Option<Curve>
    ensures { result ≡ curve_named (key_of key.now) }
{
    if is_on(Curve::P256, key) {
        return Some(Curve::P256);
    }
    if is_on(Curve::P384, key) {
        return Some(Curve::P384);
    }
    if is_on(Curve::P521, key) {
        return Some(Curve::P521);
    }
    None
}

/// Whether the signature is one by ECDSA under the key.
#[tactic(auto, unfolding(crate::specs::Elliptic::ecdsa_takes))]
pub fn ecdsa_takes(hash: Hash, key: &WorkingKey<'_>, signed: &Message<'_>, signature: &[u8]) -> bool
    ensures { result ≡ ecdsa_takes hash (key_of key.now) signed.now.octets.now signature.now }
{
    let Some(curve) = curve_named(key) else {
        return false;
    };
    is_ecdsa_signature(curve, hash, key.octets, signed, signature)
}
