//! Signatures by RSA under the keys of certificates.

ghost use Rattle.std.specs.Prelude.{◌≡◌};
ghost use Rattle.ts_sig.specs.Key.{key_of};
ghost use Rattle.ts_check.specs.Rsa.{is_for_rsa, is_for_pss, pkcs1_takes, pss_takes};

use crate::public_key::read_public;
use ts_digest::{Hash, Message};
use ts_rsa::{KeyBounds, is_pkcs1_signature, is_pss_signature};
use ts_sig::WorkingKey;

/// The content of OBJECT IDENTIFIER rsaEncryption (RFC 4055 1.2).
const RSA_ENCRYPTION: [u8; 9] = [0x2a, 0x86, 0x48, 0x86, 0xf7, 0x0d, 1, 1, 1];

/// The content of OBJECT IDENTIFIER id-RSASSA-PSS (RFC 4055 3.1).
const RSASSA_PSS: [u8; 9] = [0x2a, 0x86, 0x48, 0x86, 0xf7, 0x0d, 1, 1, 10];

/// The element NULL.
const NULL: [u8; 2] = [5, 0];

/// Whether a key is for every signature by RSA. Path validation hands on no parameters where they
/// are NULL (RFC 5280 6.1.4 (e)).
#[tactic(auto, unfolding(crate::specs::Rsa::is_for_rsa))]
fn is_for_rsa(key: &WorkingKey<'_>) -> bool
    ensures { result ≡ is_for_rsa (key_of key.now) }
{
    if key.algorithm != RSA_ENCRYPTION.as_slice() {
        return false;
    }
    match key.parameters {
        Some(parameters) => parameters == NULL.as_slice(),
        None => true,
    }
}

/// Whether a key is for RSASSA-PSS alone, with every hash function.
#[tactic(auto, unfolding(crate::specs::Rsa::is_for_pss))]
fn is_for_pss(key: &WorkingKey<'_>) -> bool
    ensures { result ≡ is_for_pss (key_of key.now) }
{
    key.algorithm == RSASSA_PSS.as_slice() && key.parameters.is_none()
}

/// Whether the signature is one by RSASSA-PKCS1-v1_5 under the key.
#[tactic(auto, unfolding(crate::specs::Rsa::pkcs1_takes, crate::specs::Rsa::holds_of_public))]
pub fn pkcs1_takes(hash: Hash, key: &WorkingKey<'_>, signed: &Message<'_>, signature: &[u8]) -> bool
    ensures { result ≡ pkcs1_takes hash (key_of key.now) signed.now.octets.now signature.now }
{
    if !is_for_rsa(key) {
        return false;
    }
    let Some(public) = read_public(key.octets) else {
        return false;
    };
    is_pkcs1_signature(
        KeyBounds::STANDARD,
        public.modulus,
        public.exponent,
        hash,
        signed,
        signature,
    )
}

/// Whether the signature is one by RSASSA-PSS under the key.
#[tactic(auto, unfolding(crate::specs::Rsa::pss_takes, crate::specs::Rsa::holds_of_public))]
pub fn pss_takes(hash: Hash, key: &WorkingKey<'_>, signed: &Message<'_>, signature: &[u8]) -> bool
    ensures { result ≡ pss_takes hash (key_of key.now) signed.now.octets.now signature.now }
{
    if !is_for_rsa(key) && !is_for_pss(key) {
        return false;
    }
    let Some(public) = read_public(key.octets) else {
        return false;
    };
    is_pss_signature(
        KeyBounds::STANDARD,
        public.modulus,
        public.exponent,
        hash,
        signed,
        signature,
    )
}
