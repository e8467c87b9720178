//! RSASSA-PKCS1-v1_5 (RFC 8017 8.2) and its encoding EMSA-PKCS1-v1_5 (9.2).

ghost use Rattle.std.specs.Prelude.{◌≡◌, ◌+◌, ◌++◌, ◌<◌, ◌≤◌, ◌↔◌, length, IfSome, IsNone, IsTrue};
ghost use Rattle.ts_rsa.specs.Octets.{os2ip};
ghost use Rattle.ts_rsa.specs.Key.{IsKey};
ghost use Rattle.ts_rsa.specs.Pkcs1.{prefix_of, digest_info, encoded_around, IsPkcs1Signature};
ghost use Rattle.ts_rsa.specs.Tests.{pkcs1_accepts};

use crate::key::{KeyBounds, OCTETS, is_key};
use crate::opened::write_opened;
use arrayvec::ArrayVec;
use ts_digest::{Hash, Message, append};

/// How many octets a DigestInfo has at most.
const INFO_OCTETS: usize = 83;

const SHA256_PREFIX: [u8; 19] = [
    0x30, 0x31, 0x30, 0x0d, 0x06, 0x09, 0x60, 0x86, 0x48, 0x01, 0x65, 0x03, 0x04, 0x02, 0x01, 0x05,
    0x00, 0x04, 0x20,
];

const SHA384_PREFIX: [u8; 19] = [
    0x30, 0x41, 0x30, 0x0d, 0x06, 0x09, 0x60, 0x86, 0x48, 0x01, 0x65, 0x03, 0x04, 0x02, 0x02, 0x05,
    0x00, 0x04, 0x30,
];

const SHA512_PREFIX: [u8; 19] = [
    0x30, 0x51, 0x30, 0x0d, 0x06, 0x09, 0x60, 0x86, 0x48, 0x01, 0x65, 0x03, 0x04, 0x02, 0x03, 0x05,
    0x00, 0x04, 0x40,
];

/// What a DigestInfo has before the hash (9.2, note 1).
fn prefix(hash: Hash) -> [u8; 19]
    ensures { result ≡ prefix_of hash }
{
    match hash {
        Hash::Sha256 => SHA256_PREFIX,
        Hash::Sha384 => SHA384_PREFIX,
        Hash::Sha512 => SHA512_PREFIX,
    }
}

/// The DER encoding of the DigestInfo of a message.
#[tactic(auto, unfolding(crate::specs::Pkcs1::digest_info))]
fn info_of(hash: Hash, message: &Message<'_>) -> ArrayVec<u8, INFO_OCTETS>
    ensures { result.items ≡ digest_info hash message.now.octets.now }
{
    let mut info = ArrayVec::new();
    append(&mut info, &prefix(hash));
    append(&mut info, message.hash_by(hash).as_slice());
    info
}

/// The encoded message of `len` octets; `None` if these are too few.
fn encode(hash: Hash, message: &Message<'_>, len: usize) -> Option<ArrayVec<u8, OCTETS>>
    requires { len ≤ OCTETS }
    ensures found { IfSome result
        (λ octets. octets.items ≡ encoded_around (digest_info hash message.now.octets.now) len) }
    ensures none { IsNone result ↔ (len < length (digest_info hash message.now.octets.now) + 11) }
{
    let info = info_of(hash, message);
    if len < info.len() + 11 {
        return None;
    }
    let mut octets = ArrayVec::new();
    octets.push(0);
    octets.push(1);
    for filled in 0..len - info.len() - 3 {
        octets.push(0xff);
    }
    octets.push(0);
    append(&mut octets, info.as_slice());
    Some(octets)
}

/// Whether the octets are a key within the bounds, and the signature is one of the message.
fn is_valid(
    bounds: KeyBounds,
    modulus: &[u8],
    exponent: u64,
    hash: Hash,
    message: &Message<'_>,
    signature: &[u8],
) -> bool
    ensures { IsTrue result ↔ (IsKey bounds modulus.now exponent
        × IsPkcs1Signature (os2ip modulus.now) exponent (length modulus.now) hash
        message.now.octets.now signature.now) }
{
    if !is_key(bounds, modulus, exponent) {
        return false;
    }
    if signature.len() != modulus.len() {
        return false;
    }
    let mut room = [0; OCTETS];
    let opened = &mut room[..modulus.len()];
    if !write_opened(opened, modulus, exponent, signature) {
        return false;
    }
    match encode(hash, message, modulus.len()) {
        Some(octets) => octets.as_slice() == opened,
        None => false,
    }
}

/// Whether the signature is one of the message by RSASSA-PKCS1-v1_5 (RFC 8017 8.2.2) under the
/// key of these octets of a modulus, the highest first and not 0, and this exponent.
pub fn is_pkcs1_signature(
    bounds: KeyBounds,
    modulus: &[u8],
    exponent: u64,
    hash: Hash,
    message: &Message<'_>,
    signature: &[u8],
) -> bool
    ensures answer { result
        ≡ pkcs1_accepts bounds modulus.now exponent hash message.now.octets.now signature.now }
    ensures exactly { IsTrue result ↔ (IsKey bounds modulus.now exponent
        × IsPkcs1Signature (os2ip modulus.now) exponent (length modulus.now) hash
        message.now.octets.now signature.now) }
{
    is_valid(bounds, modulus, exponent, hash, message, signature)
}
