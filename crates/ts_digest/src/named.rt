//! By which function a signature algorithm hashes.

use crate::hash::Hash;

/// The contents octets of the object identifiers of the algorithms that hash with SHA-384
/// (sha384WithRSAEncryption of RFC 4055, ecdsa-with-SHA384 of RFC 5758).
const WITH_SHA384: [&[u8]; 2] = [
    &[0x2a, 0x86, 0x48, 0x86, 0xf7, 0x0d, 0x01, 0x01, 0x0c],
    &[0x2a, 0x86, 0x48, 0xce, 0x3d, 0x04, 0x03, 0x03],
];

/// Those of the algorithms that hash with SHA-512.
const WITH_SHA512: [&[u8]; 2] = [
    &[0x2a, 0x86, 0x48, 0x86, 0xf7, 0x0d, 0x01, 0x01, 0x0d],
    &[0x2a, 0x86, 0x48, 0xce, 0x3d, 0x04, 0x03, 0x04],
];

/// The function by which a signature algorithm hashes, by the contents octets of its object
/// identifier, where that is known to be SHA-384 or SHA-512; else SHA-256. It decides which hash is
/// computed beforehand, and so speed alone.
pub fn likely_hash(algorithm: &[u8]) -> Hash {
    if WITH_SHA384.contains(&algorithm) {
        return Hash::Sha384;
    }
    if WITH_SHA512.contains(&algorithm) {
        return Hash::Sha512;
    }
    Hash::Sha256
}
