//! The hash functions.

ghost use Rattle.std.specs.Prelude.{◌≡◌, ◌+◌, ◌++◌, ◌≤◌, length};
ghost use Rattle.arrayvec.specs.ArrayVec.{array_vec_len};
ghost use Rattle.sha2.specs.Sha256.{sha256};
ghost use Rattle.sha2.specs.Sha512.{sha384, sha512};
ghost use Rattle.ts_digest.specs.Hash.{hash_size, hash_of};

use arrayvec::ArrayVec;
use sha2::Digest;

/// A hash function of FIPS 180-4.
#[derive(Clone, Copy, Debug, PartialEq, Eq)]
pub enum Hash {
    Sha256,
    Sha384,
    Sha512,
}

/// How many octets a hash has at most.
pub const HASH_OCTETS: usize = 64;

/// How many octets a hash has.
pub fn size_of_hash(hash: Hash) -> usize
    ensures value { result ≡ hash_size hash }
    ensures at_least { 32 ≤ result }
    ensures at_most { result ≤ HASH_OCTETS }
{
    match hash {
        Hash::Sha256 => 32,
        Hash::Sha384 => 48,
        Hash::Sha512 => 64,
    }
}

/// Appends octets for which there is room.
pub fn append<const N: usize>(octets: &mut ArrayVec<u8, N>, more: &[u8])
    requires { array_vec_len octets.old + length more.now ≤ N }
    ensures items { octets.new.items ≡ octets.old.items ++ more.now }
    ensures len { array_vec_len octets.new ≡ array_vec_len octets.old + length more.now }
{
    let _appended = octets.try_extend_from_slice(more);
}

/// Octets in an array.
pub(crate) fn array_of(octets: &[u8]) -> ArrayVec<u8, HASH_OCTETS>
    requires { length octets.now ≤ HASH_OCTETS }
    ensures items { result.items ≡ octets.now }
    ensures len { array_vec_len result ≡ length octets.now }
{
    let mut array = ArrayVec::new();
    append(&mut array, octets);
    array
}

/// The SHA-256 of three slices, one after another.
fn sha256_of_parts(first: &[u8], second: &[u8], third: &[u8]) -> [u8; 32]
    ensures { result ≡ sha256 (first.now ++ second.now ++ third.now) }
{
    let mut hasher = sha2::Sha256::new();
    hasher.update(first);
    hasher.update(second);
    hasher.update(third);
    hasher.finalize()
}

/// The SHA-384 of three slices, one after another.
fn sha384_of_parts(first: &[u8], second: &[u8], third: &[u8]) -> [u8; 48]
    ensures { result ≡ sha384 (first.now ++ second.now ++ third.now) }
{
    let mut hasher = sha2::Sha384::new();
    hasher.update(first);
    hasher.update(second);
    hasher.update(third);
    hasher.finalize()
}

/// The SHA-512 of three slices, one after another.
fn sha512_of_parts(first: &[u8], second: &[u8], third: &[u8]) -> [u8; 64]
    ensures { result ≡ sha512 (first.now ++ second.now ++ third.now) }
{
    let mut hasher = sha2::Sha512::new();
    hasher.update(first);
    hasher.update(second);
    hasher.update(third);
    hasher.finalize()
}

/// The hash of three slices, one after another.
pub fn hash_of_parts(
    hash: Hash,
    first: &[u8],
    second: &[u8],
    third: &[u8],
) -> ArrayVec<u8, HASH_OCTETS>
    ensures items { result.items ≡ hash_of hash (first.now ++ second.now ++ third.now) }
    ensures len { array_vec_len result ≡ hash_size hash }
{
    match hash {
        Hash::Sha256 => array_of(&sha256_of_parts(first, second, third)),
        Hash::Sha384 => array_of(&sha384_of_parts(first, second, third)),
        Hash::Sha512 => array_of(&sha512_of_parts(first, second, third)),
    }
}

/// The hash of a message.
pub fn hash_of_message(hash: Hash, message: &[u8]) -> ArrayVec<u8, HASH_OCTETS>
    ensures items { result.items ≡ hash_of hash message.now }
    ensures len { array_vec_len result ≡ hash_size hash }
{
    hash_of_parts(hash, message, &[], &[])
}
