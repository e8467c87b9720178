//! RSASSA-PSS (RFC 8017 8.1) and its encoding EMSA-PSS (9.1).

ghost use Rattle.std.specs.Prelude.{◌≡◌, ℕ, ◌+◌, ◌-◌, ◌*◌, ◌^◌, ◌<◌, ◌≤◌, ◌↔◌, ◌++◌, ◌∷◌, length};
ghost use Rattle.std.specs.Prelude.{drop, replicate, slice_index, IsTrue, EachIndex};
ghost use Rattle.ts_rsa.specs.Octets.{os2ip};
ghost use Rattle.ts_digest.specs.Hash.{hash_size, hash_of};
ghost use Rattle.ts_rsa.specs.Key.{bit_length, IsKey};
ghost use Rattle.ts_rsa.specs.Pss.{first_octet_limit, data_block, hash_in, salt_in, zeros_in};
ghost use Rattle.ts_rsa.specs.Pss.{IsPssEncoding, IsPssSignature};
ghost use Rattle.ts_rsa.specs.Tests.{pss_accepts};

use crate::key::{KeyBounds, OCTETS, bits_of, is_key};
use crate::mgf1::unmask;
use crate::opened::write_opened;
use ts_digest::{Hash, Message, hash_of_parts, size_of_hash};

/// Whether all octets are 0.
fn are_zero(octets: &[u8]) -> bool
    ensures { IsTrue result ↔ EachIndex octets.now (λ i. slice_index octets.now i ≡ 0) }
{
    octets.iter().all(|octet| *octet == 0)
}

/// How many values the first octet has, of which so many bits are 0.
fn first_limit(unused: usize) -> u16
    requires { unused ≤ 8 }
    ensures value { result ≡ 2 ^ (8 - unused) }
    ensures some { 0 < result }
    ensures small { result ≤ 256 }
{
    1 << (8 - unused)
}

/// Whether two slices have the same octets.
fn are_same(left: &[u8], right: &[u8]) -> bool
    ensures { IsTrue result ↔ (left.now ≡ right.now) }
{
    left == right
}

/// H, the hash before the trailer (9.1.2, step 5).
fn hash_part(em: &[u8], hash: Hash) -> &[u8]
    requires { hash_size hash + 1 ≤ length em.now }
    ensures { result.now ≡ hash_in hash em.now }
{
    let size = size_of_hash(hash);
    let (_, rest) = em.split_at(em.len() - size - 1);
    rest.split_at(size).0
}

/// Writes DB, the data block (9.1.2, steps 5 and 7 to 9).
fn write_data_block(block: &mut [u8], em: &[u8], bits: usize, hash: Hash)
    requires long_enough { 2 * hash_size hash + 2 ≤ length em.now }
    requires limit { length em.now ≤ 1024 }
    requires bits_within { bits ≤ 8 * length em.now }
    requires bits_near { 8 * length em.now ≤ bits + 8 }
    requires whole { length block.old ≡ length em.now - hash_size hash - 1 }
    ensures { block.new ≡ data_block hash bits em.now }
{
    let seed = hash_part(em, hash);
    let (masked, _) = em.split_at(em.len() - size_of_hash(hash) - 1);
    block.copy_from_slice(masked);
    unmask(block, hash, seed);
    let limit = first_limit(8 * em.len() - bits);
    block[0] = (block[0] as u16 % limit) as u8;
}

/// Whether a data block is zeros, 1 and the salt, and H is the hash of the message and the salt
/// (9.1.2, steps 10 to 14).
fn is_opened(block: &[u8], em: &[u8], hash: Hash, message: &Message<'_>) -> bool
    requires long_enough { 2 * hash_size hash + 2 ≤ length em.now }
    requires whole { length block.now ≡ length em.now - hash_size hash - 1 }
    ensures { IsTrue result ↔ ((block.now
        ≡ replicate (zeros_in hash em.now) 0 ++ 1 ∷ drop (zeros_in hash em.now + 1) block.now)
        × (hash_in hash em.now ≡ hash_of hash (replicate 8 0 ++ hash_of hash message.now.octets.now
        ++ drop (zeros_in hash em.now + 1) block.now))) }
{
    let place = em.len() - 2 * size_of_hash(hash) - 2;
    if !are_zero(block.split_at(place).0) {
        return false;
    }
    if block[place] != 1 {
        return false;
    }
    let (_, salt) = block.split_at(place + 1);
    let inner = message.hash_by(hash);
    let outer = hash_of_parts(hash, &[0; 8], inner.as_slice(), salt);
    are_same(hash_part(em, hash), outer.as_slice())
}

/// Whether octets encode the message in so many bits (9.1.2).
fn is_pss_encoding(em: &[u8], bits: usize, hash: Hash, message: &Message<'_>) -> bool
    requires limit { length em.now ≤ 1024 }
    requires bits_within { bits ≤ 8 * length em.now }
    requires bits_near { 8 * length em.now ≤ bits + 8 }
    ensures { IsTrue result ↔ IsPssEncoding hash bits message.now.octets.now em.now }
{
    let size = size_of_hash(hash);
    if em.len() < 2 * size + 2 {
        return false;
    }
    if em[em.len() - 1] != 0xbc {
        return false;
    }
    if em[0] as u16 >= first_limit(8 * em.len() - bits) {
        return false;
    }
    let mut room = [0; OCTETS];
    let block = &mut room[..em.len() - size - 1];
    write_data_block(block, em, bits, hash);
    is_opened(block, em, hash, message)
}

/// Whether the octets are a key within the bounds, and the signature is one of the message.
fn is_valid(
    bounds: KeyBounds,
    modulus: &[u8],
    exponent: u64,
    hash: Hash,
    message: &Message<'_>,
    signature: &[u8],
) -> bool
    ensures { IsTrue result ↔ (IsKey bounds modulus.now exponent
        × IsPssSignature (os2ip modulus.now) exponent (length modulus.now)
        (bit_length modulus.now) hash message.now.octets.now signature.now) }
{
    if !is_key(bounds, modulus, exponent) {
        return false;
    }
    if signature.len() != modulus.len() {
        return false;
    }
    let mut room = [0; OCTETS];
    let opened = &mut room[..modulus.len()];
    if !write_opened(opened, modulus, exponent, signature) {
        return false;
    }
    let bits = bits_of(modulus) - 1;
    if bits > 8 * (modulus.len() - 1) {
        return is_pss_encoding(opened, bits, hash, message);
    }
    let (first, em) = opened.split_at(1);
    first[0] == 0 && is_pss_encoding(em, bits, hash, message)
}

/// Whether the signature is one of the message by RSASSA-PSS (RFC 8017 8.1.2), with a salt as
/// long as the hash and MGF1 with the same hash function, under the key of these octets of a
/// modulus, the highest first and not 0, and this exponent.
pub fn is_pss_signature(
    bounds: KeyBounds,
    modulus: &[u8],
    exponent: u64,
    hash: Hash,
    message: &Message<'_>,
    signature: &[u8],
) -> bool
    ensures answer { result
        ≡ pss_accepts bounds modulus.now exponent hash message.now.octets.now signature.now }
    ensures exactly { IsTrue result ↔ (IsKey bounds modulus.now exponent
        × IsPssSignature (os2ip modulus.now) exponent (length modulus.now)
        (bit_length modulus.now) hash message.now.octets.now signature.now) }
{
    is_valid(bounds, modulus, exponent, hash, message, signature)
}
