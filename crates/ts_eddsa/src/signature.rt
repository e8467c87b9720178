//! Signatures (RFC 8032 5.1.7).

ghost use Rattle.std.specs.Prelude.{◌≡◌, ◌↔◌, ◌&&◌, nat_lt, length, IsTrue, Some};
ghost use Rattle.ts_prime.specs.Primes.{l25519};
ghost use Rattle.ts_curve.specs.Four.{number4};
ghost use Rattle.ts_eddsa.specs.Octets.{little};
ghost use Rattle.ts_eddsa.specs.Decode.{decode};
ghost use Rattle.ts_eddsa.specs.Signature.{challenge, IsEd25519Signature};
ghost use Rattle.ts_eddsa.specs.Tests.{holds, is_ed25519_signature_of};

use crate::decode::decode;
use crate::number::{limbs_from_little, remainder_of_little};
use crate::order::Order25519;
use crate::point::EdwardsPoint;
use ts_curve::{Limbs, Limbs4, Modulus, Residue};
use ts_digest::{Hash, hash_of_parts};

/// The number k (step 2).
fn challenge(r: &[u8], public_key: &[u8], message: &[u8]) -> Limbs4
    ensures { number4 result ≡ challenge r.now public_key.now message.now }
{
    let hash = hash_of_parts(Hash::Sha512, r, public_key, message);
    let k: Residue<Order25519> = remainder_of_little(hash.as_slice());
    k.to_limbs()
}

/// Whether [S]B = R + [k]A (step 3).
fn is_solved(a: &EdwardsPoint, r: &EdwardsPoint, s: &Limbs4, k: &Limbs4) -> bool
    ensures { result ≡ holds (Some a.now) (Some r.now) (number4 s.now) (number4 k.now) }
{
    let left = EdwardsPoint::base().multiple(s);
    let mut right = r.copy();
    right.add(&a.multiple(k).addend());
    left.is_equal(&right)
}

/// Whether a number is below L.
fn is_scalar(s: &Limbs4) -> bool
    ensures { result ≡ nat_lt (number4 s.now) l25519 }
{
    Limbs4::is_less(s, &Order25519::prime())
}

/// Whether the key and R decode, and their points solve the equation.
fn is_checked(public_key: &[u8], message: &[u8], first: &[u8], s: &Limbs4) -> bool
    ensures { result ≡ holds (decode public_key.now) (decode first.now) (number4 s.now)
        (challenge first.now public_key.now message.now) }
{
    let Some(a) = decode(public_key) else {
        return false;
    };
    let Some(r) = decode(first) else {
        return false;
    };
    is_solved(&a, &r, s, &challenge(first, public_key, message))
}

/// Whether S is below L, and the rest is good.
fn is_half_good(public_key: &[u8], message: &[u8], first: &[u8], second: &[u8]) -> bool
    requires { length second.now ≡ 32 }
    ensures { result ≡ (nat_lt (little second.now) l25519
        && holds (decode public_key.now) (decode first.now) (little second.now)
        (challenge first.now public_key.now message.now)) }
{
    let s = limbs_from_little(second);
    if !is_scalar(&s) {
        return false;
    }
    is_checked(public_key, message, first, &s)
}

/// Whether both halves of a signature are good.
#[tactic(auto, unfolding(crate::specs::Tests::is_ed25519_signature_of))]
fn accepts(public_key: &[u8], message: &[u8], signature: &[u8]) -> bool
    ensures { result
        ≡ is_ed25519_signature_of public_key.now message.now signature.now }
{
    if signature.len() != 64 {
        return false;
    }
    let (first, second) = signature.split_at(32);
    is_half_good(public_key, message, first, second)
}

/// Whether `signature` is an Ed25519 signature of `message` under `public_key` (RFC 8032 5.1.7).
/// The key has 32 octets, the signature 64; the message is not hashed before.
pub fn is_ed25519_signature(public_key: &[u8], message: &[u8], signature: &[u8]) -> bool
    ensures exactly { IsTrue result
        ↔ IsEd25519Signature public_key.now message.now signature.now }
    ensures test { result
        ≡ is_ed25519_signature_of public_key.now message.now signature.now }
{
    accepts(public_key, message, signature)
}
