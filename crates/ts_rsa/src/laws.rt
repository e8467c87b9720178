//! Laws about the definitions that the clauses of this crate cite. Each is the contract of a
//! function that does nothing.

ghost use Rattle.std.specs.Prelude.{ℕ, ◌-◌, ◌^◌, ◌<◌, ◌≤◌, ◌↔◌, IsTrue, List, length, slice_index};
ghost use Rattle.ts_digest.specs.declared.hash.Hash.{Hash};
ghost use Rattle.ts_rsa.specs.declared.key.KeyBounds.{KeyBounds};
ghost use Rattle.ts_rsa.specs.Octets.{os2ip};
ghost use Rattle.ts_rsa.specs.Key.{bit_length, IsKey};
ghost use Rattle.ts_rsa.specs.Pkcs1.{IsPkcs1Signature};
ghost use Rattle.ts_rsa.specs.Pss.{IsPssSignature};
ghost use Rattle.ts_rsa.specs.Tests.{pkcs1_accepts, pss_accepts};

/// A number of so many bits is at least 2 to the power of one less, and below 2 to that power.
pub fn bits_of_numbers()
    ensures { (octets : List ℕ) → ((i : ℕ) → slice_index octets i < 256)
        → 0 < slice_index octets 0
        → (2 ^ (bit_length octets - 1) ≤ os2ip octets) × (os2ip octets < 2 ^ bit_length octets) }
{}

/// The test of RSASSA-PKCS1-v1_5 accepts the signatures under keys, and no others.
pub fn pkcs1_accepts_signatures()
    ensures { (bounds : KeyBounds) (modulus : List ℕ) (exponent : ℕ) (hash : Hash)
        (message signature : List ℕ)
        → IsTrue (pkcs1_accepts bounds modulus exponent hash message signature)
        ↔ (IsKey bounds modulus exponent
        × IsPkcs1Signature (os2ip modulus) exponent (length modulus) hash message signature) }
{}

/// The test of RSASSA-PSS accepts the signatures under keys, and no others.
pub fn pss_accepts_signatures()
    ensures { (bounds : KeyBounds) (modulus : List ℕ) (exponent : ℕ) (hash : Hash)
        (message signature : List ℕ)
        → IsTrue (pss_accepts bounds modulus exponent hash message signature)
        ↔ (IsKey bounds modulus exponent
        × IsPssSignature (os2ip modulus) exponent (length modulus) (bit_length modulus)
        hash message signature) }
{}
