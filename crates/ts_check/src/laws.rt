//! Laws about the definitions that the clauses of this crate cite. Each is the contract of a
//! function that does nothing.

ghost use Rattle.std.specs.Prelude.{◌≡◌, ◌↔◌, ℕ, IsTrue, List, Some};
ghost use Rattle.ts_der.specs.Octets.{AreOctets};
ghost use Rattle.ts_sig.specs.Key.{Key};
ghost use Rattle.ts_digest.specs.declared.hash.Hash.{Hash};
ghost use Rattle.ts_digest.specs.Hash.{hash_of};
ghost use Rattle.ts_sig.specs.Algorithm.{hash_named};
ghost use Rattle.ts_check.specs.Native.{IsNativeSignature, native_accepts};

/// What the native check accepts is a signature by the algorithm that the identifier names, and
/// each such signature is accepted.
pub fn accepts_signatures()
    ensures { (identifier : List ℕ) (key : Key) (signed signature : List ℕ)
        → AreOctets key.octets → AreOctets signature
        → IsTrue (native_accepts identifier key signed signature)
        ↔ IsNativeSignature identifier key signed signature }
{}

/// Whether a signature is good depends on the hash of what is signed alone, where the algorithm
/// hashes it: octets with one hash have the same signatures.
pub fn one_hash_has_one_answer()
    ensures { (identifier : List ℕ) (hash : Hash) (key : Key) (first second signature : List ℕ)
        → hash_named identifier ≡ Some hash → hash_of hash first ≡ hash_of hash second
        → native_accepts identifier key first signature
        ≡ native_accepts identifier key second signature }
{}
