//! The check of signatures that a trust store uses: which key is for the algorithm that an
//! AlgorithmIdentifier names, and whether the signature is good, by RSA, ECDSA and Ed25519.
//!
//! ```text
//! NativeCheck.good(algorithm, &key, signed, signature)      // no options, no state
//! ```
//!
//! Algorithms are RSASSA-PKCS1-v1_5 and RSASSA-PSS (RFC 8017, RFC 4055), and ECDSA on P-256, P-384
//! and P-521 (FIPS 186-5, RFC 5758), each with SHA-256, SHA-384 and SHA-512; and Ed25519 (RFC 8032,
//! RFC 8410). An identifier is compared as a whole, with its parameters; a key by its algorithm and
//! parameters, which may be inherited (RFC 5280 6.1.4 (e)). Any other signature is not good.
//!
//! What is proved of each call:
//!
//! - [`NativeCheck`]'s `good`: the answer is `native_accepts` of the four values (`specs/Native`).
//!   [`ALGORITHMS`] names what it takes, in words.
//! - law [`laws::one_hash_has_one_answer`]: signed octets with one hash, by the function that the
//!   identifier names (`hash_named` of `ts_sig`), have the same good signatures.
//! - law [`laws::accepts_signatures`]: that test is true exactly where the identifier names an
//!   algorithm and the signature is one by it: `IsNativeSignature`, by the relations of `ts_rsa`,
//!   `ts_ecdsa` and `ts_eddsa`.
//!
//! No call allocates. docs/SIGNATURES.md has each algorithm with its section.
//!
//! # Not promised
//!
//! Constant time, since nothing that is checked is secret; that hash functions have no collisions;
//! that nobody but the key's owner can sign.
#![tactic(auto)]

mod edwards;
mod elliptic;
pub mod laws;
mod native;
mod public_key;
mod rsa;

pub use native::{ALGORITHMS, NativeCheck};
