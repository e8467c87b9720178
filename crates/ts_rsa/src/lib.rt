//! RSA signatures (RFC 8017): RSASSA-PKCS1-v1_5 (8.2) and RSASSA-PSS (8.1) with SHA-256, SHA-384
//! and SHA-512 (`ts_digest`), from the octets of a modulus and an exponent.
//!
//! ```text
//! // Does the key take the signature of these octets?
//! is_pkcs1_signature(KeyBounds::STANDARD, modulus, 65537, Hash::Sha256, signed, signature)
//! ```
//!
//! What is proved of each call:
//!
//! - [`is_pkcs1_signature`]: true exactly if modulus and exponent are a key within the bounds
//!   (`IsKey`) and the signature is one of the message under it (`IsPkcs1Signature`, 8.2.2).
//! - [`is_pss_signature`]: the same with `IsPssSignature` (8.1.2): MGF1 has the message's hash
//!   function, and the salt is as long as the hash.
//! - [`small_number`]: the number of at most eight octets (OS2IP, 4.2).
//! - [`laws`]: how many bits a modulus has, and that the tests below are the relations.
//!
//! Each answer is also a test of the arguments that computes (`specs/Tests.antt`).
//!
//! Not promised: constant time, since nothing that is checked is secret; a modulus that is a
//! product of two primes; that nobody else can make such a signature.
#![tactic(auto)]

mod key;
pub mod laws;
mod mgf1;
mod octets;
mod opened;
mod pkcs1;
mod pss;

pub use key::{KeyBounds, OCTETS};
pub use octets::small_number;
pub use pkcs1::is_pkcs1_signature;
pub use pss::is_pss_signature;
