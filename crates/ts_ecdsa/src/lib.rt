//! ECDSA signatures (FIPS 186-5 6.4.2) over P-256, P-384 and P-521 with SHA-256, SHA-384 and
//! SHA-512, from the octets of a public key.
//!
//! ```text
//! // Does the key take the signature of these octets?
//! is_ecdsa_signature(Curve::P256, Hash::Sha256, public_key, signed, signature)
//! ```
//!
//! What is proved of [`is_ecdsa_signature`]: it is true exactly if
//!
//! - the key is the octet 04 and both coordinates of a point of the curve, each below the prime and
//!   of as many octets as the prime has (`IsPublicKey`, SEC 1 2.3.4);
//! - the signature is a SEQUENCE of two INTEGERs r and s in DER, and nothing more
//!   (`IsSignatureValue`, RFC 3279 2.2.3);
//! - r and s lie in 1 to n - 1, and r is, modulo n, the first coordinate of the sum of two
//!   multiples, which is not infinity (`IsNumberSignature`, FIPS 186-5 6.4.2). The number e is that
//!   of the leftmost octets of the hash, as many as the order has.
//!
//! The answer is also a test of the arguments that computes (`specs/Tests.antt`). Any hash goes
//! with each curve; which of them an algorithm identifier names is for the caller to know.
//!
//! # Not promised
//!
//! Constant time, since nothing that is checked is secret. Compressed keys are refused, as RFC 5480
//! allows. That nobody else can make such a signature: with (r, s) also (r, n - s) is one.
#![tactic(auto)]

mod curve;
mod digest;
mod key;
mod number;
mod signature;
mod value;

pub use curve::Curve;
pub use signature::is_ecdsa_signature;
