//! HMAC with SHA-256 (RFC 2104, FIPS 198-1): the tag of a text that only the holders of a key can
//! make.
//!
//! ```text
//! let tag = hmac_sha256(key, b"what do ya want for nothing?");
//! let mut hmac = Hmac::new(key);                   // the same in pieces
//! hmac.update(b"what do ya want ");
//! hmac.update(b"for nothing?");
//! is_same_tag(&hmac.finalize(), &tag)              // true
//! ```
//!
//! What is proved of each call:
//!
//! - [`hmac_sha256`]: the result is `hmac_sha256` of the key and the text (`specs/Hmac`, over the
//!   hash that `sha2` defines).
//! - [`Hmac::new`], [`Hmac::update`]: the state holds the key, and of the text all pieces so far
//!   (`specs/Holding`).
//! - [`Hmac::finalize`]: the tag of the key and of all pieces.
//! - `Hmac::clone`: the same state: a key that makes many tags is set up once.
//! - [`is_same_tag`]: true exactly where the two tags are equal.
//!
//! Keys have any length; one of more than 64 octets is hashed first. `is_same_tag` looks at all
//! octets, wherever the first difference is, and `hmac_sha256` has no branch on a key's octets.
//! That their time tells nothing of them is not proved: no clause speaks of time. Keys are not
//! erased from memory. Nor is anything proved of how hard a tag is to make without the key: that is
//! what HMAC-SHA256 is trusted for.
#![tactic(auto)]

mod hmac;
mod key;
mod tag;

pub use hmac::{Hmac, hmac_sha256};
pub use tag::is_same_tag;
