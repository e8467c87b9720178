//! The hash functions that signatures name: SHA-256, SHA-384 and SHA-512 (FIPS 180-4), chosen by
//! a value.
//!
//! ```text
//! let digest = hash_of_message(Hash::Sha384, b"abc");   // 48 octets, in an array on the stack
//! ```
//!
//! What is proved of each call:
//!
//! - [`hash_of_message`], [`hash_of_parts`]: the octets are the hash that `sha2` defines, of the
//!   message or of three slices one after another (`specs/Hash`).
//! - [`size_of_hash`]: how many octets a hash has.
//! - [`Digest::of`], [`Message::of`], [`Message::with_digest`], [`Message::digest`],
//!   [`Message::hash_by`]: octets that are signed, whose hash is computed once where they are
//!   checked many times: what is answered is the hash of the octets in any case.
//! - [`append`]: the octets behind those of an array that has room for them.
//!
//! [`likely_hash`] names the function by which a signature algorithm is likely to hash. No promise
//! rests on it.
//!
//! No call allocates. Not promised: that a hash function has no collisions. SHA-1 and MD5 are not
//! here, since no signature by them is good.
#![tactic(auto)]

mod hash;
mod message;
mod named;

pub use hash::{HASH_OCTETS, Hash, append, hash_of_message, hash_of_parts, size_of_hash};
pub use message::{Digest, Message};
pub use named::likely_hash;
