//! Ed25519 signatures (RFC 8032 5.1), from the octets of a public key.
//!
//! ```text
//! // Does the key take the signature of this message?
//! is_ed25519_signature(public_key, message, signature)
//! ```
//!
//! What is proved of [`is_ed25519_signature`]: it is true exactly if
//!
//! - the key has 32 octets that decode as a point A by the steps of RFC 8032 5.1.3 (`decode`): the
//!   lowest 255 bits are below p, one of the two candidates of step 2 and 3 is a first coordinate
//!   for them as the second, and a first coordinate of 0 has the sign 0;
//! - the signature has 64 octets, whose first half decodes as a point R, and whose second half is a
//!   number S below the order L of the base point;
//! - `[S]B = R + [k]A`, where k is the number of `SHA-512(R || A || M)` modulo L
//!   (`IsEd25519Signature`, 5.1.7). The equation is the one without the cofactor, which 5.1.7
//!   allows and the reference code of section 6 has.
//!
//! The answer is also a test of the arguments (`specs/Tests.antt`). The message is not hashed
//! before (PureEdDSA), and there is no context. The sum and the double of points are the formulas
//! of 5.1.4; a multiple is by doubling and adding, the highest bit first (`specs/Points.antt`).
//!
//! - law [`laws::constants`]: the constants of `specs/Field.antt` are what they are called, and the
//!   base point is on the curve;
//! - law [`laws::decodes_points`]: the octets that decode are exactly the encodings of the points
//!   of the curve (`specs/Encode.antt`, 5.1.2), and each decodes to its point.
//!
//! # Not promised
//!
//! Constant time, since nothing that is checked is secret. The group law: that the sum of points is
//! associative, or that the base point has the order L. Keys of a small order are taken, as RFC
//! 8032 has it. That nobody else can make such a signature.
#![tactic(auto)]

mod decode;
pub mod laws;
mod number;
mod order;
mod point;
mod signature;

pub use signature::is_ed25519_signature;
