//! A question with its answer.

use ts_digest::Hash;
use ts_ecdsa::Curve;

/// A key, a message and a signature, each in hexadecimal digits, and whether the signature is good.
pub struct Sample {
    pub curve: Curve,
    pub hash: Hash,
    pub key: &'static str,
    pub message: &'static str,
    pub signature: &'static str,
    pub is_good: bool,
}
