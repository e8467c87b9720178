//! A check of signatures that keeps its answers.
//!
//! ```text
//! let check = MemoCheck::new(alloc);
//! check.good(algorithm, &key, signed, signature)            // computed, and kept
//! check.good(algorithm, &key, signed, signature)            // found: nothing is computed
//! ```
//!
//! A signature under a key is good once and for all: `native_accepts` is a function of the
//! identifier, the key, the signed octets and the signature. So an answer may be kept, and whoever
//! is asked about many leaves of the same few authorities computes the signatures of the
//! authorities once. The 4,096 answers that were used last are kept (`ts_recent`), each with all
//! octets of what was asked, of at most 8,192: an answer is found only where all octets are equal.
//! A usual certificate has one to two thousand octets.
//!
//! Of a CRL that a store holds the hash is known (`ts_digest::Message`). RSA and ECDSA look at the
//! hash alone (`ts_check::laws::one_hash_has_one_answer`), so it stands for the CRL's octets, and
//! the signature of the longest CRL is computed once as well. This trusts no more than the check
//! itself: it would take another CRL with this hash for this one too.
//!
//! What is proved of each call:
//!
//! - [`MemoCheck`]'s `good`: the answer is `native_accepts` of the four values, as that of
//!   `ts_check::NativeCheck`, whatever was asked before. That each answer which is kept is right is
//!   an invariant of what holds them.
//! - [`ServedCheck`]'s `good`: `served_accepts`: the native check, what it or a table takes, or
//!   the stand-in.
//!
//! Where an allocation fails, the answer is computed, and nothing is kept.
//!
//! # Not promised
//!
//! Neither proved nor tested: time, and that an answer is found. The hasher of the table has a
//! fixed seed: who chooses what has one hash makes a look-up compare more.
#![tactic(auto)]

mod check;
mod memo;
mod served;

pub use check::MemoCheck;
pub use served::ServedCheck;
