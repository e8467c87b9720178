//! Path validation (RFC 5280 6.1): whether a chain of certificates is good under a trust anchor at
//! a moment, and if not, the first reason.
//!
//! ```text
//! match validate(alloc, &anchor, &chain, &inputs, &check)? {
//!     Verdict::Valid(policies) => ..,                   // the policies that are accepted
//!     // the first certificate that fails, and its first reason
//!     Verdict::Invalid { position, reason } => ..,
//! }
//! ```
//!
//! `validate` judges a chain of 1 to 16 certificates under a trust anchor at a moment, by all
//! eighteen conditions of RFC 5280 section 6.1 in this profile. It answers `Valid` with the
//! accepted policies, or the position and the first reason.
//!
//! - `validate`: the verdict is `Valid` exactly where each condition holds at each position, with
//!   the policies that are accepted, ascending, each once; else it names a condition that fails at
//!   a position of the chain, and none fails at a lesser position, or at this one with a lesser
//!   number; the number of `Revoked` is the status's, the object identifier of `CriticalExtension`
//!   that of the first such extension by place (its clause (`IsVerdict`)).
//! - `Anchor::of`: the subject and the public key of a certificate, for any purpose, and nothing
//!   else of it.
//! - `Inputs::at`: the inputs that ask for nothing but a moment (`moment`, `purpose`, `policies`,
//!   `names`, `revocation`).
//! - A reason is one of `ts_reason`, whose object identifier lies in the certificate.
//! - laws (`laws`): a question has one verdict (`one_verdict`: `least`, `invalid`, `same`). The
//!   condition on path lengths is the sentence of RFC 5280 4.2.1.9 (`path_lengths`: `chain`,
//!   `certificate`, `self_issued`). The parameters of a working key are those of the nearest key
//!   that states some (`inherited_parameters`: `some`, `none`).
//!
//! Each condition is a statement of its own on what is asked, the state variables of RFC 5280 6.1.2
//! at a certificate, and the certificate (`specs/Conditions.antt`), with its section of the
//! standard. The state variables are statements about the certificates above, not step by step: a
//! counter is the least of what its start and the bounds above leave (`specs/Counters.antt`), the
//! sources of name constraints are a list, the valid policy tree is a set of paths (`ts_policy`).
//! The code has one running state and stops at the first condition that fails; a signature is
//! checked once for each certificate. Memory is the only error.
//!
//! # Not promised
//!
//! Only tested: worked verdicts, in scripts of `trustd lab` (`tests/lab/chains.rows`) and on files
//! (`tests/words`). Neither proved nor tested: that memory is refused only where an allocation was;
//! time.
#![tactic(auto)]

mod anchor;
mod conditions;
mod context;
mod counters;
mod extensions;
mod inputs;
pub mod laws;
mod path;
mod self_issued;
mod state;
mod verdict;
mod walk;
mod working_key;

pub use anchor::Anchor;
pub use inputs::Inputs;
pub use path::{MAX_CHAIN, validate};
pub use verdict::Verdict;
