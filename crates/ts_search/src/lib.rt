//! The search for a chain: from a certificate, through a pool, to a trust anchor under which the
//! chain is valid.
//!
//! ```text
//! match search(alloc, &leaf, &pool, &anchors, &inputs, &crls, &check)? {
//!     // places: of the anchor, and of the certificates from its side
//!     Answer::Found { anchor, chain, policies } => ..,
//!     Answer::NoPath => ..,                              // no chain is valid
//!     // none of the first 4,096 is valid, and there are more
//!     Answer::SearchLimit => ..,
//! }
//! ```
//!
//! A candidate is a chain of at most ten of the certificates at hand, each once, the leaf last, in
//! which each certificate's issuer is the subject of the one before it. Candidates are tried in
//! order, the shorter first, and of one length by their places from the leaf up; each under the
//! anchors in their order. The first pair that path validation calls valid is the answer.
//!
//! - [`search`]: the answer is that over all candidates in order (`IsSearchAnswer`); out of memory
//!   is its only error.
//! - [`certificates_at`]: the certificates at the places of a chain.
//! - [`laws::one_answer`]: the candidates in order are one list, so that a search has one answer.
//!
//! # Not promised
//!
//! Only tested: that a search with ample memory answers. Neither proved nor tested: time. An anchor
//! that has not the name of a candidate's first issuer is passed over before a signature is
//! computed. What fails at the front of a candidate, by a condition that looks at that front alone
//! (the signature, the validity, revocation, the issuer's name), is judged once for each anchor,
//! however many candidates begin so.
#![tactic(auto)]

mod answer;
mod fronts;
mod issuers;
pub mod laws;
mod levels;
mod trial;
mod walk;

pub use answer::SearchAnswer;
pub use trial::certificates_at;
pub use walk::{MAX_CANDIDATES, MAX_LENGTH, MAX_POOL, search};
