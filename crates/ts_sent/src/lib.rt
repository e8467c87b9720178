//! The chain that was sent: why a search found no valid chain.
//!
//! A search answers that no chain is valid, and has no reason for each of those that it tried. This
//! is the question that has one: the certificates as they were sent, the leaf first and each
//! certified by the next one, up to the first whose issuer is a trust anchor of the store.
//!
//! ```text
//! let sent = sent_in(&search);                              // of the question without an answer
//! found = nearest(alloc, sent, found, rows)?;               // page after page of the store
//! let question = chain_under(alloc, &search, k, &found)?;   // its answer has a reason
//! ```
//!
//! - [`sent_in`]: the certificates of a search.
//! - [`nearest`]: the trust anchor that is nearest to the leaf (`IsNearest`, `specs/Sent`), of the
//!   one that was found before and those in rows of the store: the issuer of the first certificate
//!   that has the name of an anchor.
//! - [`is_anchor`]: whether a row is an anchor's. In a store they stand before all others.
//! - [`chain_under`]: the question, on the terms of the search (`chain_under`); `None` exactly
//!   where it is outside the limits of questions, as a chain of more than 16 certificates is.
//!
//! Out of memory is answered as `AllocError`.
//!
//! # Not promised
//!
//! That the answer is `Invalid`. It is wherever the search tried this chain, and found it invalid.
#![tactic(auto)]

mod above;
mod asking;

pub use above::{AnchorAbove, is_anchor, nearest};
pub use asking::{chain_under, sent_in};
