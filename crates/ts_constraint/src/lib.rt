//! Name constraints (RFC 5280 4.2.1.10): the names of a certificate against every source of
//! constraints above it.
//!
//! ```text
//! let mut bounds = Bounds::initial(alloc, &permitted, &excluded)?;   // those of the question
//! for each certificate of the chain, from the anchor's side {
//!     // Unsupported, NotPermitted or Excluded, with the form of the first such name
//!     bounds.check(&cert, is_last)?;
//!     bounds.narrow(&cert)?;              // its own constraints bear on those that follow
//! }
//! ```
//!
//! Each source is put into tables once (`table`), when it is made: the ends of host names and the
//! canonical forms of directory names in order, so that a name is found in a number of steps that
//! grows with the logarithm of theirs; IP ranges as numbers, each of which is compared, since a
//! mask may have its bits anywhere.
//!
//! Contracts see `Bounds` as the list of its sources (`specs/Source`), each the names at which its
//! permitted and its excluded subtrees begin. The names that a certificate shows are in
//! `specs/Names`, the three conditions in `specs/Conditions`.
//!
//! - [`Bounds::initial`]: one source: the question's subtrees.
//! - [`Bounds::narrow`]: one source more: what the certificate's nameConstraints say; unchanged
//!   where memory runs out.
//! - [`Bounds::check`]: `checked`: Ok exactly where each name meets each condition of each source,
//!   else the least condition that is not met, with the form of the first name that does not meet
//!   it; `exempt`: a self-issued certificate that is not the last is Ok.
//! - [`Form::of`], [`Form::is_processed`]: the form of a name; whether its constraints are
//!   processed.
//!
//! # Not promised
//!
//! Only tested: worked rows (`tests/lab/chains.rows`, `tests/words/names.rows`), and that calls
//! with memory succeed. Neither proved nor tested: time
//! ([bench/README.md](../bench/README.md) has the dearest inputs).
#![tactic(auto)]

mod bounds;
mod condition;
mod directories;
mod directory;
mod ending;
mod endings;
mod fault;
mod form;
mod hosts;
mod masked;
mod ranges;
mod sought;
mod source;
mod table;

pub use bounds::Bounds;
pub use fault::NameFault;
pub use form::Form;
