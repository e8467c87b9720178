//! Octets that several owners share: a command's CRL is in memory once, however many places keep
//! it.
//!
//! ```text
//! let octets = Octets::of(alloc, read)?;                          // `read` is a `Vec<u8>`
//! let again = octets.share()?;                                    // the same octets in memory
//! let slice = again.as_slice();
//! ```
//!
//! To contracts an [`Octets`] is the list of its octets.
//!
//! - [`Octets::of`], [`Octets::copy_of`]: the octets that are given.
//! - [`Octets::share`]: the same octets. It allocates nothing, and fails only where as many owners
//!   are there as the counter of owners holds.
//! - [`Octets::as_slice`]: the octets.
//! - [`MAX_CERTIFICATE`], [`MAX_CRL`]: how many octets a certificate and a CRL may have.
//!
//! # Not promised
//!
//! That octets are shared and not copied: it is read in `octets.rt`, and `bench/memory` shows it.
#![tactic(auto)]

mod limits;
mod octets;

pub use limits::{MAX_CERTIFICATE, MAX_CRL};
pub use octets::Octets;
