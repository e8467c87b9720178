//! Octets that are given, as a file's: the certificates and CRLs that they are, and whether a CRL
//! is vouched for.
//!
//! ```text
//! let certificates = certificates_in(alloc, &octets)?;   // `GivenFault` says which is none
//! vouch_for(&crl, &certificates, moment)?;               // `CrlDoubt` says what speaks against it
//! ```
//!
//! - [`certificates_in`]: the certificates that octets are, one for one; else the first that breaks
//!   a rule, with its place.
//! - [`crls_in`]: the complete CRLs and the delta CRLs among octets, each kind in its order
//!   (`lists_of`, `deltas_of`); else the first that is none, with its place.
//! - [`vouch_for`]: what speaks against the octets of a CRL that is to be loaded (`doubt_about`):
//!   that they are no CRL, else the doubt of `vouch` (`ts_revoke`).
#![tactic(auto)]

mod fault;
mod reading;
mod vouching;

pub use fault::GivenFault;
pub use reading::{GivenCrls, certificates_in, crls_in};
pub use vouching::{CrlDoubt, vouch_for};
