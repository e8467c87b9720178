//! Why a certificate of a chain is not good: the condition of path validation that it does not
//! meet (RFC 5280 6.1.3 to 6.1.5), with its number, its text and its octets.
//!
//! ```text
//! // path validation borrows the object identifier of an extension from the certificate
//! let reason: Reason<OidRef<'_>> = Reason::CriticalExtension(id);
//! println!(rt; "{reason}")?;                        // CriticalExtension 2.5.29.36
//! // an answer keeps it
//! let kept: Reason<Oid> = reason.to_owned(alloc)?;
//! kept.write(&mut octets)?;
//! let (again, rest) = read_reason(alloc, &octets)?;
//! ```
//!
//! The octets are the number of the condition, and then the code of `Revoked`, or the object
//! identifier of `CriticalExtension` after an octet of its length.
//!
//! - [`Reason::number`]: the number of the condition, 1 to 18 (`specs/Conditions`).
//! - `Display`: the name, and the code or the object identifier (`specs/Printed`).
//! - [`Reason::to_owned`], [`Reason::as_ref`]: the same reason, with memory of its own and
//!   borrowed.
//! - [`Reason::write`], [`read_reason`]: its one encoding (`specs/Octets`).
//! - [`Reason::has_encoding`]: each reason has one.
//!
//! # Not promised
//!
//! Neither proved nor tested: that calls with ample memory succeed.
#![tactic(auto)]

mod octets;
mod reason;

pub use octets::read_reason;
pub use reason::Reason;
