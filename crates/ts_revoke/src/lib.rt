//! Whether a certificate is revoked (RFC 5280 6.3.3), by the CRLs and delta CRLs of a store.
//!
//! ```text
//! let crls = Crls { lists: &complete, deltas: &deltas };              // in store order
//! let issuer = Issuer { key, key_usage: above.key_usage() };          // None for an anchor
//! match status(&crls, &cert, &issuer, moment, &check, use_deltas) {
//!     // usable CRLs cover all reasons, and none lists the serial number
//!     Status::Good => ..,
//!     Status::Revoked(reason) => ..,     // the reason's number, 0 where the entry gives none
//!     Status::Undetermined => ..,        // the usable CRLs do not cover all reasons
//! }
//! ```
//!
//! The RFC's loop visits the CRLs of each distribution point in an order that it leaves open, and
//! stops as soon as all reasons are covered: a certificate may be revoked in one order and good in
//! another. Here it is `Good` only if it is good in every order within each of the two passes.
//!
//! - Definition: What it says.
//! - `specs/Usable`: which pairs of a distribution point and a CRL are usable, each condition by
//!   itself; the mask of a pair.
//! - `specs/Listed`, `Numbers`: what a CRL says of the serial number; its delta CRL, and when that
//!   counts.
//! - `specs/Status`, `Pairs`, `Decision`: the pairs of both passes; the status.
//! - `specs/Loop`: the loop of the RFC over an order of pairs.
//!
//! - [`status`]: the status of these definitions, exactly.
//! - [`laws::in_any_order`]: where it is `Good` or `Undetermined` the loop answers the same in
//!   every order within the passes; where it is `Revoked`, the loop answers so in some order.
//!
//! `status` allocates nothing but what its signature check does. The definition goes through the
//! distribution points and at each through all CRLs; the code goes through the CRLs and at each
//! through all points (`specs/inside/ByList`), and keeps on the stack what pass 1 learned of each
//! CRL (`specs/inside/Looked`). So a CRL's signature is checked once at most and its entries are
//! searched once at most, in both passes together, whatever the certificate says; only of CRLs
//! after the first 1,024 it is once in each pass.
//!
//! # Whether a CRL may be loaded
//!
//! Whether a CRL may be loaded into a store: one of some certificates is of its issuer and has the
//! key that signed it, and the CRL is current.
//!
//! ```text
//! // the certificates of those who may have signed it, and the moment
//! vouch(&crl, &issuers, moment, &NativeCheck)?;
//! ```
//!
//! A store takes a CRL without looking at its signature, and a verdict looks at it each time. This
//! is the look before: whoever loads a CRL sees at once whether it will be of use.
//!
//! - [`vouch`]: `Ok` exactly where nothing speaks against it, else the first doubt of `doubt_of`
//!   (`specs/Vouched`), in this order: no certificate is one of its issuer (RFC 5280 6.3.3 (f)),
//!   none of these has the key that signed it (6.3.3 (g)), the moment is before thisUpdate
//!   (5.1.2.4), the moment is after nextUpdate (5.1.2.5). It allocates nothing but what its
//!   signature check does.
//!
//! # Not promised
//!
//! Only tested: worked rows (`tests/words/revocation.rows`). Neither proved nor tested: how often a
//! signature is checked (no contract counts calls); time (names of distribution points by names of
//! a CRL's scope is a product, under the issuer's own signature).
//!
//! That the certificates are valid: who names them trusts them. Parameters of a key that are
//! inherited from the certificate above (RFC 5280 6.1.4 (f)) are not looked for ([`own_key`]).
#![tactic(auto)]

mod crls;
mod decision;
mod deltas;
mod doubt;
mod entries;
mod found;
mod issuer;
mod issuer_pass;
mod key;
pub mod laws;
mod list_issuer;
mod looked;
mod names;
mod numbers;
mod offered;
mod own_pass;
mod points;
mod question;
mod reach;
mod reasons;
mod usable;
mod verdict;
mod vouching;

pub use crls::Crls;
pub use decision::status;
pub use doubt::Doubt;
pub use issuer::Issuer;
pub use key::own_key;
pub use verdict::Status;
pub use vouching::vouch;
