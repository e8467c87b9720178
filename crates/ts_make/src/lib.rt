//! Certificates and CRLs made for tests (RFC 5280 4.1, 5.1): the DER of one from a description of
//! it, signed by the stand-in for a signature, so that whoever wants to try a rule writes one line.
//! Reading what is made gives the description.
//!
//! ```text
//! let octets = make_cert(alloc, &text)?;          // DER of the certificate that `text` describes
//! let cert = Cert::read(&octets)?;                // reads as described
//! ```
//!
//! `make_cert` writes the DER of a version 3 certificate from a description (`CertText`), signed by
//! the stand-in, so that whoever wants to try a rule writes one value. `specs/Made.antt` is what it
//! writes, octet for octet. `make_crl` does so for a CRL of version 2 (`CrlText`,
//! `specs/CrlMade.antt`).
//!
//! - `make_cert`: the octets are the one certificate that says the description, where that has at
//!   most 65,536 octets and can be read; `TooLong` exactly above that; `Unreadable` exactly where
//!   reading gives that fault (`made_certificate`); reading them gives the description: version 3,
//!   the serial number, both names, both moments, the key, no unique identifiers, and of each
//!   extension the object identifier, whether it is critical, and the octets of its value
//!   (`described`); the stand-in takes the signature for that of the octets that are signed, under
//!   the signer's key (`signed`); what is made has moments of the years 0 to 9999; `Unreadable` is
//!   only such a moment, or extensions that no certificate may have: one occurs twice, or its value
//!   is not one that it has (`years`, `refused`).
//! - `make_crl`: the octets are the one CRL that says the description, where that has at most
//!   4,194,304 octets and breaks no rule that has a place; `TooLong` exactly above that;
//!   `Unreadable` exactly where reading gives such a fault (`made_certificate`); they have the
//!   shape of the CRL that the description says: version 2, the issuer, both moments, each entry
//!   with its serial number, the date of thisUpdate and its reason, the number, the base number,
//!   the scope and the other extensions; reading gives that CRL, or refuses it for its first
//!   critical extension that is not processed, or, where there is none, as a delta CRL without a
//!   number, and for nothing else (`described`); the stand-in takes the signature for that of the
//!   octets that are signed, under the signer's key (`signed`); what is made has moments of the
//!   years 0 to 9999; `Unreadable` is only such a moment, or extensions that no CRL may have
//!   (`years`, `refused`).
//! - `Display` of `MakeFault`: what is printed is `Memory`, `TooLong`, or `Unreadable(RULE at N)`
//!   with the name of the rule and its place in decimal (`output`).
//! - laws (`laws`): a moment is written in one way: a UTCTime from 1950 to 2049, else a
//!   GeneralizedTime; a serial number is written as that number in as few octets as can be; a type
//!   of attribute as its object identifier (`one_time`, `serial_numbers`, `attribute_types`); the
//!   octets of each value encode what the parts say, as the reader of that extension takes it:
//!   names, subtrees and URIs where their texts are ASCII, policyConstraints where there is at most
//!   one part of each kind (`key_usages`, `alternative_names`, `basic_constraints`,
//!   `name_constraints`, `distribution_points`, `policies`, `policy_mappings`,
//!   `policy_constraints`, `key_purposes`, `any_policies`).
//!
//! # Not promised
//!
//! Only tested: how many octets worked certificates and CRLs have, with and without extensions, as
//! another tool counts them (`tests/lab`); that `Memory` is answered where an allocation failed,
//! and only there (`tools/growths/run`, no part of the gate, refuses each allocation of both makers
//! in turn, through `trustd lab`). Neither proved nor tested: that the values of a CRL's number,
//! base number and scope are read back as the description says them (their octets are proved).
#![tactic(auto)]

mod certificate;
mod crl_description;
mod crl_extensions;
mod crl_tbs;
mod description;
mod elements;
mod extensions;
mod fault;
mod items;
mod key;
mod key_usage;
mod kind;
pub mod laws;
mod list;
mod names;
mod serial;
mod single;
mod tbs;
mod times;

pub use certificate::make_cert;
pub use crl_description::{CrlText, EntryText};
pub use description::{AttributeType, CertText, ExtensionText, NameText, RdnText};
pub use fault::MakeFault;
pub use list::make_crl;
