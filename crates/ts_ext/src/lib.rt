//! The values of the extensions of certificates, CRLs and CRL entries (RFC 5280 4.2, 5.2, 5.3),
//! read in place, without allocation or copy. Octets that are no such value are refused by the
//! first rule that they break, with its place. A reader is handed the value's element and does not
//! look at its tag. Lists of extensions are `ts_extensions`.
//!
//! ```text
//! match Ext::read(Holder::Certificate, extension.id, extension.value)? {
//!     Ext::BasicConstraints(constraints) => ..,
//!     _ => ..,
//! }
//! ```
//!
//! Each type has a reader `read` that takes the element of the value, reads its content in place,
//! without allocation, and does not look at the element's tag: `AlternativeNames` (subjectAltName,
//! issuerAltName, certificateIssuer), `AuthorityKeyIdentifier`, `BaseCrlNumber`,
//! `BasicConstraints`, `CertificatePolicies`, `CrlNumber`, `DistributionPoint`,
//! `DistributionPoints` (cRLDistributionPoints, freshestCRL), `ExtendedKeyUsage`, `InvalidityDate`,
//! `IssuingDistributionPoint`, `KeyUsage`, `NameConstraints`, `PolicyConstraints`,
//! `PolicyMappings`, `ReasonCode`, `ReasonFlags`, `SkipCerts` (inhibitAnyPolicy). `Ext::read` reads
//! the value of an extension by its object identifier and what holds it: a certificate, a CRL or an
//! entry of a CRL. `specs/` stands beside RFC 5280 sections 4.2, 5.2 and 5.3.
//!
//! - `read` of each type: the octets encode the value that is given (`found`); a value that the
//!   octets encode is the one that is given (`only`); a refusal is the first rule that is broken,
//!   with its place, and comes exactly then: of each field in turn its header, its tag and its
//!   rules, `Trailing`, and of a list that it is not empty (`fault`); it gives what the reading
//!   function of `specs/Reading.antt` gives: the form in which the crates above use it (`exact`).
//! - `KeyUsage::key_cert_sign`, `crl_sign`: bit 5, and bit 6, of the bits that were read; a bit
//!   that is left out is 0.
//! - `ReasonFlags::contains`, `reasons`: the bit of that reason, 1 to 8; the set of the reasons
//!   whose bits are 1.
//! - `ReasonSet`: `contains`, `all`, `none`, `intersection`, `union`, `is_empty`: whether the set
//!   holds a reason; the set of all, and of none; what both sets hold, and what one of them does;
//!   whether it is the set of none.
//! - `ReasonCode::number`, `numbered`, `ReasonFlag::number`: the number of a reason, and the reason
//!   of a number if it has one.
//! - `Known::at`: the extension that an object identifier names in a holder, if one is read there:
//!   fourteen in a certificate, six in a CRL, three in an entry.
//! - `Known::with_arc`: the same by the last arc, under 2.5.29.
//! - `Known::arc`, `tag`: the last arc of its object identifier; the tag of its value.
//! - `Ext::read`: within the OCTET STRING stands the one element that encodes the value of that
//!   extension; of an extension that is not read there the octets are kept (`found`, `only`); a
//!   refusal is the first rule of the table that the value breaks, with its place, `Trailing` last,
//!   and comes exactly then; what the reading function gives (`fault`, `exact`).
//! - `Ext::read_content`: the value that an element's content is, whatever its tag: what the
//!   reading function gives.
//! - `Ext::broken_rule`: the first of `SubtreeBounds` (a subtree of name constraints with a minimum
//!   or a maximum), `AddressLength` (an IP address of other than 4 or 16 octets, in a constraint 8
//!   or 32) and `DuplicatePolicy` (a policy that is stated twice) that the value breaks, if it
//!   breaks one.
//! - law (`laws`): no two contents encode one value of an extension, and no content encodes two
//!   (`one_value`: `one_encoding`, `one_record`).
//! - `AlternativeNames::iter`, `DistributionPoints::iter`, `CertificatePolicies::iter`,
//!   `PolicyMappings::iter`, `ExtendedKeyUsage::iter`: the items that were read, in their order
//!   (their clauses, `next_gives`).
//!
//! # Not promised
//!
//! Only tested: values by hand, and each refusal with its place (as a check of the definitions).
//! Neither proved nor tested: the time that `broken_rule` takes, which is that of `first_repeated`
//! (`ts_shape`); `Debug` text.
#![tactic(auto)]

mod alternative_names;
mod authority_key_identifier;
mod basic_constraints;
mod certificate_policies;
mod crl_number;
mod distribution_point;
mod distribution_points;
mod ext;
mod extended_key_usage;
mod fields;
mod invalidity_date;
mod issuing_distribution_point;
mod key_usage;
mod known;
pub mod laws;
mod name_constraints;
mod named_bits;
mod policy_constraints;
mod policy_information;
mod policy_mapping;
mod policy_mappings;
mod policy_qualifier;
mod reason_code;
mod reason_flag;
mod reason_flags;
mod reason_set;
mod rules;
mod skip_certs;
pub mod tag;

pub use alternative_names::AlternativeNames;
pub use authority_key_identifier::AuthorityKeyIdentifier;
pub use basic_constraints::BasicConstraints;
pub use certificate_policies::CertificatePolicies;
pub use crl_number::{BaseCrlNumber, CrlNumber};
pub use distribution_point::{DistributionPoint, PointName};
pub use distribution_points::DistributionPoints;
pub use ext::Ext;
pub use extended_key_usage::ExtendedKeyUsage;
pub use invalidity_date::InvalidityDate;
pub use issuing_distribution_point::IssuingDistributionPoint;
pub use key_usage::KeyUsage;
pub use known::{Holder, Known};
pub use name_constraints::NameConstraints;
pub use policy_constraints::PolicyConstraints;
pub use policy_information::PolicyInformation;
pub use policy_mapping::PolicyMapping;
pub use policy_mappings::PolicyMappings;
pub use policy_qualifier::PolicyQualifier;
pub use reason_code::ReasonCode;
pub use reason_flag::ReasonFlag;
pub use reason_flags::ReasonFlags;
pub use reason_set::ReasonSet;
pub use skip_certs::SkipCerts;
