//! CRLs (RFC 5280 5), read in place, without allocation or copy. Octets that are no CRL are refused
//! by the first rule that they break, with its place.
//!
//! ```text
//! // a fault is the first broken rule, with its offset
//! let crl = Crl::read(octets)?;
//! let entry = crl.entry(serial);                 // the entry of a certificate, if it is listed
//! ```
//!
//! `Crl::read` reads a whole CRL of at most 4,194,304 octets in place, without allocation or copy.
//! `specs/Encoding.antt` stands beside RFC 5280 section 5.1. A `CrlFault` is a rule with its place,
//! or one of five rules of this profile that have none.
//!
//! - `Crl::read`: where it succeeds, the octets are the CRL that the record says; both algorithm
//!   identifiers are one; a CRL without a version has no extensions; in no list of extensions does
//!   one occur twice; the value of each known one is one that it has; and the rules of the profile
//!   are kept (`found` (`IsCertificateList`)); octets that encode a CRL are read, as that record
//!   (`only`); a refusal is the first rule that is broken, and comes exactly then: more than
//!   4,194,304 octets; the shape from front to back, by the table; `AlgorithmMismatch`;
//!   `ExtensionsInOldVersion` at the first element that holds extensions; `DuplicateExtension`; the
//!   values of extensions, those of entries before those of the CRL, a negative base number
//!   (`IntegerForm`) among them; then `NoNextUpdate`, `CriticalCrlExtension` with the object
//!   identifier of the first unprocessed critical extension (of the CRL, then of its entries),
//!   `Indirect`, `RelativeName`, and `DeltaCrl` for a delta without a number (`fault`
//!   (`crl_fault`)); it gives what the reading function of `specs/Table.antt` gives (`exact`).
//! - `Crl::entry`: the first entry of a serial number, by the octets of its INTEGER (`first`);
//!   `None` exactly where no entry has it (`absent`).
//! - `Crl::tbs`, `version`, `issuer`, `this_update`, `next_update`, `extensions`,
//!   `signature_algorithm`, `signature`: the fields of the record; what is signed is the first
//!   element within the CRL, header included (their clauses, with `found` of `read`).
//! - `Crl::revoked`, `RevokedEntries::iter`: the entries, in their order; a CRL without the field
//!   is distinguished from one without entries.
//! - `Crl::scope`, `crl_number`, `base_crl_number`, `authority_key_identifier`: the CRL's issuing
//!   distribution point, its number, the number of the base CRL whose changes a delta CRL states,
//!   and the identifier of the key that signed it.
//! - `Entry::serial_number`, `revocation_date`, `extensions`, `reason_code`, `invalidity_date`: the
//!   fields of the entry, and the values of its extensions.
//! - `CrlFault::code`, `Display` and `From<CertFault>` of `CrlFault`: the number of a fault; its
//!   name, with its place where it has one; the same fault (its clause; `output`; `from_gives`).
//! - laws (`laws`): no two lists of octets are one CRL, and none is two; no two lists of octets are
//!   the fields of one CRL (`one_encoding`, `one_record`; `one_signed_content`).
//! - law (`laws`): of a CRL, `scope`, `crl_number`, `base_crl_number`, `authority_key_identifier`,
//!   and `reason_code` and `invalidity_date` of each entry answer nothing exactly where the
//!   extension does not stand, else a value, which is exactly the one that the octets of the
//!   extension encode (`no_missing_value`).
//!
//! # Not promised
//!
//! Only tested: worked CRLs, and each refusal with its place (as a check of the definitions).
//! Neither proved nor tested: the time that reading and `entry` take.
#![tactic(auto)]

mod crl;
mod endings;
mod entries;
mod entry;
mod extension_list;
mod extension_rule;
mod fault;
mod findings;
mod kept;
pub mod laws;
mod mark;
mod noting;
mod numbers;
mod owned;
mod placed;
mod profile;
mod revoked;
mod rules;
mod shape;
mod slots;
mod tbs;
mod update;
mod values;
mod version;

pub use crl::Crl;
pub use entry::Entry;
pub use fault::CrlFault;
pub use numbers::is_lower_number;
pub use owned::{OwnedCrl, OwnedCrlFault};
pub use revoked::RevokedEntries;
pub use version::ListVersion;
