//! X.509 certificates (RFC 5280 4.1), read in place, without allocation or copy. Octets that are no
//! certificate are refused by the first rule that they break, with its place.
//!
//! ```text
//! // a fault is the first broken rule, with its offset
//! let cert = Cert::read(octets)?;
//! let names = (cert.issuer(), cert.subject());   // borrowed from `octets`
//! let usage = cert.key_usage();                  // None where the extension does not stand
//! ```
//!
//! `Cert::read` reads a whole certificate in place, without allocation or copy. A `Cert` is its
//! octets and the offsets at which its parts begin; each field is read there when it is asked for,
//! as a slice of the source. Of a name and of the extensions the headers alone are read again;
//! serial number, times, key and algorithms are parsed where they are. `specs/Encoding.antt` stands
//! beside RFC 5280 section 4.1: for each SEQUENCE one relation between octets and a record whose
//! fields have the standard's names.
//!
//! - `Cert::read`: where it succeeds, the octets are the certificate that the record says, at most
//!   65,536; both algorithm identifiers are one; unique identifiers occur only from version 2 on,
//!   extensions only in version 3; no extension occurs twice; the value of each known one is
//!   encoded as that extension asks and keeps the rules of such a value (`found`
//!   (`IsCertificate`)); octets that encode a certificate are read, as that record (`only`); a
//!   refusal is the first rule that is broken, with its place, and comes exactly then: more than
//!   65,536 octets; the shape from front to back (`specs/Table.antt` is the shape as a table in the
//!   words of the standard's ASN.1, names and all); two algorithm identifiers that differ;
//!   `ExtensionsInOldVersion` at the first field that the version does not have;
//!   `DuplicateExtension` at the first extension that repeats one before it; then the first rule
//!   that the value of a known extension breaks, one extension after another (`fault`
//!   (`certificate_fault`)); it gives what the reading function of `specs/Reading.antt` gives: the
//!   form in which the crates above use it (`exact`).
//! - `Cert::tbs`: the octets that are signed are the first element within the certificate, header
//!   included (its clause, with `found` of `read`).
//! - `version`, `serial_number`, `issuer`, `validity`, `subject`, `subject_public_key_info`,
//!   `signature_algorithm`, `signature`: the fields of the record.
//! - `issuer_unique_id`, `subject_unique_id`, `extensions`: the fields of the record, where they
//!   are.
//! - `authority_key_identifier`, `subject_key_identifier`, `key_usage`, `certificate_policies`,
//!   `policy_mappings`, `subject_alt_name`, `issuer_alt_name`, `basic_constraints`,
//!   `name_constraints`, `policy_constraints`, `extended_key_usage`, `crl_distribution_points`,
//!   `inhibit_any_policy`, `freshest_crl`: what the certificate says by that extension: nothing
//!   where it does not stand, else the value that its octets encode (their clauses (`stated`)).
//! - law (`laws`): of a certificate, no known extension stands without its value: these readers
//!   pass over no fault (`no_missing_value`); what each of them answers is exactly the value that
//!   the octets of its extension encode (`each_value_is_encoded`).
//! - `Cert::is_self_issued`: true exactly where issuer and subject are one name in canonical form.
//! - `OwnedCert::read`: a copy of the octets, or `Memory`, exactly where no rule is broken; else
//!   `Unreadable` with the first rule that is (`kept`, `refused`).
//! - `OwnedCert::of`: as `read`, but the octets are shared (`ts_octets`) and not copied.
//! - `OwnedCert::view`, `octets`: the certificate that these octets are, without reading them
//!   again; the octets (`found`, `exact`; its clause).
//! - within: of every `Cert` the octets are a certificate whose parts begin at the offsets that it
//!   keeps (the ghost field of `Cert` (`AreLaidOut`), which each way to make one is proved to meet:
//!   `fast_layout`, which tells most certificates by offsets alone, and `layout_of`, which finds
//!   the offsets of any that was read).
//! - laws (`laws`): no two lists of octets are one certificate, and none is two; no two lists of
//!   octets are the fields of one certificate (`one_encoding`, `one_record`; `one_signed_content`).
//!
//! # Not promised
//!
//! Only tested: that a certificate is kept when there is memory; worked certificates, cut and with
//! one octet more, and each refusal with its place (as a check of the definitions; `tests/show`).
//! `bench/` reads the roots that Debian ships, and times it: 0.97 of webpki's time in the median of
//! 24 runs, five of which were above 1.0, and five hard shapes above 20 times an octet of the
//! roots, see there. Neither proved nor tested: the time that reading takes; which certificates the
//! fast path recognises.
#![tactic(auto)]

mod algorithm;
mod certificate;
mod fast;
mod fields;
mod key;
pub mod laws;
mod layout;
mod optional_fields;
mod optional_reading;
mod owned;
mod part;
mod parts;
mod reading;
mod rules;
mod shape;
mod stated;
mod tbs;
mod validity;
mod version;

pub use certificate::Cert;
pub use key::SubjectPublicKeyInfo;
pub use owned::{OwnedCert, OwnedCertFault};
pub use validity::Validity;
pub use version::Version;
