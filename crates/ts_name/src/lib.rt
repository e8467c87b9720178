//! Names: distinguished names with their attributes and the canonical form in which two of them are
//! compared (RFC 5280 7.1), and general names with their subtrees (4.2.1.6, 4.2.1.10).
//!
//! ```text
//! let mut input = Reader::new(octets);
//! let name = Name::read(&mut input)?;            // no copy: it borrows from `octets`
//! let is_issued = name.same(issuer);             // equal in canonical form (RFC 5280 7.1)
//! ```
//!
//! A `Name` borrows from the source: `rdns` hands out its relative distinguished names,
//! `attributes` the attributes of one. An attribute is compared by its type and its value.
//! UTF8String, PrintableString and IA5String are text: two texts are the same when they have the
//! same words, with A to Z counting as a to z; words are what is between octets 20. A value with
//! any other tag is compared by that tag and its octets. No call allocates but those named `canon`,
//! and those that build canonical forms.
//!
//! A `General` is a name of one of the nine forms of RFC 5280 4.2.1.6, borrowed from the source:
//! text is octets below 80, a directory name is a `Name`, and what is within the forms otherName,
//! x400Address and ediPartyName is not looked into. A `Subtree` is a name and two bounds, of which
//! a constraint has none (4.2.1.10).
//!
//! - `Name::read`: the octets encode the name that is given: each relative distinguished name is a
//!   set of one attribute or more, in the order of a set (`found`); a name that the octets encode
//!   is read, with its attributes (`only`); a refusal is the first rule of the table that is
//!   broken, with its place, and comes exactly then; what the reading function gives (`fault`,
//!   `exact`).
//! - `is_name`: true exactly where the content of a SEQUENCE is the encoding of a name.
//! - `Name::read_beside`: as `Name::read`, of another element, which is not read again where it has
//!   the octets of this name (`exact`).
//! - `Rdn::read`: as `Name::read`, of one relative distinguished name (`found`, `only`, `fault`,
//!   `exact`).
//! - `Name::rdns`, `Rdn::attributes`, and the iterators: the relative distinguished names, and the
//!   attributes, front to back (their clauses, `next_gives`).
//! - `Name::same`: true exactly where the canonical forms are equal.
//! - `Name::within`: true exactly where the subtree's relative distinguished names are the first
//!   ones of the name, in canonical form.
//! - `Name::canon`, `Rdn::canon`: an `Ok` is the canonical form.
//! - `Rdn::same`, `Attribute::same`, `same_text`: true exactly where the canonical forms are equal.
//! - `Attribute::is_text`: true exactly for the tags 0C, 13 and 16.
//! - `canon_attribute`, `CanonRdn::from_attributes`, `Canon::new`, `push`: the canonical form of an
//!   attribute; attributes in ascending order, sorted once; a relative distinguished name at the
//!   end; at an `Err` nothing changes (their clauses, `ok`, `err`).
//! - `Canon::same` (which is `==`): true exactly where the two canonical forms are equal.
//! - `General::read`: the octets encode the name that is given, in its form (`found`); a name that
//!   the octets encode is the one that is given (`only`); a refusal is the first rule of the table
//!   that is broken, with its place, and comes exactly then; what the reading function gives
//!   (`fault`, `exact`).
//! - `General::has_address_length`, `has_range_length`: true exactly where an IP address has 4
//!   octets or 16; as a constraint 8 or 32; true of every other form.
//! - `Subtree::read_element`: as `General::read`, of a subtree: a minimum of 0 that is encoded is
//!   refused (`found`, `only`, `fault`, `exact`).
//! - `Subtree::read`: the octets are one subtree and nothing more, its minimum is zero, it has no
//!   maximum, and an IP address has a mask; a refusal is the first rule that is broken, those of
//!   DER before `SubtreeBounds`, and that before `AddressLength` (`found`, `only`, `fault`).
//! - `Subtree::base`, `is_unbounded`, `has_address_length`: the base; true exactly where the
//!   minimum is zero and there is no maximum; true exactly where an IP address has 8 octets or 32.
//! - `Subtree::holds`: true exactly where a name lies in the subtree: a directory name whose first
//!   relative distinguished names are those of the base, a host made from the domain by labels to
//!   its left, an address equal to that of the range in each bit of the mask; of any other form
//!   none does (its clause (`Holds`)).
//! - `FromElement` of `OidRef`, `General` and `Subtree`: lists of them are read by `SequenceOf`; a
//!   `Subtree` there is a SEQUENCE (`reading`, `record_of`).
//! - laws (`laws`): two names are the same exactly where their canonical forms are equal
//!   (`same_is_one_canonical_form`); to be one name is an equivalence; within is reflexive and
//!   transitive, and two names within each other are one; names that are one are interchangeable in
//!   `within` (`same_is_an_equivalence`, `within_is_an_order`, `same_names_are_interchangeable`).
//!
//! # Not promised
//!
//! Only tested: that the calls that allocate succeed when there is enough memory; worked names (as
//! a check of the definitions). Neither proved nor tested: that the order of `Canon` (`<`, `cmp`,
//! derived) means more than some total order; the time of a comparison of two names, which sorts
//! the attributes of a relative distinguished name in tables on the stack where the two don't have
//! them in one order (n log n up to 9,600 attributes; a set with more is counted, in the square);
//! `Debug` text.
#![tactic(auto)]

mod attribute;
mod canon;
mod canonical;
mod fast_names;
mod folded;
mod general;
mod general_reading;
mod holding;
pub mod laws;
mod name;
mod name_items;
mod name_reading;
mod ordering;
mod rdn;
mod sameness;
mod subtree;
mod subtree_reading;

pub use attribute::Attribute;
pub use canon::{Canon, CanonAttribute, CanonRdn, canon_attribute};
pub use fast_names::is_name;
pub use folded::same_text;
pub use general::General;
pub use general_reading::GeneralNames;
pub use name::Name;
pub use name_items::{Attributes, Rdns};
pub use rdn::Rdn;
pub use subtree::Subtree;
