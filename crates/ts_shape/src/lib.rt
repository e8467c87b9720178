//! Shapes of DER as tables, lists of items, and the first item of a list that repeats an earlier
//! one: what the readers of names, extensions, certificates and revocation lists have in common.
//!
//! A shape says which elements follow one another (`specs/Shape.antt`: `sequence`, `optional`,
//! `items`, `any`), and `judge` is the first rule that octets break, with its offset. Each format
//! of the crates above is one such table, and its reader refuses exactly what `judge` says
//! (`proofs/Judging.antt` has one lemma for each kind of row).
//!
//! ```text
//! // one object identifier or more, each checked once
//! let list = SequenceOf::<OidRef<'_>>::read(element)?;
//! for oid in list.iter() { .. }                            // which cannot fail
//! let repeated = first_repeated::<OidRef<'_>>(element);   // without memory
//! ```
//!
//! - `SequenceOf::read`: the items are those of `some_of`; a refusal is its first fault.
//! - `SequenceOf::iter`, `within`, `SequenceItems`: the items, in their order.
//! - `next_item`, `tagged_as`: one item; an element of this tag.
//! - `first_repeated`: the first item whose key an earlier one has.
//! - `LastOctets::is_new`: whether a key ends in an octet in which no earlier one does.
//! - `CertRule::code`, `Display`: the number and the name of a rule.
//!
//! # Not promised
//!
//! Only tested: worked lists. Neither proved nor tested: the time that `first_repeated` takes, and
//! its stack (680 kB at most).
#![tactic(auto)]

mod collisions;
mod fault;
mod repeats;
mod sequence_of;

pub use fault::{CertFault, CertRule};
pub use repeats::{Keyed, LastOctets, first_repeated};
pub use sequence_of::{FromElement, SequenceItems, SequenceOf, next_item, tagged_as};
