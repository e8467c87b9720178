//! Lists of the extensions of certificates, CRLs and CRL entries (RFC 5280 4.1, 4.2, 5.1), read in
//! place, without allocation or copy. What their values say is read by `ts_ext`.
//!
//! ```text
//! for extension in Extensions::read(element)?.iter() {
//!     match Ext::read(Holder::Certificate, extension.id, extension.value)? {
//!         Ext::BasicConstraints(constraints) => ..,
//!         _ => ..,
//!     }
//! }
//! ```
//!
//! `Extensions` is the list itself, whatever the values say. `CheckedExtensions` is a list that was
//! read and searched for the first rule that it breaks, in one walk. Files named `fast` are there
//! for speed alone: each knows the forms that most certificates have, and leaves all others to the
//! full reader.
//!
//! - `Extensions::read`: the octets encode the extensions that are given (`found`); extensions that
//!   the octets encode are those that are given (`only`); a refusal is the first rule that is
//!   broken, with its place, and comes exactly then (`fault`); it gives what the reading function
//!   of `specs/Extension.antt` gives (`exact`).
//! - `Extensions::read`, `CheckedExtensions::read_explicit`: the extensions are those of the
//!   reading function that keeps the place of each (`placed`).
//! - `Extensions::within`: the list of a SEQUENCE that was read before, which is not read again.
//! - `Extensions::first_repeated`: the first extension, by its place, with the object identifier of
//!   an earlier one.
//! - `Extensions::find`: the first extension, by its place, with the object identifier of a known
//!   one.
//! - `Extensions::broken_rule`: the first rule that the values break, one extension after another,
//!   each by `Extension::first_fault` (`fault`); none exactly where each value is encoded as its
//!   extension asks and breaks none of the other rules (`sound`).
//! - `Extensions::iter`: the extensions that were read, in their order (its clause, `next_gives`).
//! - `Extension::first_fault`: the first rule that the value of an extension breaks: the first of
//!   `Ext::read`, else that of `Ext::broken_rule`, whose place is the extension in a certificate
//!   and 0 elsewhere.
//! - `CheckedExtensions::read_explicit`: as `Extensions::read`, of the one list within an explicit
//!   tag (`found`, `only`, `fault`); `DuplicateExtension` at the first extension that occurs twice,
//!   else the first rule that the values break (`judged`).
//! - `are_sound_extensions`: true exactly where the content of a SEQUENCE is extensions of a
//!   certificate of which none occurs twice, each with a value that breaks no rule
//!   (`AreValidOnce`).
//!
//! # Not promised
//!
//! Only tested: lists by hand, and each refusal with its place (as a check of the definitions).
//! Neither proved nor tested: the time that `broken_rule` takes, which is that of `first_repeated`
//! (`ts_shape`); `Debug` text.
#![tactic(auto)]

mod checked_extensions;
mod checks;
mod extension;
mod extensions;
mod fast;
mod fast_extension;
mod fast_find;
mod fast_list;
mod fast_points;

pub use checked_extensions::CheckedExtensions;
pub use extension::Extension;
pub use extensions::Extensions;
pub use fast_list::are_sound_extensions;
