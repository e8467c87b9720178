//! What is asked over HTTP: pairs of texts, from the query of a URL, a form or a JSON object, as
//! the question that they say.
//!
//! ```text
//! let mut wanted = WantedFields::new(alloc);
//! wanted.add_all(alloc, &form_pairs(alloc, b"k=5&hard")?)?;
//! wanted.add_certificates(alloc, pem)?;                  // the body: the leaf first
//! let question = question_of(alloc, wanted, now)?;       // the moment is now, if none was given
//! ```
//!
//! The fields (`specs/Fields`): `chain`, certificates with the leaf first, as a text of PEM or DER
//! in base64; `at`, a moment as 20260101000000Z; `k`, a position; `hard`, `deltas`, `explicit`,
//! `nomap` and `noany`, flags, which are set by an empty text, `1`, `on` or `true`, and by `0` and
//! `false` not; `policies` and `purpose`, object identifiers in dotted form; `anchor`, the 64
//! lower-case hexadecimal digits of an anchor's id. `chain` and `policies` may be given more than
//! once; of `at`, `k`, `purpose` and `anchor` a second one is refused. Each but a flag may be given
//! as an empty text, which says nothing, since forms send such.
//!
//! - [`form_pairs`]: the pairs of `application/x-www-form-urlencoded` octets, decoded, in order;
//!   refused exactly where they are more than 256.
//! - [`json_pairs`]: what a JSON object says (`specs/Said`): a pair for each text, number, `true`
//!   and `false`, and of a list one for each text in it; nothing for `null`. Refused exactly where
//!   a name has more than 64 octets, else where the text is no such object, else where it says more
//!   than 256 pairs, each by a fault of its own.
//! - [`WantedFields::add`]: a pair sets the field that it names (`specs/Fields`), or is refused,
//!   for a fault that is so: no field has the name, the text is no value of it, it is given twice;
//!   or memory.
//! - [`WantedFields::add_all`]: one after another; the fault is that of the first that is refused.
//! - [`WantedFields::add_certificates`]: the certificates of a text of PEM, or one, in DER; refused
//!   exactly where they are a text with a fault.
//! - [`question_of`]: the question that the fields say, or that it is outside its limits
//!   (`specs/Asking`): a chain under the anchor that is named, or else a search.
//! - [`RowsWanted::of`]: which rows of a page pairs ask for: `k` and `from`, each at most once
//!   (`specs/Rows`). [`command_id_of`]: the id of a command that they name, by `id` alone.
//!
//! Of memory no clause says that it was refused: any call may give it. Nothing is tested.
#![tactic(auto)]

mod asking;
mod fault;
mod field;
mod flags;
mod form;
mod json;
mod once;
mod pair;
mod rows;
mod values;
mod wanted;

pub use asking::question_of;
pub use fault::FormFault;
pub use field::Field;
pub use form::form_pairs;
pub use json::json_pairs;
pub use pair::Pair;
pub use rows::{RowsWanted, command_id_of};
pub use wanted::WantedFields;
