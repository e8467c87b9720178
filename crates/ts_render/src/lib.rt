//! What a node answers, for who reads it in a browser or in a program: fields, of which `ts_json`
//! makes JSON.
//!
//! ```text
//! let fields = answer_fields(alloc, &question, &answer, &id)?;
//! let json = ts_json::answer_text(alloc, &fields)?;
//! let row = row_fields(alloc, &octets)?;                  // Some(Crl(..)), of a page's row
//! let members = row_members(alloc, place, row)?;          // of a JSON object
//! ```
//!
//! - [`answer_fields`]: `AreFields` (`specs/Fields`): each field says what the question, the answer
//!   and the id say.
//! - [`is_final`]: whether a reply to a question that names k is for ever: all but `NotYet`.
//!   [`valid_in`]: whether a reply says that a chain is valid, or that it isn't.
//! - [`row_fields`]: `IsRow`, `IsNoRow` (`specs/Rows`): the fields of the row that octets are, or
//!   that they are none. [`row_members`]: the fields as members of an object (`specs/RowMembers`).
//! - [`row_text`]: the text of the object of these members. [`write_row`]: a row as a line that a
//!   person reads, of which words `specs/RowLines` says.
//! - [`chain_fields`]: the certificates of a question, their subjects and validities, of which the
//!   one is marked that a reply names (`specs/Chain`).
//! - [`explanation`]: `IsEnded` (`specs/Explanations`): what a reply means in plain words, word for
//!   word, as one line of printable characters of ASCII that is ended by a line feed. Of a chain
//!   that is not valid it is the line of `ts_explain` on the certificate that the reply names.
//! - [`moment_text`]: a moment.
//!
//! Out of memory is the only error.
//!
//! # Not promised
//!
//! Neither proved nor tested: time.
#![tactic(auto)]

mod chain;
mod explaining;
mod fields;
mod lines;
mod members;
mod outcome;
mod replies;
mod rows;
mod text;

pub use chain::{CertificateFields, chain_fields};
pub use explaining::explanation;
pub use fields::answer_fields;
pub use lines::{row_text, write_row};
pub use members::row_members;
pub use replies::{is_final, valid_in};
pub use rows::{AnchorFields, CommandFields, CrlFields, PurposeFields, RowFields, row_fields};
pub use text::moment_text;
