//! A verdict on a chain of certificates as one JSON object (RFC 8259).
//!
//! ```text
//! // {"anchor":"CN=R","explanation":"..","of":2,"policies":[],"position":null,"reason":null,..}
//! let text = object_text(alloc, &fields)?;
//! ```
//!
//! - [`object_text`]: the text of the object whose members are the fields, each by its name and
//!   once, in the order of their names, without spaces: `object_in` (`specs/Object`), written by
//!   `compact_text` of `serde_json`, whose strings are escaped by RFC 8259 section 7. What a field
//!   does not have is `null`. Out of memory is the only error.
//! - [`answer_text`]: such a text of the fields of a node's answer: `answer_in` (`specs/Answer`).
//! - [`members_text`], [`page_text`]: such a text of members that are given one by one, and of a
//!   page of rows of such members: `object_of`, `page_of` (`specs/Members`).
#![tactic(auto)]

mod answer;
mod member;
mod object;
mod value;
mod verdict;

pub use answer::{AnswerFields, answer_text};
pub use member::{Member, Plain, members_text, page_text};
pub use object::object_text;
pub use verdict::VerdictFields;
