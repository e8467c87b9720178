//! What is asked of a node about a chain of certificates, or for a page of what its store holds,
//! and what it answers: plain values, each with one encoding.
//!
//! ```text
//! // OutOfLimits exactly outside the limits
//! let question = Question::chain(terms, anchor, certificates)?;
//! let octets = question.octets(alloc)?;                            // its one encoding
//! // Some, exactly where the octets are one whole question
//! let again = Question::read(alloc, &octets)?;
//! let answer = Answer::new(k, Reply::NoPath)?;
//! let octets = answer.octets(alloc)?;
//! ```
//!
//! Numbers are big endian. A question is 01 for a chain, 02 for a search, 03 for a page of the
//! store or 04 for one of its log; eight octets of the moment; an octet of flags (bit 0 explicit
//! policy, 1 inhibit mapping, 2 inhibit anyPolicy, 3 hard, 4 k is present, 5 a purpose is present,
//! 6 use deltas); four octets of k; the purpose after an octet of its length; an octet of the
//! number of user policies, and each like the purpose; two octets of the number of permitted
//! subtrees, and each after two octets of its length; the excluded ones like them; of a chain the
//! 32 octets of the anchor's id; and an octet of the number of certificates, and each after four
//! octets of its length; for a page in their place four octets of the number of rows before it. Of
//! the terms of a question for a page k alone counts.
//!
//! An answer is four octets of k, an octet of the reply's tag, and its fields (`specs/Reply`).
//!
//! - [`Question::chain`], [`Question::search`], [`Question::store`], [`Question::log`]:
//!   `OutOfLimits` exactly where `is_within` (`specs/Question`) is false.
//! - [`Answer::new`]: `OutOfLimits` exactly where `is_answer` (`specs/Reply`) is false.
//! - [`Question::read`], [`Answer::read`]: `found`, `only`: a value is read exactly from the
//!   octets that are its encoding.
//! - [`Question::octets`], [`Question::write`], [`Answer::octets`], [`Answer::write`]: the
//!   encoding; `fits`: each value has one.
//! - [`AnchorRow`], [`CrlRow`], [`CommandRow`]: the rows of a page (`specs/Rows`), which borrow
//!   their strings. `read`: `found`, `only`, as of a question; `write`: the encoding, of a row that
//!   fits.
//! - [`laws::one_question`], [`laws::one_answer`]: no two values have one encoding, and no two
//!   lists of octets are one value's. [`laws::one_row`]: no two rows have one encoding.
//!
//! DER is not looked into, except that policies, purposes and extensions are object identifiers.
//! Out of memory is answered as `AllocError`.
//!
//! # Not promised
//!
//! Only tested: that calls with ample memory succeed, and the octets of an example.
#![tactic(auto)]

mod answering;
mod asking;
pub mod laws;
mod limits;
mod lists;
mod question;
mod ranges;
mod reading;
mod reply;
mod reply_reading;
mod reply_writing;
mod row_reading;
mod row_writing;
mod rows;
mod terms;
mod writing;

pub use lists::{OctetStrings, Oids, Places};
pub use question::{OutOfLimits, Question, Target};
pub use reading::{MAX_CHAIN, MAX_POLICIES, MAX_SEARCH, MAX_SUBTREES};
pub use reply::{Answer, Reply};
pub use rows::{AnchorRow, CommandRow, CrlRow};
pub use terms::{Flags, Terms};
pub use ts_codec::MAX_POSITION;
