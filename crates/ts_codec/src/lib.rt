//! The parts of which this project's own formats are made, each read and written in one way:
//! numbers, ids, blobs, object identifiers, lists, kinds.
//!
//! ```text
//! let (position, rest) = position(octets)?;     // at the front; Form where it is cut, or 0
//! let (ballot, rest) = ballot(rest)?;
//! push_number32(&mut out, position)?;
//! ```
//!
//! # A part
//!
//! A part is three definitions and a law. The definitions: which octets a value has (`encode`),
//! which values have octets (`Fits`), and how it is read at the front of others (a `Reader`: the
//! value and the octets after it, or none). The law is `Part encode Fits read` (`proofs/Laws`): a
//! value that is read fits, and its encoding is what was there; and a value that fits is read from
//! its encoding, whatever follows that. So no two values have one encoding (`one`), and a call that
//! answers as its reader does promises `found` and `only`.
//!
//! # A row
//!
//! Parts make up a value by five words (`specs/Reading`), of which each has one lemma
//! (`proofs/Rows`):
//!
//! - `part that holds`: a part whose value meets a test (`that_part`, `test_part`).
//! - `part and others`: a part, and others after it (`and_part`).
//! - `part then others`: a part, and others that are read by its value (`then_part`).
//! - `parts into make`: the value that parts make up (`into_part`).
//! - `by_kind rows`: an octet of the kind, and the fields of that kind, by a table (`case`,
//!   `kind_part`); `of_kind` where the octet was read before, `code_at` where there are no fields.
//!
//! So a record is a row, `position_at and ballot_at into started`, and its law is a line,
//! `into_part (and_part position_part ballot_part) started (..)`, whose rest says which values the
//! parts make up. An enum is a table of rows, with a line for each kind.
//!
//! Lists: `number then many_at item` (`counted_part`); a part that a flag announces: `optional_at`;
//! a value that is all of a blob: `within_blob_at`; an octet that is always the same:
//! `behind_mark`.
//!
//! # In a crate
//!
//! The encoding and the limits stand in specs/, and public clauses cite them alone. Beside them
//! stands the row that reads them. The code of the row is a `?` for each part, and promises `Gives
//! view result (row octets.now)`, which `#[tactic(auto, unfolding(row))]` proves; a loop over items
//! takes its steps from `proofs/Loops`. The octets of kinds are constants in the code, which the
//! table names.
//!
//! - [`reading`]: the parts at the front of octets, borrowed; each call gives what its reader
//!   gives.
//! - [`writing`]: the parts after other octets: their encoding.
//!
//! # Not promised
//!
//! Neither proved nor tested: that calls with ample memory succeed.
#![tactic(auto)]

mod fault;
mod ranges;
pub mod reading;
pub mod writing;

pub use fault::ReadFault;
pub use ranges::MAX_POSITION;
