//! The fields that certificates and CRLs share (RFC 5280 4.1, 5.1): times, algorithm identifiers,
//! and the readers of an INTEGER, of whole octets in a BIT STRING and of a name as fields of a
//! SEQUENCE. They are read in place, without allocation or copy. Octets that are no such field are
//! refused by the first rule that they break, with its place.
//!
//! ```text
//! let mut fields = element.reader();
//! let signature = next_algorithm(&mut fields)?;    // an algorithm identifier, borrowed
//! let issuer = next_name(&mut fields)?;
//! let this_update = next_time(&mut fields)?;       // a UTCTime or a GeneralizedTime, by its tag
//! ```
//!
//! - `next_time`, `read_time`: the time that is next, or that an element is, as `time_at` or
//!   `time_of` gives it.
//! - `next_algorithm`, `read_algorithm`: the algorithm identifier that is next, or that an element
//!   is, as `algorithm_at` or `algorithm_of` gives it.
//! - `next_integer`, `next_bits`, `next_name`: the value that is next, as `integer_at`, `bits_at`
//!   or `name_at` gives it.
//! - `Stamp::of`, `time`: the same time (`time_in`).
//!
//! A call of the name `next_..` leaves the reader behind the field (`Takes`). What is encoded how
//! is in `specs/Time.antt` (`IsTime`) and `specs/Algorithm.antt` (`IsAlgorithm`); which rule is the
//! first one that is broken, in `specs/Table.antt`.
//!
//! # Not promised
//!
//! Only tested: worked fields. Neither proved nor tested: the time that reading takes.
#![tactic(auto)]

mod algorithm;
mod fields;
mod time;

pub use algorithm::{AlgorithmIdentifier, next_algorithm, read_algorithm};
pub use fields::{next_bits, next_integer, next_name};
pub use time::{Stamp, Time, TimeForm, next_time, read_time};
