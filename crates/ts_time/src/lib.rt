//! Moments, and the two forms in which certificates write them: UTCTime and GeneralizedTime of RFC
//! 5280 4.1.2.5, read and printed exactly, without allocation.
//!
//! ```text
//! let end = read_utc(b"260101000000Z")?;        // 2026-01-01T00:00:00Z
//! let text = print_utc(end);                    // the same octets again
//! ```
//!
//! A `Moment` is a number of seconds since 1970-01-01T00:00:00Z, negative before it, in which every
//! day has 86,400; contracts see it as an integer. No call of this crate allocates. Dates and day
//! numbers are computed by `jiff` (`jiff::civil::Date`).
//!
//! Proved, for every list of octets and every moment:
//!
//! - `begins_with_utc`: true exactly where there are sixteen octets or more, of which the first
//!   thirteen are a UTCTime of a time that exists.
//! - `read_utc`, `read_general`: the answer is the moment of a text of the form, `YYMMDDHHMMSSZ` or
//!   `YYYYMMDDHHMMSSZ`, of a time that exists (`found`); every such text is read, as its moment
//!   (`only`); a refusal is `TimeForm`, and comes only where the octets are no such text (`fault`);
//!   it gives what `utc_value` or `general_value` of `specs/Reading.antt` gives: the form in which
//!   the crates above use it (`exact`).
//! - `print_utc`, `print_general`: what is printed is a text of the form that names the moment
//!   (`found`); it is the only one: a text that names this moment is what is printed, so printing
//!   what was read gives the octets back (`only`); there is one exactly for the moments of the
//!   years 1950 to 2049, or 0 to 9999 (`none`).
//! - `utc_is_one_to_one`, `general_is_one_to_one`: laws on the forms alone: no text has two
//!   moments, and no moment two texts of one form (`one_moment`, `one_text`).
//!
//! Reading what was printed gives the moment back by `found` of the printer and `only` of the
//! reader; printing what was read gives the octets back by `found` of the reader and `only` of the
//! printer. The comparisons of `Moment` are those of its number (derived, and proved so).
//!
//! # Not promised
//!
//! Only tested: the definitions against dates of Python's `datetime` and `calendar` (and of `date`
//! for the year 0), the refused forms one by one, `Debug` of a moment not at all.
//!
//! Neither proved nor tested: that the definitions are what RFC 5280, X.690 and ISO 8601 say is for
//! a reader to check; leap seconds are no part of a moment.
#![tactic(auto)]

mod calendar;
mod civil;
mod digits;
mod fast;
mod general;
mod in_year;
mod laws;
mod moment;
mod utc;

pub use fast::begins_with_utc;
pub use general::{print_general, read_general};
pub use laws::{general_is_one_to_one, utc_is_one_to_one};
pub use moment::Moment;
pub use utc::{print_utc, read_utc};
