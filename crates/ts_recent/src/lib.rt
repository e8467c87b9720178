//! The values that were used last, each under octets.
//!
//! ```text
//! let mut answers: Recent<bool> = Recent::new(alloc, 4_096);
//! let question = Key::of(octets);
//! match answers.find(&question) {
//!     Some(answer) => ..,                          // it was kept under these very octets
//!     None => answers.keep(question, answer),      // where there is no room the oldest goes
//! }
//! ```
//!
//! A table keeps at most so many values. It finds them by a number of 64 bits made of the octets
//! (`fingerprint`), and gives one only where all octets are equal: no hash is trusted. Of two
//! values whose octets have one number it keeps the newer.
//!
//! Contracts see a table as the list of its pairs of octets and value, and a [`Key`] as its octets:
//!
//! - [`Recent::new`]: no pairs.
//! - [`Recent::find`]: the value of a pair with these octets.
//! - [`Recent::touch`], [`Recent::keep`]: every pair that is there afterwards was there before, or
//!   is the one that is kept. So what holds of each pair goes on to hold.
//! - [`Key::of`], [`Key::octets`]: the octets.
//!
//! # Not promised
//!
//! That a value is kept, and found again, and for how long: a table that keeps nothing meets these
//! clauses, and one does where memory is refused. Not tested either: that a value is found, that
//! the one that was used longest ago goes, and time. Who chooses octets can find some with one
//! number; then the newer takes the place of the older.
#![tactic(auto)]

mod fingerprint;
mod key;
mod recent;

pub use key::Key;
pub use recent::Recent;
