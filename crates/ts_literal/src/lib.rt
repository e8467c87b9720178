//! What texts write: numbers in decimal and octets in hexadecimal digits, each in one way.
//!
//! ```text
//! number_of("0")       // Some(0)
//! number_of("007")     // None: a number has no leading zeros
//! digest_of("00FF..")  // None: the digits are in lower case, 64 of them
//! ```
//!
//! - [`number_of`]: the number below 2^32 that a text writes (`IsNumber`), `None` exactly where it
//!   writes none; [`number_of_octets`] for octets that may be no text.
//! - [`number_in`]: the same within a range (`IsNumberIn`).
//! - [`digest_of`], [`id_of`]: the 32 or 16 octets that a text writes (`IsHex`), `None` exactly
//!   where it writes none.
#![tactic(auto)]

mod number;
mod octets;

pub use number::{number_in, number_of, number_of_octets};
pub use octets::{digest_of, id_of};
