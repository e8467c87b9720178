//! A line of text that a terminal shows as it is, and what certificates hold in such a line.
//!
//! ```text
//! let mut line = Line::of(alloc, b"subject ")?;
//! write_name(alloc, &mut line, cert.subject())?;           // subject CN=www.example.org,O=A\x5cB
//! ```
//!
//! - [`Line`]: a line of printable characters of ASCII alone, whatever is written to it: octets as
//!   they are shown (`printable`, `specs/Lines`), a text that is shown already as it is (`kept`),
//!   octets in hexadecimal digits, numbers in decimal. `to_text`: the line as a text.
//! - [`write_name`], [`name_text`], [`write_general`], [`write_oid`]: a distinguished name, a
//!   general name and an object identifier (`specs/Names`). A comma and a plus sign within a value
//!   have a backslash before them, so that a value can't pass for another attribute.
//! - [`write_point`], [`scope_line`]: what a CRL covers (`specs/Scopes`).
//! - [`write_moment`]: a moment of the years 0 to 9999 as a GeneralizedTime (`specs/Moments`).
//!
//! Out of memory is the only error.
//!
//! # Not promised
//!
//! Which words are written of another moment, except that they are printable: its seconds.
#![tactic(auto)]

mod line;
mod name;
mod scope;
mod time;

pub use line::Line;
pub use name::{name_text, write_general, write_name, write_oid};
pub use scope::{scope_line, write_point};
pub use time::write_moment;
