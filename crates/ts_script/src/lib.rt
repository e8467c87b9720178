//! The words of the lab's scripts, and the lines that stand alone: those that make certificates and
//! lists, and those that judge chains.
//!
//! ```text
//! let mut known = Symbols::new(alloc);
//! // what the line prints; from then on its certificate is known
//! let text = answer_cert(alloc, &mut known, line)?;
//! // the verdict on a chain of known certificates
//! let text = answer_check(alloc, &known, line)?;
//! ```
//!
//! - [`answer_cert`], [`answer_crl`]: what a line prints and makes known, or why it is refused
//!   (`specs/Objects`), by the words of `specs/CertLine` and `specs/CrlLine`; nothing is known after
//!   a refusal that was not.
//! - [`answer_check`]: the text of a verdict, or why the line is refused.
//! - [`Symbols::find`], [`Symbols::find_cert`], [`Symbols::keep`]: what a name stands for is that
//!   of its first entry, and a new one is last.
//! - [`words`]: a word is a name, a number, octets, a moment exactly where it is encoded so
//!   (`specs/Words`).
//! - [`oid_in`]: an object identifier in dotted form.
//! - [`Options::read`]: what is asked of a chain.
//! - [`laws::one_reading`]: words say one list of extensions.
//!
//! A line is its octets, without the line feed that ends it.
#![tactic(auto)]

mod cert_line;
mod cert_octets;
mod check_line;
mod crl_fields;
mod crl_line;
mod crl_words;
mod extension_words;
mod keyword;
pub mod laws;
mod making;
mod options;
mod script;
mod symbols;
mod values;
mod verdict_text;
pub mod words;

pub use cert_line::answer_cert;
pub use cert_octets::CertOctets;
pub use check_line::answer_check;
pub use crl_line::answer_crl;
pub use options::Options;
pub use script::{COMMENT, LINE_FEED, LineFault, WrongLine};
pub use symbols::{Item, Symbols};
pub use values::oid_in;
