//! Textual encodings of certificates and CRLs (RFC 7468), which are known as PEM: the blocks of a
//! text, and what a file holds that is DER or such a text.
//!
//! ```text
//! // of `fullchain.pem` the DER of each certificate, in order; a fault names its line
//! let certificates = read_certificates(alloc, &octets)?;
//! ```
//!
//! A text is its lines, each without the spaces and control characters at its end, so that line
//! feeds with and without a carriage return count the same. A line `-----BEGIN CERTIFICATE-----` or
//! `-----BEGIN X509 CRL-----` begins a block, and the line `-----END` of that label ends it. The
//! lines between are base64 of the standard alphabet, together with padding, however they are cut.
//! Other lines outside of these blocks do not count: text around them, blocks of keys and of other
//! labels (`TRUSTED CERTIFICATE` and `X509 CERTIFICATE` among them). But one that ends with the end
//! of a block is a fault: where a begin is indented, quoted, behind a mark of the octets' order or
//! a dash short, no certificate is passed over in silence. All is said in `specs/Pem`, line by line.
//!
//! - [`read_blocks`]: the blocks of the text, in order (`found`); they are those of the definition,
//!   or its first fault with the number of the line, or memory was refused (`exact`, `Gives`):
//!   `NoEnd`, the line that begins a block that has no end, at the end of the text or where another
//!   block begins; `NoBegin`, the line that ends a block where none is open; `OtherEnd`, a line that ends another label; `NotBase64`, a line that has an
//!   octet which base64 does not use, or the end of a block whose lines together are no base64. A
//!   text without a block has none, and no fault.
//! - [`is_pem`]: true exactly where a line begins with `-----BEGIN `, of whatever label.
//! - [`read_certificates`], [`read_crls`]: of such a text the octets of the blocks of that label;
//!   of any other file one value, its octets (`values_of` in `specs/Files`). A fault in a block of
//!   the other label is a fault as well.
//!
//! # Not promised
//!
//! Only tested: texts of OpenSSL, against its own DER (`tests/words/verify.rows`). Neither proved
//! nor tested: time. Each octet is looked at a bounded number of times: once for the end of its
//! line, once for blanks, once for what the line is, and the base64 of a block once more when the
//! block ends.
#![tactic(auto)]

mod block;
mod fault;
mod files;
mod line;
mod reading;

pub use block::{Block, Label};
pub use fault::PemFault;
pub use files::{is_pem, read_certificates, read_crls};
pub use reading::read_blocks;
