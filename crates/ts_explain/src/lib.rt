//! Why a certificate of a chain is not good, in plain words, with the section of the standard.
//!
//! ```text
//! // certificate 2 of 3, CN=www.example.com, expired after 2026-01-31 12:00:00 UTC (RFC 5280 ..)
//! let line = reason_line(alloc, 2, 3, cert, &Reason::Expired)?;
//! ```
//!
//! - [`section`]: the RFC and its section that a reason is of (`specs/Sections`).
//! - [`certificate_line`]: a line that begins with a certificate of a chain: its place, of how
//!   many, and its subject. [`reason_line`]: such a line, the words that say why the certificate is
//!   not good (`specs/Why`), and the section of the reason. [`write_no_anchor`]: that its issuer is
//!   no trust anchor (`specs/Lines`).
//!
//! Out of memory is the only error.
#![tactic(auto)]

mod lines;
mod sections;
mod words;

pub use lines::{certificate_line, reason_line, write_no_anchor};
pub use sections::section;
