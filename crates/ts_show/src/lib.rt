//! What octets hold, in lines that a person reads: a certificate, a CRL, a
//! command of a trust store, a question or a node's record.
//!
//! ```text
//! // `other`: the record's second disk, else nothing
//! let text = show(alloc, &octets, &other)?;
//! ```
//!
//! - [`kind_of`]: `IsKind` (`specs/Kind`): what octets hold, the first of the five that they are.
//! - [`show`]: `IsShown` (`specs/Begins`): lines of printable characters of ASCII, each ended by a
//!   line feed; they begin with the word for the kind, and of a certificate and of a list with the
//!   digest that names it; of what is neither and begins with the tag of a SEQUENCE they are the
//!   first broken rule of each, with its place.
//! - [`Kind::word`]: the word for a kind.
//! - [`reply_text`], [`found_text`], [`not_yet_text`], [`fault_name`]: what a node answers, in
//!   words, as the lab and the command line print it (`specs/Words`).
//! - [`laws::one_kind`]: octets hold one kind of thing.
//!
//! What the other lines say of a certificate, a list, a command, a question and a record no clause
//! says: tests show it. Serial numbers and the numbers of lists are hexadecimal digits. Of
//! policyMappings, policyConstraints and authorityKeyIdentifier the number of octets alone is
//! shown, and of a distribution point nothing but its names.
//!
//! # Not promised
//!
//! Only tested: what the other lines say of a certificate, a list, a command, a question and a
//! record (texts that were written by hand; OpenSSL says the same for the certificate and of the
//! list); that memory is refused only where none can be had. That each call returns on all octets
//! is proved; a test shows one of each kind with each octet replaced by 00, 7F, 80 and FF in turn.
#![tactic(auto)]

mod certificate;
mod command;
mod entry;
mod extension;
mod fault;
mod kind;
pub mod laws;
mod lines;
mod list;
mod question;
mod record;
mod reply;
mod shown;
mod value;

pub use kind::{Kind, kind_of};
pub use reply::{fault_name, found_text, not_yet_text, reply_text};
pub use shown::show;
