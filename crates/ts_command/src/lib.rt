//! Commands of a trust store, each of which a client asks for under an id that it chose: their one
//! encoding, and what a command came to.
//!
//! ```text
//! let command = Command::add_anchor(id, certificate)?;        // TooLong above the limits
//! let octets = command.octets(alloc)?;                         // its one encoding
//! // Some, exactly where the octets are one whole command
//! let again = Command::read(alloc, &octets)?;
//! ```
//!
//! A command is 16 octets of id, an octet of the kind and its fields, numbers being big endian: 01
//! a certificate after four octets of its length; 02 the 32 octets of an anchor's id; 03 a CRL
//! after four octets of its length; 04 the 32 octets of a CRL's id; 05 an anchor's id and its
//! purposes (`00` for any; else `01`, an octet of their number, and the contents octets of each
//! after an octet of their length, strictly ascending); 06 nothing.
//!
//! Copies of a command share the octets of its certificate or CRL (`ts_octets`).
//!
//! - [`Command::add_anchor`], [`Command::load_crl`], [`CertificateOctets::new`],
//!   [`CrlOctets::new`]: `TooLong` exactly above the limit.
//! - [`Purposes::new`]: `None` exactly where the list is longer than 16 or not strictly ascending.
//! - [`Command::read`]: `exact`: the result by the definition of reading (`specs/Reading`);
//!   `found`, `only`: a command is read exactly from the octets that are its encoding.
//! - [`Command::octets`]: `encoded`: the encoding; `fits`: each command has one.
//! - `impl ts_synod::Command`, `impl ts_synod::Codec` for [`Command`]: a command is one of the
//!   protocol, and is kept in a record by its one encoding (`specs/Octets`).
//! - [`laws::one_encoding`]: no two commands have one encoding, and no two lists of octets are one
//!   command's.
//! - [`laws::which_fit`]: the test by which a command has octets in a record says exactly which
//!   commands have an encoding.
//! - [`Refusal::code`], [`Refusal::of_code`]: the octet that stands for a refusal in frames and
//!   rows, and back (`specs/Outcomes`); `Display` of `Refusal` and `Outcome`: the words.
//!
//! Out of memory is answered as `AllocError`.
//!
//! # Not promised
//!
//! Only tested: that the calls that take memory succeed when there is enough. Neither proved nor
//! tested: time.
#![tactic(auto)]

mod codec;
mod command;
mod kinds;
pub mod laws;
mod outcome;
mod purposes;
mod reading;
mod values;
mod writing;

pub use command::Command;
pub use outcome::{Outcome, Refusal};
pub use purposes::{MAX_PURPOSES, Purposes};
pub use values::{CertificateOctets, CrlOctets, TooLong};
