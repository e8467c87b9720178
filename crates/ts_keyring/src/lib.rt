//! A file of keys: read, and read again where it has changed.
//!
//! ```text
//! let mut keyring = Keyring::read(&rt, alloc, "keys")?;           // what is wrong with it, else
//! keyring.refresh(&rt, alloc, now);                               // once a second at most
//! let entrance = Entrance::new(alloc, keyring.keys(), challenge);
//! ```
//!
//! - [`read_key_file`]: the keys of a file of at most 1 MiB, as `ts_access::read_keys` reads them;
//!   whoever has one key uses it too.
//! - [`Keyring`]: the keys of those who may ask a node. Where the file can't be read again, or a
//!   line of it is no key, the keys stay as they were, and standard error is told.
//! - [`draw`]: octets of the system's random source, for secrets and challenges.
//!
//! # Not promised
//!
//! That nobody guesses what is drawn. What a file gives, and when it changed, no clause says. Only
//! tested: that a changed file is read again, and that a spoiled one changes nothing
//! (`tools/trouble`).
#![tactic(auto)]

mod drawing;
mod keyring;

pub use drawing::draw;
pub use keyring::{KeyFileFault, Keyring, MAX_KEY_FILE, read_key_file};
