//! Who may ask what on a connection, and a connection with keys as its two sides have it.
//!
//! ```text
//! let keys = read_keys(alloc, b"7 admin 000102..1f\n")?;
//! let mut server = Entrance::new(alloc, node, challenge);     // server.hello() goes to the client
//! let mut client = Visitor::new(alloc, 7, secret, nonce);     // client.hello() goes to the server
//! client.push(&server.hello())?;
//! client.take()?;                                             // Some(no octets): it has begun
//! client.seal(&request, &mut out)?;
//! server.push(&client.hello())?;
//! server.push(&out)?;
//! while let Some(octets) = server.take(&keys)? {
//!     // to the reader of frames
//! }
//! server.seal(&answer, &mut out)?;
//! ```
//!
//! The crate has values alone: no socket, no file, no clock, no randomness. Below it `ts_guard`
//! lets through what was sealed with a key; here the key is found by the number that the client
//! names, and of what was let through only what the key's role may ask is handed on, frame by
//! frame.
//!
//! What is proved of each call:
//!
//! - [`read_keys`]: the keys are what the lines add, one after another; or the fault is that of the
//!   first line that adds none, or that the text is too long (`specs/Keys`, `specs/Pieces`).
//! - [`key_line`]: the line that names this key ([`laws::reads_what_it_writes`]).
//! - [`key_of`]: the first key of this number.
//! - [`may`]: whether a role may ask this of a node (`specs/Roles`).
//! - [`Sieve::push`], [`Sieve::take`]: what is held and handed on (`specs/Sifting`), and that of
//!   the stream so far it is whole frames that the role may ask, and a part of one more, or a
//!   faulty length and what follows, or the refusal of a forbidden frame (`specs/Sifted`).
//! - [`Entrance::hello`], [`Visitor::hello`]: the octets of the challenge, of the greeting.
//! - [`Entrance::push`], [`Entrance::take`], [`Entrance::seal`]: the step from one stage to another
//!   or exactly why there is none, and then nothing is let through any more (`specs/Entering`,
//!   `specs/Lines`); and what was handed on of what came (`specs/Entered`).
//! - [`Visitor::push`], [`Visitor::take`], [`Visitor::seal`]: the step of a client, which hands on
//!   each content (`specs/Visiting`).
//! - [`laws::only_what_the_role_may_ask`]: over every list of calls in any order: what came is a
//!   greeting that names a key and records with this key's tags on this connection, and what was
//!   handed on is what the key's role may ask of their contents.
//! - [`laws::from_the_holder_of_a_key`]: if nobody else makes a key's tags, that is of a front of
//!   what was sealed with it on this connection.
//!
//! # Not promised
//!
//! That the keys are the same ones at each call (the laws are about calls with one list of keys),
//! that the 32 octets of a challenge or a nonce are random, that a secret is secret, and all that
//! `ts_guard` does not promise.
#![tactic(auto)]

mod entrance;
mod fault;
mod key;
mod keys;
pub mod laws;
mod line;
mod piece;
mod rights;
mod sieve;
mod visitor;

pub use entrance::Entrance;
pub use fault::{EntranceFault, KeysFault};
pub use key::{Key, Role};
pub use keys::{MAX_KEYS, key_line, key_of, read_keys};
pub use rights::may;
pub use sieve::Sieve;
pub use visitor::Visitor;
