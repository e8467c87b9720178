//! The sockets of a node's clients.
//!
//! ```text
//! // one round of a slot; the loop visits each (`ts_loop`)
//! let read = read_once(&mut table, &mut door, keys, slot, &mut buffer, now);
//! // .. requests are taken, and what followed from them is kept ..
//! let handed = finish(&mut table, &service, &mut door, keys, slot, now);
//! ```
//!
//! A [`Door`] has the [`Socket`] of a slot (`ts_links`), which [`accept_some`] opens. Where keys
//! are wanted, a lock stands between the socket and its connection (`ts_access`): what comes is
//! handed on as the key's role may ask it, what leaves is sealed. A connection that shows no key
//! for as long as a request may take is closed, and each is after an hour. The file of keys is read
//! again within a second of its change ([`Access`]).
//!
//! - [`read_once`], [`finish`], [`accept_some`]: whatever the sockets give, only quiet moves of
//!   `ts_links` are made (`IsQuiet`).
//! - [`Socket::write`]: all that is written on a socket passes it, also to peers (`ts_peers`) and
//!   over HTTP (`ts_loop`). Its condition is that what was answered is kept, and so it is one of
//!   each call that writes.
//! - [`Counts`]: what was done, for whoever watches: each call counts by `specs/Counts`.
//! - [`Accepts::is_due`], [`Door::is_over`], [`Door::waits`]: when connections are accepted again,
//!   when one is over where keys are wanted, and whether something waits to be written
//!   (`specs/Doors`).
//!
//! # Not promised
//!
//! Nothing says what a socket gives or takes: that the octets of a move are those that came, or
//! that the lock let through, or that anything is accepted, read or written. `bench/hostile` and
//! `tools/forge` try these over the loopback. That what happens is counted, and what a [`Socket`]
//! says may be done on it.
#![tactic(auto)]

mod accepting;
mod access;
mod counts;
mod door;
mod limits;
mod lock;
mod socket;

pub use accepting::{ACCEPTS, Accepts, Entry, accept_some};
pub use access::Access;
pub use counts::{Counts, Why};
pub use door::{Door, finish, read_once, shut_if_done, write_last};
pub use limits::Limits;
pub use socket::{PIECE, Socket};
