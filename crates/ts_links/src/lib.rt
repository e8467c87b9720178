//! Connections as values: what came on each, what waits to leave on it, and when it is late. No
//! socket is in it, and moments are arguments.
//!
//! ```text
//! let mut table = Connections::new(alloc, 512)?;       // 512 slots
//! let slot = table.open(now);                          // a closed one, or None
//! table.arrive(slot, piece, now)?;                     // octets came
//! table.take(slot, &mut server, now)?;                 // the first frame is taken and answered
//! server.keep();                                       // what followed from it is kept on disk
//! let octets = table.waiting(slot);                    // what waits, and may be written now
//! table.leave(slot, count, now);                       // so much of it was
//! table.close(slot);
//! ```
//!
//! A connection takes frames as `ts_serve::serve` does: a request is handed to the [`Service`],
//! and the text of its answers waits behind that of others; a wrong frame, or a frame
//! that is no request, is answered with FrameFault, and nothing more is taken then. No request is
//! taken while [`MAX_WAITING`] octets wait, and no piece while [`MAX_HELD`] are held and the first
//! frame of them is whole.
//!
//! What is proved:
//!
//! - [`each_is_answered`], over every list of moves on all connections (`specs/Moves`, `Events`):
//!   `fair`: what left on a connection and what waits is the text of the answers to the requests at
//!   the front of what came on it, in order, and of the fault's that follows them; nothing else
//!   leaves, and until it is closed nothing is lost (`specs/Account`). `exact`: those requests are
//!   the first of the frames that the octets split into, and all of them at a fault.
//! - [`Connections::open`], `arrive`, `leave`, `close`, `take`: each is such a move, of this slot
//!   and at this moment, or says exactly why not (`specs/Table`, `Turns`): no slot is closed; the
//!   connection is not open; it has no room; fewer octets wait; no whole frame is there or too many
//!   octets wait. `leave` lets as many octets leave as it is told. Only refused memory is not told.
//! - [`Connections::take`]: the service makes the request's turn, and no other call makes one. In
//!   [`reaching`] the same calls have the clauses that a loop keeps (`specs/Calls`): moves lead
//!   here, and the service is after turns in the order in which requests were taken, between which
//!   it may have tried to keep what was there (`RunsAndKeeps`).
//! - [`Service`]: what takes requests. A server of `ts_serve` stages them: `keep` keeps what came
//!   of all of them by one append, and `is_kept` says that the answers may leave.
//! - [`Connections::is_late`]: exactly by the times of `specs/Times`: an answer waits longer than
//!   `request_ms`, and again so long after each 65,536 octets that leave; a frame takes longer to
//!   come whole, with a second more for each mebibyte that it announces, whatever comes of it in
//!   the meantime; nothing is asked for `idle_ms`; after a fault all is over after `request_ms`.
//!   Each move says the times that it leaves.
//! - [`Connections::idlest`]: of the connections on which nothing is held and nothing waits, the
//!   one that has been so longest.
//!
//! An answer that finds no memory is lost, and the connection is closed then.
//!
//! # Not promised
//!
//! That a call is made: that octets which came are handed to `arrive`, those of `waiting` to a
//! client, and late connections closed, is the loop's part (`ts_loop`). How much memory there is:
//! at most 64 KiB and one answer wait on a connection, and one frame and what a read brings is
//! held; the moves say so, and no clause sums it up.
#![tactic(auto)]

mod connections;
mod front;
mod late;
mod laws;
mod link;
mod looking;
pub mod reaching;
mod service;
mod taking;
mod times;

pub use connections::{ArriveFault, Connections};
pub use laws::each_is_answered;
pub use link::{Link, MAX_HELD, MAX_WAITING, Stage, TakeResult};
pub use service::Service;
pub use times::{Deadlines, Times};
