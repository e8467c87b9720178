//! Many connections, served at once by one thread, over the sockets of `mio` (`ts_sockets`); and
//! what a node carries to its peers.
//!
//! ```text
//! let limits = Limits::usual();
//! let group = Group { carries: true, peers, tells: true };      // peers: node and address of each
//! let (keyring, own, http) = (Some(keyring), Some(key), None);
//! let (meter, version, about, greeting) = (None, None, None, None);
//! let mut access = Access {
//!     node: 1, keyring, own, open: false, http, meter, version, about, greeting,
//! };
//! let at = "10.0.0.1:7001";
//! let counts = serve_all(&rt, alloc, &mut server, at, &limits, &group, &mut access)?;
//! ```
//!
//! A round waits for events, at most 50 ms, and no longer than until the command that is under way
//! is proposed again or the next one is taken (`ts_carrier`); accepts what waits; then visits each
//! connection that has something to do: one read, and at most 64 requests, from the slot on that is
//! behind the one whose command was taken last. What followed from all of these is kept on disk by
//! one append, and then each connection is written once. So no client keeps another from being
//! answered for longer than a round takes, and of several that submit each has its turn. A
//! connection that is late (`ts_links`) is closed. Where all slots are taken, the connection that
//! has been idle longest makes room for a new one, or, where keys are wanted, the one that has
//! shown none for the longest time, and else one of too many readers (`ts_sockets`); where there is
//! none, the new one is closed. An `accept` that fails is counted, and tried again after 100 ms.
//! After a wrong frame its answer is written, the writing side is ended, and what still comes is
//! read and dropped until the client ends or the time is over: else the system could take the
//! answer away.
//!
//! Where HTTP is wanted, its connections (`ts_http`) have a listener and slots of their own, as
//! many as those of frames. What a request asks of the node the loop asks for it, on a connection
//! without a socket, as for itself. A round visits them behind the others: one read and at most 8
//! requests each, and one write once all is kept.
//!
//! A sync of the node's disks stops the round, and every connection waits for it. Where what
//! followed from a round can't be kept the loop ends, and nothing that was answered in it leaves.
//!
//! - [`serve_all`]: `served`: whatever the sockets give, in whatever pieces and order, only moves
//!   of `ts_links` were made from connections of which none was open, and the server is after
//!   turns: those of the requests that these moves take, in their order, and what it tried to keep
//!   between them. So the law `ts_links::each_is_answered` speaks of each connection. `ahead`. All
//!   that is written on a socket passes `Socket::write` of `ts_sockets`, whose condition is that
//!   what was answered is kept.
//! - [`laws::each_speaks_for_itself`]: of the frames that `ts_access` hands on: a peer's key brings
//!   messages of that peer to this node alone, and only an admin's brings a command.
//!
//! # Not promised
//!
//! Nothing says what a socket gives or takes: that the octets of a move `Came` are those that came,
//! or that the lock let through, and those of `Left` reach the client, is the work of `Socket` and
//! `Door` of `ts_sockets`. Nor that anything is accepted, read, written or carried, that
//! what HTTP is answered is what the node was asked for it (`web`, `web_door`), that a line brings
//! only what the node gave, that the system's time is right, or that a round ends soon.
//! `bench/hostile`, `tools/forge` and `bench/group` try these over the loopback. What is counted.
#![tactic(auto)]

mod fault;
pub mod laws;
mod listening;
mod pumping;
mod reporting;
mod rounds;
mod serving;
mod shared;
mod showing;
mod watch;
mod web;
mod web_door;

pub use fault::LoopFault;
pub use serving::serve_all;
