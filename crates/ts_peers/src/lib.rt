//! What carries a node's messages: to itself, and over the sockets to its peers.
//!
//! ```text
//! // once a round of the loop (`ts_loop`)
//! carrier.carry(&mut table, &mut service, taken, now);     // what the node has made
//! carrier.tend(&rt, &service, &registry, &own, &mut buffer, now);
//! ```
//!
//! A [`Carrier`] is a client of its own node: on a connection without a socket it takes the node's
//! messages, hands the node those to itself at once (which it gives only beyond the bounds of a
//! turn), and puts the others on a [`Line`] to each peer, which is dialed again where it breaks
//! (`ts_carrier`), and is sealed where the node has a key. While a command of a client is under way
//! no other is taken; it is proposed again where its round was lost. Standard error is told of each
//! command that was chosen: its position, kind, outcome and id.
//!
//! - [`ask`], [`Carrier::carry`], [`Carrier::tell`]: whatever the sockets give, only moves of
//!   `ts_links` are made (`HasReached`): quiet ones, and turns of the node.
//! - [`first_of`]: the frame that octets begin with (`BeginsWith` in `specs/Frames`). Of octets
//!   that the node gave only such messages are carried as they begin with, in their order.
//! - Before a peer has said on a connection that it is the node that is meant, no message is made
//!   ready to be written to it (`make_ready` of `line.rt`). What each answer says is one definition
//!   (`specs/Hearing`), and so is what each frame does to the command that is under way
//!   (`specs/Events`), and each message of the node that refuses a round of its own. What waits for
//!   the peers is what the node gave for other nodes, and questions how many commands they know;
//!   the node itself is handed what it gave for itself (`specs/Waiting`).
//! - [`takes_one_frame`], [`says_what_the_frame_says`]: the octets that `ts_carrier` looks at are
//!   those of a frame of `ts_wire`, and are taken to say what it says.
//! - What is written to a peer passes `Socket::write` of `ts_sockets`, whose condition is that what
//!   was answered is kept; so it is one of [`Carrier::tend`].
//!
//! # Not promised
//!
//! Nothing says what a socket gives or takes, that anything is carried, or that a line brings only
//! what the node gave. `bench/group` and `tools/forge` try these over the loopback.
#![tactic(auto)]

mod asking;
mod carrier;
mod frames;
mod group;
mod hearing;
mod laws;
mod line;
mod seal;
mod senders;
mod telling;

pub use asking::ask;
pub use carrier::{Carrier, PEERS};
pub use frames::first_of;
pub use group::{Group, PeerAddress};
pub use laws::{says_what_the_frame_says, takes_one_frame};
pub use line::Line;
