//! A node, served: a stream of requests is answered, from octets to octets, and messages are
//! carried between servers.
//!
//! ```text
//! let mut server = Server::new(alloc, node)?;                 // refused, it gives the node back
//! serve(&mut server, &mut reader, &mut writer)?;               // one stream
//! listen(&mut server, &listener, 1_000_000)?;                  // connections, one after the other
//! let mut peers = [ServerPeer::new(alloc, server), ..];        // peer i is node i
//! let delivered = carry(alloc, &mut peers, 4)?;                // four rounds
//! ```
//!
//! A request is a frame of kind 01 to 07 or 10 to 18 (`ts_wire`). Each but Take, Identify and
//! Report is handed to the node as an input (`Node::handle`); or, where it is staged, the node
//! takes it in memory, with its messages to itself, and what it keeps waits (`Node::stage`). The
//! node's messages go to the outbox, where the first 256 that wait stay and others are lost, and
//! the answer is the node's reply: Done 0, Started, Settled, Unknown, Prefix, Answer, Done 0 or 1
//! for a step of a rewrite, or NodeFault. Take is answered with the outbox's messages as frames and
//! Done with their count, and the outbox is empty then; Identify with which node of which group it
//! is; Report with the text that `note` was given last. A frame of kind 20 to 29 is no request: it
//! is the fault Kind. A wrong frame is answered with FrameFault, and ends the stream.
//!
//! - [`Server::new`], [`Server::close`]: the node, given back too where memory is refused.
//! - [`Server::answer_frame`]: one frame: the text of the answers of its turn, or why there is
//!   none; [`refusal`]: the text for a wrong frame's fault.
//! - [`Server::stage_frame`]: the answers of one frame that is staged (`StagedTurn`, in the words
//!   of `Node::stage`); [`Server::keep_staged`]: `kept`: what waits is kept by one append, or the
//!   node is broken (`HasKept`, in the words of `Node::keep_staged`); `settled`: where it says so
//!   nothing waits. `ts_links` serves many connections by these two.
//! - [`Server::note`]: a text about the server, for whoever asks for a report. Contracts see
//!   nothing of it: what it says is up to the loop that runs the server.
//! - [`Server::has_failed`]: whether the node broke in a turn; each turn says so.
//! - [`serve`]: `served`: where the reader tells its octets, what is written is the text of the
//!   answers to the requests at the front of the stream, each a turn of the server (`specs/Turn`,
//!   in the words of `Node::handle`), and nothing else; Ok where that is all of the stream, `Cut`
//!   where less than a frame is left, `Frame` at the fault after them, whose answer comes last; at
//!   another fault what is written is a front of such a text, and the server is after the requests
//!   that were taken (`specs/Stream`). `exact`: the requests are those among the frames that the
//!   stream splits into. `run`: whatever is read, the server is after a run of turns. `sound`.
//! - [`listen`]: `run`, `sound`; `fault`: no fault but `Read`. A client that is waited for longer
//!   than [`LONGEST_WAIT`] seconds loses its connection; no clause says so.
//! - [`ServerPeer::exchange`](Peer::exchange): `served`: the answers are those of `serve` to the
//!   whole stream.
//! - [`read_all`]: `all`: what a reader gives; `room`: no more than may come; `longer`: none is
//!   refused as too long that is not. [`room_for`]: how much frames have at most.
//! - [`TcpPeer::exchange`](Peer::exchange), [`carry`]: they end, and each peer can be asked again;
//!   what they carry and count is shown by rows of `tests/served`. Which frames `carry` takes for
//!   what a peer gives, and which for an answer to a message, is exact (`is_given`,
//!   `is_delivered`).
//!
//! `serve` requires that the node is sound (`IsSound`), as each node that was opened is, and leaves
//! it so. An answer that would be longer than a frame may be is written as NodeFault Memory
//! (`specs/Text`); that no answer is so long is not proved. An interrupted read or write is tried
//! again: each read counts towards the limit, and one answer is written in at most as many writes
//! as a stream may have reads. `Read`, `Write` and `ReadLimit` come where the reader or the writer
//! fails or the limit is met; no clause says so, since nothing tells whether a reader fails.
//!
//! # Not promised
//!
//! Only tested: what `carry` and `TcpPeer` carry and count, and that calls with ample memory
//! succeed (`tests/served`); what `listen` serves, on one connection (`test_serve`); that a
//! [`TimedStream`] ends in time (`test_serve`, `tools/stalls`): how long its next read may wait is
//! exact, but no clause says what a clock or a socket does. Neither proved nor tested: that a
//! connection of `listen` ends that is waited for longer than a minute, and what a socket gives or
//! takes.
#![tactic(auto)]

mod answering;
mod carrying;
mod connection;
mod fault;
mod listening;
mod notes;
mod outbox;
mod peer;
mod replies;
mod sending;
mod server;
mod serving;
mod timed;

pub use answering::{AnswerFault, is_request, refusal};
pub use carrying::carry;
pub use connection::{LONGEST_DIAL, LONGEST_WAIT};
pub use fault::ServeFault;
pub use listening::listen;
pub use outbox::MAX_WAITING;
pub use peer::{Peer, ServerPeer, TcpPeer, read_all, room_for};
pub use sending::write_octets;
pub use server::Server;
pub use serving::{READ_LIMIT, serve};
pub use timed::TimedStream;
