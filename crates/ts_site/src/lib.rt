//! What is answered over HTTP, as values: a request comes to a response, or to a frame that the
//! node is asked by, whose answer leads on. No connection is in it (`ts_http` has it).
//!
//! ```text
//! let mut face = Face::new(alloc, now);                   // of one connection
//! face.push(piece, now)?;                                 // octets that came
//! face.take(&scene, &mut board, now)?;                    // requests are taken
//! if let Some(frame) = face.asks() { .. }                 // the node is asked by it
//! face.give(&answer, &mut board, now)?;                   // and has answered
//! face.leave(count, now);                                 // of face.octets(), so many have left
//! ```
//!
//! - [`Face`]: a connection. What it reads and writes, and that each request is answered once and
//!   in order, `ts_http` says.
//! - [`Face::take`]: `Takes`, `IsDone` (`specs/Faces`): step by step what has come is read and
//!   begun, until the node is to be asked, less than a request is left, too much waits to leave
//!   (then [`Face::goes_on`] says when to go on), or nothing more is answered.
//! - [`Face::take`], [`Face::give`]: `Takes`, `IsGiven`: a request comes to what `Begins` says, by
//!   its path, its method and what it says, and an answer of the node to what `GoesOn` says
//!   (`specs/Requests`): of which question the frame is, and which status a response has, which
//!   body, which header fields, and for how long it may be kept (`specs/Verdicts`, `Listings`,
//!   `Statuses`). Where a search found nothing, at `/v1/explain` and for the page's form, the node
//!   is asked for its anchors, and then about the chain that was sent (`specs/Explaining`). A
//!   command is handed on only from whoever shows the secret of a key that may submit it, and is
//!   refused with 401 or 403 and these words else (`specs/Commanding`).
//! - [`asks_for_requests`], [`asks_their_questions`]: over every list of calls of a connection, the
//!   node is asked for the request that waits, and, where a verdict is asked, the question that
//!   this request says.
//! - [`Scene`]: what a request finds: the time, the node's number and keys. [`Board`]: what a node
//!   shows: its peers, and counts.
//!
//! Out of memory is the only error, and [`HttpFault`].
//!
//! # Not promised
//!
//! What pages show, what the page of the store asks the node for, what is counted, and from when
//! `Face::take` counts the time of what it does. `tools/browser` looks at pages.
#![tactic(auto)]

mod board;
mod commanding;
mod explaining;
mod face;
mod form;
mod frames;
mod gauging;
mod laws;
mod listing;
mod metrics;
mod next;
mod paging;
mod refusing;
mod site;
mod status;
mod verifying;

pub use board::{Board, Label, Metric, Turns};
pub use face::Face;
pub use laws::{asks_for_requests, asks_their_questions};
pub use ts_api::Scene;
pub use ts_http::{HttpFault, MAX_BODY};
pub use ts_page::PeerLine;
