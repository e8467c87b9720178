//! Frames: what a stream between nodes, servers and clients carries, each with one encoding.
//!
//! ```text
//! write_frame(alloc, &mut out, &Frame::Status)?;   // 00 00 00 02 02 15
//! let mut feed = Feed::new(alloc);
//! feed.push(piece)?;
//! // Frame(fault) where a fault is in a frame's place
//! while let Some(frame) = feed.take()? { .. }
//! ```
//!
//! A frame is four octets of the length of what follows (2 to 8,388,608), the version, 02, an octet
//! of the kind, and fields (`specs/Frames`). Numbers are big endian. Nodes are 1 to 9, positions 1
//! to 1,000,000; a ballot has a round of at least 1 and a node in the low four bits.
//!
//! - [`write_frame`]: `encoded`: the one encoding; `length`, `short`: `Length` only above the
//!   limit, and success only within it; `unchanged`: an error writes nothing.
//! - [`Feed::push`]: the octets that came, of which no frame was taken yet; at an error they stay.
//! - [`Feed::take`]: `frame`: they began with the encoding of this frame, and the others stay;
//!   `partial`: they are less than a whole frame; `wrong`: this fault is at their front
//!   (`specs/Stream`), and they stay.
//! - [`decode`]: a whole stream in whatever pieces it comes. `splits`: it is these frames, up to
//!   this fault or to less than a whole frame; `only`: no others are.
//! - [`laws::no_front`]: no frame's encoding is the beginning of another's.
//! - [`laws::one_reading`]: a stream is one list of frames, up to one fault or none.
//! - [`laws::fault_stays`]: a fault stays, whatever comes after it, so that `take` answers it
//!   again.
//!
//! Out of memory is answered as `Memory` or `AllocError`, and the call can be made again.
//!
//! # Not promised
//!
//! Only tested, by `tests/served/frames.rows`: the octets of examples, and that calls with ample
//! memory succeed.
#![tactic(auto)]

mod fault;
mod feed;
mod frame;
pub mod laws;
mod reading;
mod route;
mod stream;
mod wire_error;
mod writing;

pub use fault::FrameFault;
pub use feed::Feed;
pub use frame::Frame;
pub use stream::decode;
pub use wire_error::{FeedError, WriteError};
pub use writing::{MAX_LENGTH, write_frame};
