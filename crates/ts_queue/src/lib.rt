//! A queue of octets: they come at the back in pieces, and leave at the front.
//!
//! ```text
//! let mut queue = Queue::new(alloc);
//! queue.push(b"some ")?;
//! queue.push(b"octets")?;
//! queue.skip(5);                  // queue.octets() is b"octets"
//! ```
//!
//! Contracts see the octets that have come and not left, in their order.
//!
//! What is proved of each call:
//!
//! - [`Queue::new`], [`Queue::clear`]: there are none.
//! - [`Queue::len`], [`Queue::octets`]: how many there are; the octets themselves.
//! - [`Queue::push`]: the piece is behind the others; where memory is refused nothing changes.
//! - [`Queue::skip`]: the first so many are gone, and the others stay.
//!
//! An octet is copied a bounded number of times on its way, however the pieces are cut: room is
//! doubled as it is needed, and what is left is moved to the front only where more than as much has
//! left before it. A queue that is empty keeps room for [`KEPT`] octets at most. No clause says so,
//! since none speaks of time or of room.
#![tactic(auto)]

mod queue;

pub use queue::{KEPT, Queue};
