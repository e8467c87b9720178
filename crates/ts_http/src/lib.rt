//! HTTP/1.1, the server's side of one connection, as a value. No socket is in it, and moments are
//! arguments.
//!
//! ```text
//! let mut connection = Connection::new(alloc, now);
//! connection.push(piece, now)?;                        // octets came
//! while connection.read(now)? == Progress::Goes {}
//! if let Some(request) = connection.request() {
//!     // a whole request waits for its response
//!     connection.respond(200, "OK", headers, body, now)?;
//! }
//! let octets = connection.octets();                    // they wait to be written
//! connection.leave(count, now);                        // so many of them were
//! ```
//!
//! Requests are read and responses framed by `http1`, which is proved. One request is read at a
//! time: the next is read once the response to it was written. A head has at most 16 KiB and 64
//! fields, a body at most [`MAX_BODY`] octets.
//!
//! What is proved:
//!
//! - [`each_is_answered`], over every list of calls in any order (`specs/Moves`, `Account`): what
//!   left the connection and what waits is the text of the responses that were given, in order,
//!   each as `http1` plans it. Each is to one request, and these are the first requests of the
//!   octets that came, by the grammar of HTTP/1.1 (`ReadsRequests` of `http1`), however they came;
//!   the one that waits is the next. Only the last may be to what follows them and is no request
//!   that is taken. Before a response may stand that a body may come (100), where the client waits
//!   for that. `http1` proves that a client reads such a response as what was given
//!   (`response_round_trip`).
//! - [`Connection::push`], `read`, `respond`, `leave`: each is such a move, and says the times that
//!   it leaves. What is refused: a head or a body of which `http1` says why (`ServerRefuses`), by
//!   its status; a coding but `chunked` (501); a body that is announced or comes with more than
//!   8 MiB (413).
//! - [`Progress`]: `Waits` where less has come than is due, so that nothing can be read before more
//!   does; `Stops` where nothing is due; else `Goes` (`specs/Reading`).
//! - [`Connection::is_late`]: exactly by the times of `specs/Times`.
//!
//! # Not promised
//!
//! How long a body is said to be, by which a connection that announces it has more time. How much
//! memory is held: at most 64 KiB and what a read brings, beside the request; and responses.
#![tactic(auto)]

mod connection;
mod fault;
mod laws;
mod looking;
mod reading;
mod request;
mod times;
mod writing;

pub use connection::{Connection, MAX_BODY, MAX_HELD};
pub use fault::HttpFault;
pub use http1::Header;
pub use laws::each_is_answered;
pub use reading::Progress;
pub use request::{Field, Request};
pub use times::{Phase, Times};
