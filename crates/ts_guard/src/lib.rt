//! A stream of sealed records: what comes on a connection is let through where a key vouches for
//! it.
//!
//! ```text
//! let client = Greeter::new(alloc, greeting);            // client.hello() goes to the server
//! let server = Challenger::new(alloc, challenge);        // server.hello() goes to the client
//! let mut mine = client.begin(challenge, key);
//! let mut theirs = server.accept(greeting, key);
//! mine.sealer.seal(b"frames", &mut out)?;
//! theirs.opener.push(&out)?;
//! theirs.opener.take()?                                  // Some(b"frames")
//! ```
//!
//! The server sends a challenge of 32 octets at random, the client the number of its key and 32
//! octets of its own; both are new for each connection. From then on each direction is a stream of
//! records:
//!
//! ```text
//! challenge = 00 00 00 22 | 03 | 40 | challenge (32)
//! greeting  = 00 00 00 26 | 03 | 41 | key id (4) | nonce (32)
//! record    = length (4)  | 03 | tag (32) | content (1 to 65,536)
//! tag       = HMAC-SHA256(key, "lehoratu 3" | key id (4) | challenge (32) | nonce (32)
//!                              | direction (1) | number (8) | content)
//! ```
//!
//! Lengths count what follows them, and numbers are big endian. The direction is 00 from the client
//! and 01 from the server. A direction's records have the numbers 0, 1, 2 and so on. Contents, one
//! after another, are a stream of octets that the tags leave open: this crate knows nothing of
//! frames.
//!
//! What is proved of each call:
//!
//! - [`Challenger::hello`], [`Greeter::hello`]: the octets of the challenge, of the greeting
//!   (`specs/Hello`).
//! - [`Challenger::greeting`], [`Greeter::challenge`]: what came begins with this hello; or is less
//!   than one; or this is wrong in its place: first the version, then the length, then the kind.
//! - [`Challenger::accept`], [`Greeter::begin`]: a new opener and a new sealer of one session, with
//!   directions that are each other's, and what came behind the hello is held.
//! - [`Opener::push`]: the piece is behind what is held.
//! - [`Opener::take`]: `opens`: what was held begins with exactly the record of this key, session,
//!   direction, next number and content; or is less than a whole record; or this is wrong in its
//!   place (`specs/Reading`: the length, then the version, then the tag), and nothing changes
//!   (`specs/Opening`).
//! - [`Sealer::seal`]: `seals`: exactly this record was written; or the content is empty or too
//!   long, or all numbers are used, and nothing changes (`specs/Sealing`).
//! - [`laws::only_sealed`]: over every stream in whatever pieces: what came is the records of the
//!   contents that were let through, and then what is held.
//! - [`laws::ends_at_a_fault`]: after the first wrong record nothing is let through.
//! - [`laws::one_reading`]: a stream is the records of one list of contents, up to one fault or
//!   none.
//! - [`laws::one_text`]: what a tag vouches for is one key's number, one connection, one direction,
//!   one number and one content.
//! - [`laws::front_of_what_was_sealed`]: if nobody else makes a key's tags, what is let through is
//!   a front of what was sealed on this connection in this direction.
//!
//! Not promised: that octets come at all, secrecy (contents are not encrypted), that the 32 octets
//! are random or the keys secret, and how long a call takes. That nobody makes a tag without the
//! key is what HMAC-SHA256 is trusted for; the law on what was sealed has it as its premise.
#![tactic(auto)]

mod challenger;
mod channel;
mod fault;
mod greeter;
mod hello;
pub mod laws;
mod opener;
mod record;
mod sealer;
mod session;

pub use challenger::Challenger;
pub use channel::Channel;
pub use fault::{GuardFault, HelloFault};
pub use greeter::Greeter;
pub use hello::{CHALLENGE_LENGTH, GREETING_LENGTH, Greeting};
pub use opener::Opener;
pub use record::MAX_CONTENT;
pub use sealer::Sealer;
pub use session::{Direction, Session};
