//! What a node's carrier keeps, as values: the frames that wait to be sent to a peer, when to
//! connect to it, what is known of it, and the command of a client that is under way: when it is
//! proposed, and when the next one is taken. No socket is in it; moments, in milliseconds, and
//! chances are arguments.
//!
//! ```text
//! let mut mailbox = Mailbox::new(alloc);
//! mailbox.put(frame, MOST_REACHED)?;        // above 256 frames or so many octets the oldest go
//! mailbox.fill()?;
//! let count = stream.write(mailbox.octets())?;
//! mailbox.sent(count);
//!
//! let mut dial = Dial::new();
//! if dial.is_due(now) { dial.begin(now); }  // connect
//! dial.reach(now);                          // or dial.lose(now, chance): wait longer each time
//!
//! let mut contact = Contact::new();
//! contact.reach(now);                       // a connection is there
//! contact.meet();                           // the peer is the node that is meant
//! if contact.is_to_ask(now) { contact.ask(now); }
//! contact.learn(prefix);                    // it knows so many commands
//!
//! let mut gate = Gate::new(alloc, own, nodes);
//! if !gate.holds_back(held, now) { .. }     // a Submit waits while another one is under way
//! gate.see_rival(alloc, node, now)?;        // another node proposes: it has its turns from now on
//! gate.refuse(now, chance);                 // a round of the command was refused: later again
//! gate.learn(prefix, now);                  // the node knows so many commands
//! gate.end(now);                            // the command is chosen: the next one, in its turn
//! ```
//!
//! What is proved:
//!
//! - [`Mailbox`]: `put`: the frame is behind the others, of which the oldest have gone, one after
//!   another, until they are fewer than 256 and have, with it, at most so many octets, or, where it
//!   has more by itself, none; where memory is refused, it is lost too. `make_room`: the oldest go
//!   so, and no frame comes. `fill`: frames are made ready one after another until 16,384 octets
//!   are, and no octet is lost, doubled or moved, whatever memory there is. `sent`: so many have
//!   gone at the front. `cut`: what was being sent is lost, and whole frames wait on
//!   (`specs/Mailbox`).
//! - [`Dial`]: each call leaves the state of `specs/Dial`: the next try is after the delay and at
//!   most half of it more; the delay is 50 ms, doubled at each failure up to 5 s, and 50 ms again
//!   after a connection that lasted a second.
//! - [`Contact`]: each event leaves the state of `specs/Contact`. `is_silent`: a peer may take five
//!   seconds to answer, and one more for each 256 KiB that it was sent. `is_to_ask`: the node that
//!   is meant is asked how many commands it knows a second after it was asked last, if it was heard
//!   since. `end`: what the end of a connection says, once for all ends without an answer.
//! - [`event_of`]: what a whole frame, of [`whole_frame`], has to do with the command that is under
//!   way (`specs/Event`).
//! - [`Gate`]: `holds_back`: exactly where a command is under way, or it is not the node's turn
//!   yet, and a whole Submit begins here. Each event leaves the state of `specs/Gate`: after
//!   `begin`, `tried`, `refuse` and `learn` the command is proposed again then, and it is given up
//!   ten seconds after it was submitted or another one was chosen; after `end` the next one is
//!   taken then. `patience`: how long nothing of this is due. Of each eight positions another one
//!   of the nodes that propose is the first, and each further one waits for as long as a position
//!   takes, so that nodes that all have commands choose one after another (`specs/Rotation`).
//!
//! # Not promised
//!
//! That anything is sent, or that these events are those that happen: that is the part of
//! `ts_peers` and `ts_loop`. Chances are whatever the caller gives.
#![tactic(auto)]

mod contact;
mod dial;
mod event;
mod gate;
mod mailbox;
mod rotation;

pub use contact::{Contact, ContactEnd};
pub use dial::{Dial, FIRST_DELAY, LONGEST_DELAY, Phase, SILENCE};
pub use event::{FrameEvent, event_of, whole_frame};
pub use gate::{Gate, LONGEST_WAY, WantedCommand};
pub use mailbox::{MAX_FRAMES, MOST_LOST, MOST_REACHED, Mailbox};
