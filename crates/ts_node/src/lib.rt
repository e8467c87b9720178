//! One node of the synod: acceptor, proposer and log over a record on two disks, and a state
//! machine that takes the learned commands.
//!
//! Each call of `Node::handle` is one event of the world of `ts_synod`, and what it keeps is on
//! disk before it answers. A call of `Node::turn` is one such event, and then the delivery of each
//! message to the node itself that follows from it; what all of them keep is on disk before it
//! answers, by one append, which a crash leaves done or undone as a whole. Calls of `Node::stage`
//! make such turns in memory, and `Node::keep_staged` keeps the facts of all of them by one append.
//!
//! ```text
//! // refused, it gives the disks and the machine back
//! let mut node = Node::open(alloc, a, b, machine)?;
//! let output = node.handle(&Input::Submit(command))?;              // Started, or Settled
//! for message in output.messages { .. }                            // to itself too
//! let output = node.turn(&Input::Submit(command))?;                // those to itself are taken
//! let mut staged = Staged::empty(alloc);
//! let output = node.stage(&Input::Submit(command), &mut staged)?;  // what it answers has to wait
//! node.keep_staged(&mut staged)?;                                  // now it may leave
//! let (a, b, machine) = node.close();
//! ```
//!
//! - `Machine`: what the world's store is: an id of each command, an outcome of each after others,
//!   and which answers are right after the first k commands.
//! - `Node::open`: `opens`, `only`: the facts are those that the disks open to, and the node is the
//!   one whose record they are; `restarted`: the world's node after a restart; `moments`: a crash
//!   within the call leaves nothing new; `owner`: which node; `fault`: the record's faults and no
//!   others, but for out of memory; `same`, `machine`.
//! - `Node::handle`: `step`: facts, volatile part, messages and reply are those of the world's
//!   step, for each world's node whose facts are equivalent to this one's (`SameForce`); `moments`:
//!   at every moment each pair of images opens to the facts before, or to those and the step's;
//!   `compacts`: a compaction leaves equivalent facts, and the rest; `failed`, `broken`: broken
//!   after a device's failure; `sound`, `config`, `basis`.
//! - `Node::identity`: which node of which group it is, as its record has it.
//! - `Node::turn`: `turned`: facts, volatile part, messages and reply are those of a turn of the
//!   world's node: the event and the deliveries of the messages to the node itself among the first
//!   64 that it makes, in their order; `given`: those that it took are not given out; `ends`: it
//!   leaves such a message only where it has looked at 64, or where a record can't keep its facts
//!   with the others at once; `alone`: an input that makes no such message is handled as by
//!   `handle`. So a group of one node knows a command after one append instead of four. Where
//!   memory is refused once the roles are ahead of the record the node is broken, as after a
//!   device's failure, and nothing of the turn is kept.
//! - `Node::stage`: `stage`: the input is taken as a turn of the world's node at the node that
//!   holds what waits, or it is refused, which changes nothing; no device is called (`IsBehind`).
//!   Only where it is a compaction, or a record can't keep its facts with those that wait, are
//!   those kept first, and it is a turn by itself (`IsApart`). Where memory is refused once the
//!   roles are ahead of the record the node is broken. `ahead`.
//! - `Node::keep_staged`: `kept`: at every moment each pair of images opens to the facts before, or
//!   to those and all that waited; none waits then, and where none waited no device is called; or
//!   the node is broken. `ahead`.
//! - `headline`: what is promised of every run of nodes (`specs/Run`). `calls_are_allowed`:
//!   these runs are the lists of calls that meet their contracts, with stops between and within
//!   them. Of calls of `stage` that are kept each input that was taken is one thing that happens,
//!   at the moment at which all are kept.
//! - `Node::is_broken`: a device failed, or memory was refused in the middle of a turn.
//! - `Node::close`: the two disks and the machine.
//!
//! `IsSound` says that a node is one that `open` gave: the roles stand for its facts, the disks
//! open to them, and the machine took the first of the learned commands. Each call keeps it. A
//! command's octets have to fit a record (`InputFits`).
//!
//! # Not promised
//!
//! Only tested, by rows of `tests/lab` and `tests/served`: that calls with ample memory succeed.
//! Neither proved nor tested: that anything is ever chosen; time. `handle` and `turn` have as their
//! condition that the node is one that `open` gave or an earlier call left (`IsSound`), and that
//! what arrives fits a record (`InputFits`).
#![tactic(auto)]

mod ahead;
mod feeding;
mod growth;
mod identity;
mod input;
mod laws;
mod machine;
mod messages;
mod node;
mod plan;
mod planning;
mod roles;
mod room;
mod submit;
mod turn;
mod turning;

pub use identity::Identity;
pub use input::{Input, Output, Reply};
pub use laws::{calls_are_allowed, headline};
pub use machine::Machine;
pub use node::{Node, RefusedNode};
pub use turn::StagedFacts;
